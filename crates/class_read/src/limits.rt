//! How many classes a build may have, and how many methods with code.

ghost use Rattle.std.specs.Prelude.{◌≡◌, ◌<◌, count_by, nat_lt, MatchOption};
ghost use Rattle.class_model.specs.Shape.{has_code};
ghost use Rattle.class_read.specs.declared.limits.Limit.TheVariants.{Methods};
ghost use Rattle.class_read.specs.Limits.{most, count_of, IsFirstPassed, IsWithinLimits};

use class_model::{Class, Member, has_code};
use std::fmt;

/// What a build may have only so many of.
#[derive(Clone, Copy, Debug, PartialEq, Eq)]
pub enum Limit {
    Classes,
    /// Methods with code.
    Methods,
}

impl Limit {
    ghost use Rattle.class_read.specs.Limits.{most};

    /// The most that a build may have.
    pub fn most(self) -> usize
        ensures { result ≡ most self }
    {
        match self {
            Limit::Classes => 8192,
            Limit::Methods => 262_144,
        }
    }
}

impl fmt::Display for Limit {
    fn fmt<W: fmt::Write>(&self, f: &mut fmt::Formatter<W>) -> fmt::Result {
        match self {
            Limit::Classes => f.write_str("classes"),
            Limit::Methods => f.write_str("methods"),
        }
    }
}

fn is_counted(method: &Member) -> bool
    ensures { result ≡ has_code method.now.attributes }
{
    has_code(method.attributes.as_slice())
}

fn counted(methods: &[Member]) -> usize
    ensures { result ≡ count_by (λ m. has_code m.attributes) methods.now }
{
    let mut count = 0;
    for method in methods {
        if is_counted(method) {
            count += 1;
        }
    }
    count
}

/// Whether the classes have more methods with code than so many.
pub(crate) fn have_more_methods(classes: &[Class], most: usize) -> bool
    ensures { result ≡ nat_lt most (count_of Methods classes.now) }
{
    let mut left = most;
    for class in classes {
        let count = counted(class.methods.as_slice());
        if left < count {
            return true;
        }
        left -= count;
    }
    false
}

/// The first limit that the classes pass.
pub(crate) fn passed_limit(classes: &[Class]) -> Option<Limit>
    ensures { MatchOption result (IsWithinLimits classes.now)
        (λ limit. IsFirstPassed limit classes.now) }
{
    if classes.len() > Limit::Classes.most() {
        return Some(Limit::Classes);
    }
    if have_more_methods(classes, Limit::Methods.most()) {
        return Some(Limit::Methods);
    }
    None
}
