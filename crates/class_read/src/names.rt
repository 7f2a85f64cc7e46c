//! Names that more than one class has.

ghost use Rattle.std.specs.Prelude.{◌≡◌, All, Some, None, is_some, if◌then◌else◌, IfOk, IfErr, OnOk, option_copied};
ghost use Rattle.jvm_tables.specs.Externals.{external_of};
ghost use Rattle.class_model.specs.Shape.{Shaped, class_name};
ghost use Rattle.class_index.specs.Least.{lesser_of, least_from};
ghost use Rattle.class_read.specs.Twice.{external_names, IsEachOnce, IsNameFault};

use class_model::{Class, Name, Program, ProgramFault};
use jvm_tables::external;
use std::alloc::{AllocError, Global};
use std::cmp::Ordering;

/// The lesser of two names, of which the first may be missing.
fn lesser<'a>(least: Option<&'a [u8]>, name: &'a [u8]) -> &'a [u8]
    ensures { result.now ≡ lesser_of (option_copied least.entry) name.now }
{
    match least {
        None => name,
        Some(least) => match least.cmp(name) {
            Ordering::Greater => name,
            _ => least,
        },
    }
}

fn is_external(name: &[u8]) -> bool
    ensures { result ≡ is_some (external_of name.now) }
{
    external(name).is_some()
}

/// The lesser of a name and that of the class, if an external class has it too.
fn least_with<'a>(least: Option<&'a [u8]>, class: &'a Class) -> Option<&'a [u8]>
    ensures { option_copied result ≡ (if is_some (external_of (class_name class.now))
        then Some (lesser_of (option_copied least.entry) (class_name class.now))
        else option_copied least.entry) }
{
    let name = class.name();
    if is_external(name) {
        Some(lesser(least, name))
    } else {
        least
    }
}

/// The least name that a class and an external one have.
#[tactic(auto, using(crate::proofs::TwiceLemmas::external_more))]
fn least_external(classes: &[Class]) -> Option<&[u8]>
    ensures { option_copied result ≡ least_from None (external_names classes.now) }
{
    let mut least = None;
    for class in classes {
        least = least_with(least, class);
    }
    least
}

fn external_name(alloc: Global, classes: &[Class]) -> Result<Option<Name>, AllocError>
    requires { All Shaped classes.now }
    ensures { IfOk result (λ least. least ≡ least_from None (external_names classes.now)) }
{
    match least_external(classes) {
        Some(name) => Ok(Some(Name::of_valid(alloc, name)?)),
        None => Ok(None),
    }
}

/// The lesser of two names, of which the second may be missing.
fn lesser_name(name: Name, other: Option<Name>) -> Name
    ensures { result ≡ lesser_of other name }
{
    match other {
        Some(other) if other.cmp(&name).is_le() => other,
        _ => name,
    }
}

/// The program of classes, if no two have one name, the external ones among them.
pub(crate) fn program_of(alloc: Global, classes: Vec<Class>) -> Result<Program, ProgramFault>
    requires { All Shaped classes.items }
    ensures ok { IfOk result (λ program. program ≡ classes.items) }
    ensures once { OnOk result (IsEachOnce classes.items) }
    ensures fault { IfErr result (λ fault. IsNameFault classes.items fault) }
{
    let external = external_name(alloc, &classes)?;
    match Program::of(alloc, classes) {
        Ok(program) => match external {
            Some(name) => Err(ProgramFault::DuplicateClass(name)),
            None => Ok(program),
        },
        Err(ProgramFault::DuplicateClass(name)) => {
            Err(ProgramFault::DuplicateClass(lesser_name(name, external)))
        }
        Err(ProgramFault::Memory) => Err(ProgramFault::Memory),
    }
}
