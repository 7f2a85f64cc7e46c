//! Whether the parts of a call site go together (JVMS 4.7.23, 6.5).

ghost use Rattle.std.specs.Prelude.{◌≡◌, ◌==◌, ◌&&◌, ◌++◌, count_by, IfOk, OnOk, option_map};
ghost use Rattle.std.specs.List.{list_all};
ghost use Rattle.class_model.specs.Constants.{constant_at, is_some_that};
ghost use Rattle.class_code.specs.Types.{read, signature_of};
ghost use Rattle.class_code.specs.Parts.{lambda_site, concatenation_site, site};
ghost use Rattle.class_code.specs.Sites.{wanted_by, implementing_by, is_sound, lambda_kinds, is_joined, is_recipe, is_joining, is_sound_site, site_at, has_unknown_site};
ghost use Rattle.class_code.specs.Flags.{if_site, unknown_sites};

use crate::flags::{Flags, flag_of};
use crate::lambdas::{
    are_arguments, are_kinds, are_results, is_object, is_string, returns_to, takes_receiver,
};
use crate::site::{ConcatenationView, LambdaView, SiteView, written_site};
use crate::types::{Returned, read_kinds};
use class_model::{Class, Constant, Pool};
use jvm_tables::{ConstantUse, Instr, OpRow, ValueKind};
use std::alloc::{AllocError, Global};

/// The kinds that the parts of a call site take. It is used again for one site after another.
#[derive(Debug, Drop)]
pub struct SiteKinds {
    site: Vec<ValueKind>,
    erased: Vec<ValueKind>,
    method: Vec<ValueKind>,
    instantiated: Vec<ValueKind>,
    given: Vec<ValueKind>,
    wanted: Vec<ValueKind>,
}

/// Whether the constant of a number may be one of a concatenation.
fn is_joined(pool: &Pool, number: u16) -> bool
    ensures { result ≡ is_some_that is_joined (constant_at pool.now number) }
{
    matches!(
        pool.constant(number),
        Some(Constant::Text(_) | Constant::Integer(_) | Constant::Long(_))
    )
}

pub(crate) fn are_joined(pool: &Pool, numbers: &[u16]) -> bool
    ensures { result ≡ list_all (λ n. is_some_that is_joined (constant_at pool.now n)) numbers.now }
{
    for number in numbers {
        if !is_joined(pool, *number) {
            return false;
        }
    }
    true
}

pub(crate) fn count_of(byte: u8, text: &[u8]) -> usize
    ensures { result ≡ count_by (λ b. b == byte) text.now }
{
    text.iter().filter(|b| **b == byte).count()
}

/// Whether a recipe has U+0001 for each argument and U+0002 for each constant.
fn is_recipe(arguments: usize, constants: usize, recipe: &[u8]) -> bool
    ensures { result ≡ is_recipe arguments constants recipe.now }
{
    count_of(1, recipe) == arguments && count_of(2, recipe) == constants
}

impl SiteKinds {
    /// Empty buffers.
    pub fn new(alloc: Global) -> SiteKinds {
        SiteKinds {
            site: Vec::new(alloc),
            erased: Vec::new(alloc),
            method: Vec::new(alloc),
            instantiated: Vec::new(alloc),
            given: Vec::new(alloc),
            wanted: Vec::new(alloc),
        }
    }
}

/// The captured values and the parameters, and what the implementing method wants of them.
pub(crate) fn put_given(
    site: &[ValueKind],
    instantiated: &[ValueKind],
    given: &mut Vec<ValueKind>,
) -> Result<(), AllocError>
    ensures { OnOk result (given.new.items ≡ site.now ++ instantiated.now) }
{
    given.clear();
    given.extend_from_slice(site)?;
    given.extend_from_slice(instantiated)?;
    Ok(())
}

pub(crate) fn put_wanted(
    kind: u8,
    method: &[ValueKind],
    wanted: &mut Vec<ValueKind>,
) -> Result<(), AllocError>
    ensures { OnOk result (wanted.new.items ≡ wanted_by kind method.now) }
{
    wanted.clear();
    if takes_receiver(kind) {
        wanted.push(ValueKind::Reference)?;
    }
    wanted.extend_from_slice(method)?;
    Ok(())
}

impl SiteKinds {
    /// Whether the kinds that were read go together as a lambda, whose implementing method has this kind and result.
    #[tactic(auto, unfolding(crate::specs::Sites::is_sound))]
    fn are_sound(
        &mut self,
        site: Returned<'_>,
        erased: Returned<'_>,
        kind: u8,
        method: Returned<'_>,
        instantiated: Returned<'_>,
    ) -> Result<bool, AllocError>
        ensures { IfOk result (λ told. told ≡ is_sound (record {
          site = read self.old.site.items site.entry;
          erased = read self.old.erased.items erased.entry;
          implementing = implementing_by kind (read self.old.method.items method.entry);
          instantiated = read self.old.instantiated.items instantiated.entry;
        })) }
    {
        put_given(&self.site, &self.instantiated, &mut self.given)?;
        put_wanted(kind, &self.method, &mut self.wanted)?;
        Ok(
            is_object(site)
                && are_kinds(&self.erased, &self.instantiated)
                && are_results(erased.kind(), instantiated.kind())
                && 5 <= kind
                && kind <= 9
                && are_arguments(&self.given, &self.wanted)
                && returns_to(kind, method.kind(), instantiated.kind()),
        )
    }

    fn is_sound_lambda(&mut self, lambda: LambdaView<'_>) -> Result<bool, AllocError>
        ensures { IfOk result (λ told. told ≡ is_some_that is_sound (lambda_kinds (lambda_site lambda.entry))) }
    {
        self.site.clear();
        let Some(site) = read_kinds(lambda.descriptor, &mut self.site)? else {
            return Ok(false);
        };
        self.erased.clear();
        let Some(erased) = read_kinds(lambda.erased, &mut self.erased)? else {
            return Ok(false);
        };
        self.method.clear();
        let handle = lambda.implementing;
        let Some(method) = read_kinds(handle.member.descriptor, &mut self.method)? else {
            return Ok(false);
        };
        self.instantiated.clear();
        let Some(instantiated) = read_kinds(lambda.instantiated, &mut self.instantiated)? else {
            return Ok(false);
        };
        self.are_sound(site, erased, handle.kind, method, instantiated)
    }

    fn is_joining(&mut self, concatenation: ConcatenationView<'_>) -> Result<bool, AllocError>
        ensures { IfOk result (λ told. told ≡ is_some_that (is_joining (concatenation_site concatenation.entry)) (signature_of (concatenation_site concatenation.entry).descriptor)) }
    {
        self.site.clear();
        let Some(site) = read_kinds(concatenation.descriptor, &mut self.site)? else {
            return Ok(false);
        };
        let constants = concatenation.constants.len();
        Ok(is_string(site) && is_recipe(self.site.len(), constants, concatenation.recipe))
    }

    /// Whether the parts of a site go together.
    fn is_sound_site(&mut self, pool: &Pool, found: SiteView<'_>) -> Result<bool, AllocError>
        ensures { IfOk result (λ told. told ≡ is_sound_site pool.now (site found.entry)) }
    {
        match found {
            SiteView::Lambda(lambda) => self.is_sound_lambda(lambda),
            SiteView::Concatenation(concatenation) => Ok(
                self.is_joining(concatenation)? && are_joined(pool, concatenation.constants),
            ),
        }
    }

    /// The site by an entry of the class's table of bootstrap methods and a name and type. `None` for another bootstrap
    /// method than `LambdaMetafactory.metafactory` and `StringConcatFactory.makeConcatWithConstants`, for an entry
    /// outside the table, and for a site whose parts don't go together.
    #[tactic(auto, unfolding(crate::specs::Sites::site_at))]
    pub fn site_at<'a>(
        &mut self,
        class: &'a Class,
        bootstrap: u16,
        name_type: u16,
    ) -> Result<Option<SiteView<'a>>, AllocError>
        ensures { IfOk result (λ found. option_map site found ≡ site_at class.now bootstrap name_type) }
    {
        let Some(found) = written_site(class, bootstrap, name_type) else {
            return Ok(None);
        };
        if self.is_sound_site(&class.pool, found)? {
            Ok(Some(found))
        } else {
            Ok(None)
        }
    }
}

fn if_site(named: ConstantUse, flag: bool) -> bool
    ensures { result ≡ if_site named flag }
{
    match named {
        ConstantUse::CallSite => flag,
        _ => false,
    }
}

/// Whether an instruction is an invokedynamic that has no site. A constant that is no call site is not judged here.
#[tactic(auto, using(crate::proofs::Flagged::site_flagged))]
pub fn has_unknown_site(unknown: &Flags, _class: &Class, row: &OpRow, instr: &Instr) -> bool
    requires { unknown.now ≡ unknown_sites _class.now }
    ensures { result ≡ has_unknown_site _class.now row.now instr.now }
{
    if_site(row.constant, flag_of(unknown, instr))
}
