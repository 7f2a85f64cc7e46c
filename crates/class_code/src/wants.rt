//! Which call sites of a class have no site (JVMS 4.7.23, 6.5): what an entry of the table of bootstrap methods wants is
//! judged once, and each call site by the type that it has.

ghost use Rattle.std.specs.Prelude.{◌≡◌, map, IfOk, option_map, option_copied, option_and_then};
ghost use Rattle.jvm_tables.specs.declared.instruction.ConstantUse.TheVariants.{CallSite};
ghost use Rattle.class_model.specs.Constants.{constant_at};
ghost use Rattle.class_code.specs.Constants.{name_at, descriptor_at};
ghost use Rattle.class_code.specs.Bootstraps.{bootstraps_of};
ghost use Rattle.class_code.specs.Descriptors.{call_of, descriptors_of};
ghost use Rattle.class_code.specs.Flags.{unknown_sites};
ghost use Rattle.class_code.specs.Named.{member_by, handle_to, handle_at, method_type_at};
ghost use Rattle.class_code.specs.Sites.{recipe_of, unknown_by};
ghost use Rattle.class_code.specs.Wants.{wants, handle_call, is_sound_entry, wants_of_lambda, concatenation_wants, wants_of_concatenation, wants_of, is_wanted, has_site};

use crate::bootstraps::{bootstraps_of, is_concatenating, is_metafactory};
use crate::constants::name_at;
use crate::descriptors::{CallKinds, Descriptors, Told, told_at, told_of_type};
use crate::flags::Flags;
use crate::lambdas::{are_arguments, are_kinds, are_results, returns_to};
use crate::site::recipe_at;
use crate::sites::{are_joined, count_of, put_given, put_wanted};
use class_model::{Bootstrap, Class, Constant, Pool};
use jvm_tables::ValueKind;
use sqlite_items::{Items, at};
use std::alloc::{AllocError, Global};

/// What an entry of the table of bootstrap methods wants of the type of each of its call sites.
#[derive(Clone, Copy, Debug)]
pub(crate) enum SiteWants<'a> {
    /// No type will do.
    Nothing,
    /// A lambda: the kind of the method handle, its method, and the type that the interface's method has there.
    Lambda(u8, &'a CallKinds, &'a CallKinds),
    /// A concatenation of so many arguments.
    Concatenation(usize),
}

/// What the type of a call says, if it says something.
#[tactic(auto, using(crate::proofs::TextsTold::call_of_told))]
fn call_of(told: Option<&Told>) -> Option<&CallKinds>
    ensures { option_copied result ≡ option_and_then (λ t. t.call) (option_copied told.entry) }
{
    match told {
        Some(told) => match &told.call {
            Some(call) => Some(call),
            None => None,
        },
        None => None,
    }
}

/// What the descriptor of the name and type of a number says as a method's.
#[tactic(auto, using(crate::proofs::TextsTold::call_of_told))]
fn call_of_type<'a>(descriptors: &'a Descriptors, pool: &Pool, number: u16) -> Option<&'a CallKinds>
    requires { descriptors.now ≡ descriptors_of pool.now }
    ensures { option_copied result ≡ option_and_then call_of (descriptor_at pool.now number) }
{
    call_of(told_of_type(descriptors, pool, number))
}

/// What the method type of a number says.
#[tactic(auto, using(crate::proofs::TextsTold::call_of_told), unfolding(crate::specs::Named::method_type_at))]
fn call_of_method_type<'a>(
    descriptors: &'a Descriptors,
    pool: &Pool,
    number: u16,
) -> Option<&'a CallKinds>
    requires { descriptors.now ≡ descriptors_of pool.now }
    ensures { option_copied result ≡ option_and_then call_of (method_type_at pool.now number) }
{
    match pool.constant(number) {
        Some(Constant::MethodType(descriptor)) => {
            call_of(told_at(descriptors, pool, *descriptor))
        }
        _ => None,
    }
}

/// What the descriptor of a member says as a method's, if its class and its name are there.
fn call_of_member<'a>(
    descriptors: &'a Descriptors,
    pool: &Pool,
    owner: u16,
    name_type: u16,
) -> Option<&'a CallKinds>
    requires { descriptors.now ≡ descriptors_of pool.now }
    ensures { option_copied result ≡ option_and_then (λ m. call_of m.descriptor) (member_by pool.now owner name_type) }
{
    let Some(_) = pool.class_name(owner) else {
        return None;
    };
    let Some(_) = name_at(pool, name_type) else {
        return None;
    };
    call_of_type(descriptors, pool, name_type)
}

#[tactic(auto, using(crate::proofs::WantsTold::handle_told))]
fn call_of_reference<'a>(
    descriptors: &'a Descriptors,
    pool: &Pool,
    kind: u8,
    reference: u16,
) -> Option<(u8, &'a CallKinds)>
    requires { descriptors.now ≡ descriptors_of pool.now }
    ensures { option_map (λ h. (h.0, h.1.now)) result
        ≡ option_and_then handle_call (option_and_then (handle_to pool.now kind) (constant_at pool.now reference)) }
{
    match pool.constant(reference) {
        Some(
            Constant::Ref {
                class,
                name_type,
                ..
            },
        ) => match call_of_member(descriptors, pool, *class, *name_type) {
            Some(call) => Some((kind, call)),
            None => None,
        },
        _ => None,
    }
}

/// The kind of the method handle of a number, and what the descriptor of its member says as a method's.
#[tactic(auto, unfolding(crate::specs::Named::handle_at))]
fn call_of_handle<'a>(
    descriptors: &'a Descriptors,
    pool: &Pool,
    number: u16,
) -> Option<(u8, &'a CallKinds)>
    requires { descriptors.now ≡ descriptors_of pool.now }
    ensures { option_map (λ h. (h.0, h.1.now)) result ≡ option_and_then handle_call (handle_at pool.now number) }
{
    match pool.constant(number) {
        Some(Constant::Handle { kind, reference }) => {
            call_of_reference(descriptors, pool, *kind, *reference)
        }
        _ => None,
    }
}

/// Whether the types and the handle of a lambda go together.
fn is_sound_entry(
    erased: &CallKinds,
    kind: u8,
    method: &CallKinds,
    instantiated: &CallKinds,
) -> bool
    ensures { result ≡ is_sound_entry erased.now kind method.now instantiated.now }
{
    are_kinds(erased.takes.as_slice(), instantiated.takes.as_slice())
        && are_results(erased.gives, instantiated.gives)
        && 5 <= kind
        && kind <= 9
        && returns_to(kind, method.gives, instantiated.gives)
}

fn wants_of_lambda<'a>(
    descriptors: &'a Descriptors,
    pool: &Pool,
    arguments: &[u16],
) -> SiteWants<'a>
    requires { descriptors.now ≡ descriptors_of pool.now }
    ensures { wants result ≡ wants_of_lambda pool.now arguments.now }
{
    let [erased, implementing, instantiated] = arguments else {
        return SiteWants::Nothing;
    };
    let Some(erased) = call_of_method_type(descriptors, pool, *erased) else {
        return SiteWants::Nothing;
    };
    let Some((kind, method)) = call_of_handle(descriptors, pool, *implementing) else {
        return SiteWants::Nothing;
    };
    let Some(instantiated) = call_of_method_type(descriptors, pool, *instantiated) else {
        return SiteWants::Nothing;
    };
    if is_sound_entry(erased, kind, method, instantiated) {
        SiteWants::Lambda(kind, method, instantiated)
    } else {
        SiteWants::Nothing
    }
}

fn wants_of_recipe<'a>(pool: &Pool, recipe: &[u8], constants: &[u16]) -> SiteWants<'a>
    ensures { wants result ≡ concatenation_wants pool.now constants.now (Some recipe.now) }
{
    if count_of(2, recipe) == constants.len() && are_joined(pool, constants) {
        SiteWants::Concatenation(count_of(1, recipe))
    } else {
        SiteWants::Nothing
    }
}

fn wants_of_concatenation<'a>(pool: &Pool, arguments: &[u16]) -> SiteWants<'a>
    ensures { wants result ≡ wants_of_concatenation pool.now arguments.now }
{
    match arguments.split_first() {
        Some((recipe, constants)) => match recipe_at(pool, *recipe) {
            Some(recipe) => wants_of_recipe(pool, recipe, constants),
            None => SiteWants::Nothing,
        },
        None => SiteWants::Nothing,
    }
}

fn wants_of<'a>(descriptors: &'a Descriptors, pool: &Pool, bootstrap: &Bootstrap) -> SiteWants<'a>
    requires { descriptors.now ≡ descriptors_of pool.now }
    ensures { wants result ≡ wants_of pool.now bootstrap.now }
{
    let arguments = bootstrap.arguments.as_slice();
    if is_metafactory(pool, bootstrap) {
        return wants_of_lambda(descriptors, pool, arguments);
    }
    if is_concatenating(pool, bootstrap) {
        return wants_of_concatenation(pool, arguments);
    }
    SiteWants::Nothing
}

/// What each entry of a table wants.
fn wants_of_all<'a>(
    alloc: Global,
    descriptors: &'a Descriptors,
    pool: &Pool,
    entries: &[Bootstrap],
) -> Result<Vec<SiteWants<'a>>, AllocError>
    requires { descriptors.now ≡ descriptors_of pool.now }
    ensures { IfOk result (λ all. map wants all.items ≡ map (wants_of pool.now) entries.now) }
{
    let mut all = Vec::new(alloc);
    for entry in entries {
        all.push(wants_of(descriptors, pool, entry))?;
    }
    Ok(all)
}

/// The kinds that a call site gives and that are wanted, used again for one after another.
#[derive(Drop)]
struct Buffers {
    given: Vec<ValueKind>,
    wanted: Vec<ValueKind>,
}

impl Buffers {
    /// Whether the type of a call site is what its entry wants.
    fn is_wanted(&mut self, asked: SiteWants<'_>, site: &CallKinds) -> Result<bool, AllocError>
        ensures { IfOk result (λ told. told ≡ is_wanted (wants asked.entry) site.now) }
    {
        match asked {
            SiteWants::Nothing => Ok(false),
            SiteWants::Lambda(kind, method, instantiated) => {
                let takes = site.takes.as_slice();
                put_given(takes, instantiated.takes.as_slice(), &mut self.given)?;
                put_wanted(kind, method.takes.as_slice(), &mut self.wanted)?;
                Ok(site.gives_object && are_arguments(&self.given, &self.wanted))
            }
            SiteWants::Concatenation(arguments) => {
                Ok(site.gives_string && arguments == site.takes.len())
            }
        }
    }

    /// Whether a name and type is that of a site of an entry.
    fn has_site(
        &mut self,
        descriptors: &Descriptors,
        pool: &Pool,
        wanted: Option<&SiteWants<'_>>,
        name_type: u16,
    ) -> Result<bool, AllocError>
        requires { descriptors.now ≡ descriptors_of pool.now }
        ensures { IfOk result (λ told. told ≡ has_site (name_at pool.now name_type) (option_map wants (option_copied wanted.entry))
            (option_and_then call_of (descriptor_at pool.now name_type))) }
    {
        let Some(_) = name_at(pool, name_type) else {
            return Ok(false);
        };
        let Some(wanted) = wanted else {
            return Ok(false);
        };
        match call_of_type(descriptors, pool, name_type) {
            Some(call) => self.is_wanted(*wanted, call),
            None => Ok(false),
        }
    }

    /// Whether a constant is a call site that has no site.
    #[tactic(auto, using(crate::proofs::WantsTold::site_told, crate::proofs::WantsTold::entry_told))]
    fn is_unknown(
        &mut self,
        descriptors: &Descriptors,
        class: &Class,
        wanted: &[SiteWants<'_>],
        constant: &Constant,
    ) -> Result<bool, AllocError>
        requires told { descriptors.now ≡ descriptors_of class.now.pool }
        requires wanted { map wants wanted.now ≡ map (wants_of class.now.pool) (bootstraps_of class.now) }
        ensures { IfOk result (λ told. told ≡ unknown_by CallSite class.now constant.now) }
    {
        match constant {
            Constant::InvokeDynamic {
                bootstrap,
                name_type,
            } => {
                let wanted = at(wanted, usize::from(*bootstrap));
                Ok(!self.has_site(descriptors, &class.pool, wanted, *name_type)?)
            }
            _ => Ok(false),
        }
    }
}

/// Of each constant of a class, in order, whether it is a call site that has no site. The descriptors are those of the
/// class's pool.
#[tactic(auto, unfolding(crate::specs::Flags::unknown_sites))]
pub fn unknown_sites(
    alloc: Global,
    descriptors: &Descriptors,
    class: &Class,
) -> Result<Flags, AllocError>
    requires { descriptors.now ≡ descriptors_of class.now.pool }
    ensures { IfOk result (λ found. found ≡ unknown_sites class.now) }
{
    let wanted = wants_of_all(alloc, descriptors, &class.pool, bootstraps_of(class))?;
    let mut buffers = Buffers {
        given: Vec::new(alloc),
        wanted: Vec::new(alloc),
    };
    let mut found = Items::new(alloc);
    for constant in class.pool.constants.as_slice() {
        found.push(buffers.is_unknown(descriptors, class, wanted.as_slice(), constant)?)?;
    }
    Ok(found)
}
