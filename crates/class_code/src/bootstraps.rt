//! Bootstrap methods that are known (JVMS 4.7.23).

ghost use Rattle.std.specs.Prelude.{◌≡◌, ◌==◌, ◌&&◌, bytes_eq, codes, slice_get, option_copied, option_and_then};
ghost use Rattle.class_model.specs.Constants.{text_at, class_at, constant_at, is_some_that};
ghost use Rattle.class_code.specs.Constants.{descriptor_at, name_at};
ghost use Rattle.class_code.specs.Bootstraps.{Method, table_in, bootstraps_of, bootstrap_at, metafactory, concatenating, names_method, invokes, is_bootstrap_by, arguments_if_known, known_arguments};

use crate::constants::{descriptor_at, name_at};
use class_model::{Attribute, Bootstrap, Bootstraps, Class, Constant, Pool};

fn table_in(attributes: &[Attribute]) -> Option<&Bootstraps>
    ensures { option_copied result ≡ table_in attributes.now }
{
    for attribute in attributes {
        if let Attribute::Bootstrap { entries, .. } = attribute {
            return Some(entries);
        }
    }
    None
}

/// The entries of the class's table of bootstrap methods; none where it has no table.
pub fn bootstraps_of(class: &Class) -> &[Bootstrap]
    ensures { result.now ≡ bootstraps_of class.now }
{
    match table_in(class.attributes.as_slice()) {
        Some(entries) => entries.as_slice(),
        None => &[],
    }
}

/// The bootstrap method of a number of the class's table, if there is one.
#[tactic(auto, unfolding(crate::specs::Bootstraps::bootstrap_at))]
pub fn bootstrap_at(class: &Class, number: u16) -> Option<&Bootstrap>
    ensures { option_copied result ≡ bootstrap_at class.now number }
{
    match table_in(class.attributes.as_slice()) {
        Some(entries) => entries.get(usize::from(number)),
        None => None,
    }
}

fn is_text(wanted: &[u8], found: Option<&[u8]>) -> bool
    ensures { result ≡ is_some_that (bytes_eq wanted.now) (option_copied found.entry) }
{
    match found {
        Some(found) => wanted == found,
        None => false,
    }
}

/// Whether the constant of a number is a Methodref of a method.
fn names_method(pool: &Pool, class_name: &[u8], name: &[u8], descriptor: &[u8], number: u16) -> bool
    ensures { result ≡ is_some_that (names_method pool.now (record { class = class_name.now; name = name.now; descriptor = descriptor.now })) (constant_at pool.now number) }
{
    match pool.constant(number) {
        Some(
            Constant::Ref {
                tag,
                class,
                name_type,
            },
        ) => {
            *tag == 10
                && is_text(class_name, pool.class_name(*class))
                && is_text(name, name_at(pool, *name_type))
                && is_text(descriptor, descriptor_at(pool, *name_type))
        }
        _ => false,
    }
}

/// Whether a bootstrap method is a static method of that class, name and descriptor.
#[tactic(auto, unfolding(crate::specs::Bootstraps::is_bootstrap_by))]
fn is_bootstrap_by(
    pool: &Pool,
    class_name: &[u8],
    name: &[u8],
    descriptor: &[u8],
    bootstrap: &Bootstrap,
) -> bool
    ensures { result ≡ is_bootstrap_by pool.now (record { class = class_name.now; name = name.now; descriptor = descriptor.now }) bootstrap.now }
{
    match pool.constant(bootstrap.handle) {
        Some(Constant::Handle { kind, reference }) => {
            *kind == 6 && names_method(pool, class_name, name, descriptor, *reference)
        }
        _ => false,
    }
}

/// Whether it is `metafactory` of `java/lang/invoke/LambdaMetafactory`.
pub(crate) fn is_metafactory(pool: &Pool, bootstrap: &Bootstrap) -> bool
    ensures { result ≡ is_bootstrap_by pool.now metafactory bootstrap.now }
{
    is_bootstrap_by(
        pool,
        b"java/lang/invoke/LambdaMetafactory",
        b"metafactory",
        b"(Ljava/lang/invoke/MethodHandles$Lookup;Ljava/lang/String;Ljava/lang/invoke/MethodType;Ljava/lang/invoke/MethodType;Ljava/lang/invoke/MethodHandle;Ljava/lang/invoke/MethodType;)Ljava/lang/invoke/CallSite;",
        bootstrap,
    )
}

/// Whether it is `makeConcatWithConstants` of `java/lang/invoke/StringConcatFactory`.
pub(crate) fn is_concatenating(pool: &Pool, bootstrap: &Bootstrap) -> bool
    ensures { result ≡ is_bootstrap_by pool.now concatenating bootstrap.now }
{
    is_bootstrap_by(
        pool,
        b"java/lang/invoke/StringConcatFactory",
        b"makeConcatWithConstants",
        b"(Ljava/lang/invoke/MethodHandles$Lookup;Ljava/lang/String;Ljava/lang/invoke/MethodType;Ljava/lang/String;[Ljava/lang/Object;)Ljava/lang/invoke/CallSite;",
        bootstrap,
    )
}

/// The static arguments of a bootstrap method, where it is one of the two.
pub fn arguments_if_known<'a>(pool: &Pool, bootstrap: &'a Bootstrap) -> &'a [u16]
    ensures { result.now ≡ arguments_if_known pool.now (Some bootstrap.now) }
{
    if is_metafactory(pool, bootstrap) || is_concatenating(pool, bootstrap) {
        bootstrap.arguments.as_slice()
    } else {
        &[]
    }
}

/// The static arguments of a bootstrap method of the class's table, where the method is one of the two.
#[tactic(auto, unfolding(crate::specs::Bootstraps::known_arguments))]
pub fn known_arguments(class: &Class, number: u16) -> &[u16]
    ensures { result.now ≡ known_arguments class.now number }
{
    match bootstrap_at(class, number) {
        Some(bootstrap) => arguments_if_known(&class.pool, bootstrap),
        None => &[],
    }
}
