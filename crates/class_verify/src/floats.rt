//! Which instructions use floats or doubles (JVMS 6.5, 4.4).

ghost use Rattle.std.specs.Prelude.{◌≡◌, ◌==◌, ◌&&◌, option_copied};
ghost use Rattle.std.specs.List.{list_any};
ghost use Rattle.class_model.specs.Constants.{text_at, constant_at, is_some_that};
ghost use Rattle.class_code.specs.Types.{has_float};
ghost use Rattle.class_code.specs.Constants.{descriptor_at, descriptor_named};
ghost use Rattle.class_code.specs.Descriptors.{descriptors_of};
ghost use Rattle.class_verify.specs.Floats.{is_float_array, reference_has_float, is_float_load, is_float_constant, class_has_float, has_float_arguments, constant_has_float, makes_floats, uses_float};
ghost use Rattle.class_verify.specs.ConstantTables.{has_float_entry, AreTables};

use crate::constant_tables::ConstantTables;
use class_code::{
    Descriptors, Told, arguments_if_known, constant_of, dimensions_of, flag_of, number_of, told_at,
    told_of_named, told_of_type,
};
use class_model::{Bootstrap, Class, Constant, Pool};
use jvm_tables::{ConstantUse, Instr, OpRow, Operation};

fn says_float(told: Option<&Told>) -> bool
    ensures { result ≡ is_some_that (λ t. t.has_float) (option_copied told.entry) }
{
    match told {
        Some(told) => told.has_float,
        None => false,
    }
}

#[tactic(auto, using(crate::proofs::FloatTables::float_told))]
fn text_has_float(descriptors: &Descriptors, pool: &Pool, descriptor: u16) -> bool
    requires { descriptors.now ≡ descriptors_of pool.now }
    ensures { result ≡ is_some_that has_float (text_at pool.now descriptor) }
{
    says_float(told_at(descriptors, pool, descriptor))
}

/// An array of floats or doubles has its descriptor as name; in the name of any other class letters are no types.
fn text_is_float_array(descriptors: &Descriptors, pool: &Pool, name: u16) -> bool
    requires { descriptors.now ≡ descriptors_of pool.now }
    ensures { result ≡ is_some_that is_float_array (text_at pool.now name) }
{
    match pool.text(name) {
        Some(text) => dimensions_of(text) > 0 && text_has_float(descriptors, pool, name),
        None => false,
    }
}

#[tactic(auto, using(crate::proofs::FloatTables::float_told))]
fn reference_has_float(descriptors: &Descriptors, pool: &Pool, reference: u16) -> bool
    requires { descriptors.now ≡ descriptors_of pool.now }
    ensures { result ≡ is_some_that (reference_has_float pool.now) (constant_at pool.now reference) }
{
    match pool.constant(reference) {
        Some(Constant::Ref { name_type, .. }) => {
            says_float(told_of_type(descriptors, pool, *name_type))
        }
        _ => false,
    }
}

/// Whether a constant that is loaded, by an instruction or as a static argument of a call site, is a float or has one
/// in its descriptor.
fn is_float_load(descriptors: &Descriptors, pool: &Pool, constant: &Constant) -> bool
    requires { descriptors.now ≡ descriptors_of pool.now }
    ensures { result ≡ is_float_load pool.now constant.now }
{
    match constant {
        Constant::Float(_) | Constant::Double(_) => true,
        Constant::Class(name) => text_is_float_array(descriptors, pool, *name),
        Constant::Handle { reference, .. } => reference_has_float(descriptors, pool, *reference),
        Constant::MethodType(descriptor) => text_has_float(descriptors, pool, *descriptor),
        _ => false,
    }
}

fn is_float_constant(constant: &Constant) -> bool
    ensures { result ≡ is_float_constant constant.now }
{
    matches!(constant, Constant::Float(_) | Constant::Double(_))
}

fn class_has_float(descriptors: &Descriptors, pool: &Pool, constant: &Constant) -> bool
    requires { descriptors.now ≡ descriptors_of pool.now }
    ensures { result ≡ class_has_float pool.now constant.now }
{
    match constant {
        Constant::Class(name) => text_is_float_array(descriptors, pool, *name),
        _ => false,
    }
}

fn loads_float(descriptors: &Descriptors, pool: &Pool, number: u16) -> bool
    requires { descriptors.now ≡ descriptors_of pool.now }
    ensures { result ≡ is_some_that (is_float_load pool.now) (constant_at pool.now number) }
{
    match pool.constant(number) {
        Some(constant) => is_float_load(descriptors, pool, constant),
        None => false,
    }
}

fn any_loads_float(descriptors: &Descriptors, pool: &Pool, numbers: &[u16]) -> bool
    requires { descriptors.now ≡ descriptors_of pool.now }
    ensures { result ≡ list_any (λ n. is_some_that (is_float_load pool.now) (constant_at pool.now n)) numbers.now }
{
    for number in numbers {
        if loads_float(descriptors, pool, *number) {
            return true;
        }
    }
    false
}

/// Whether a bootstrap method that is known has a float among its static arguments.
pub(crate) fn has_float_entry(descriptors: &Descriptors, pool: &Pool, bootstrap: &Bootstrap) -> bool
    requires { descriptors.now ≡ descriptors_of pool.now }
    ensures { result ≡ has_float_entry pool.now bootstrap.now }
{
    any_loads_float(descriptors, pool, arguments_if_known(pool, bootstrap))
}

#[tactic(auto, using(crate::proofs::FloatTables::float_told))]
fn named_has_float(
    descriptors: &Descriptors,
    named: ConstantUse,
    pool: &Pool,
    constant: &Constant,
) -> bool
    requires { descriptors.now ≡ descriptors_of pool.now }
    ensures { result ≡ is_some_that has_float (descriptor_named named pool.now constant.now) }
{
    says_float(told_of_named(descriptors, named, pool, constant))
}

fn constant_has_float(
    descriptors: &Descriptors,
    named: ConstantUse,
    class: &Class,
    constant: &Constant,
    arguments: bool,
) -> bool
    requires told { descriptors.now ≡ descriptors_of class.now.pool }
    requires arguments { arguments ≡ has_float_arguments class.now constant.now }
    ensures { result ≡ constant_has_float named class.now constant.now }
{
    match named {
        ConstantUse::Nothing => false,
        ConstantUse::Loadable => is_float_load(descriptors, &class.pool, constant),
        ConstantUse::LoadableLong => is_float_constant(constant),
        ConstantUse::Class => class_has_float(descriptors, &class.pool, constant),
        ConstantUse::CallSite => {
            named_has_float(descriptors, ConstantUse::CallSite, &class.pool, constant) || arguments
        }
        _ => named_has_float(descriptors, named, &class.pool, constant),
    }
}

fn makes_floats(operation: Operation, code: usize) -> bool
    ensures { result ≡ makes_floats operation code }
{
    match operation {
        Operation::NewArray => code == 6 || code == 7,
        _ => false,
    }
}

/// Whether an instruction uses floats or doubles: by its opcode, as elements of an array, as a constant that it loads,
/// or in a descriptor that it uses. The descriptors are those of the field, the method or the call site that it names,
/// of a method type or a method handle that it loads, and of an array class that it names, but not as the owner of a
/// member. The static arguments of a call site count where its bootstrap method is one that is known.
#[tactic(auto, using(crate::proofs::FloatTables::arguments_flagged), unfolding(crate::specs::Floats::uses_float))]
pub fn uses_float(tables: &ConstantTables, class: &Class, row: &OpRow, instr: &Instr) -> bool
    requires { AreTables class.now tables.now }
    ensures { result ≡ uses_float class.now row.now instr.now }
{
    if row.is_float {
        return true;
    }
    if makes_floats(row.operation, number_of(instr.first)) {
        return true;
    }
    match constant_of(class, instr) {
        Some(constant) => {
            let arguments = flag_of(&tables.float_arguments, instr);
            constant_has_float(
                &tables.descriptors,
                row.constant,
                class,
                constant,
                arguments,
            )
        }
        None => false,
    }
}
