//! What the constants of a class say, read once for all its methods.

ghost use Rattle.std.specs.Prelude.{◌≡◌, false, map, IfOk, unwrap_or, option_copied};
ghost use Rattle.class_code.specs.Bootstraps.{bootstraps_of};
ghost use Rattle.class_code.specs.Descriptors.{descriptors_of};
ghost use Rattle.class_code.specs.Flags.{unknown_sites};
ghost use Rattle.class_verify.specs.ConstantTables.{has_float_entry, float_arguments, AreTables};
ghost use Rattle.class_verify.specs.Floats.{has_float_arguments};

use crate::floats::has_float_entry;
use class_code::{Descriptors, Flags, bootstraps_of, descriptors_of, unknown_sites};
use class_model::{Bootstrap, Class, Constant, Pool};
use sqlite_items::{Items, at};
use std::alloc::{AllocError, Global};

/// What the constants of a class say: its texts as descriptors, and of each call site whether it has no site and whether
/// it has floats among its static arguments.
#[derive(Debug, Drop)]
pub struct ConstantTables {
    pub descriptors: Descriptors,
    pub unknown_sites: Flags,
    pub float_arguments: Flags,
}

fn float_entries(
    alloc: Global,
    descriptors: &Descriptors,
    pool: &Pool,
    entries: &[Bootstrap],
) -> Result<Vec<bool>, AllocError>
    requires { descriptors.now ≡ descriptors_of pool.now }
    ensures { IfOk result (λ found. found.items ≡ map (has_float_entry pool.now) entries.now) }
{
    let mut found = Vec::new(alloc);
    for entry in entries {
        found.push(has_float_entry(descriptors, pool, entry))?;
    }
    Ok(found)
}

fn or_false(flag: Option<&bool>) -> bool
    ensures { result ≡ unwrap_or (option_copied flag.entry) false }
{
    match flag {
        Some(flag) => *flag,
        None => false,
    }
}

/// Whether a constant is a call site with floats among its static arguments, given the answers for the entries of the
/// table of bootstrap methods.
#[tactic(auto, using(crate::proofs::FloatTables::entry_flagged))]
fn has_float_arguments(entries: &[bool], _class: &Class, constant: &Constant) -> bool
    requires { entries.now ≡ map (has_float_entry _class.now.pool) (bootstraps_of _class.now) }
    ensures { result ≡ has_float_arguments _class.now constant.now }
{
    match constant {
        Constant::InvokeDynamic { bootstrap, .. } => or_false(at(entries, usize::from(*bootstrap))),
        _ => false,
    }
}

#[tactic(auto, unfolding(crate::specs::ConstantTables::float_arguments))]
fn float_arguments(
    alloc: Global,
    descriptors: &Descriptors,
    class: &Class,
) -> Result<Flags, AllocError>
    requires { descriptors.now ≡ descriptors_of class.now.pool }
    ensures { IfOk result (λ found. found ≡ float_arguments class.now) }
{
    let entries = float_entries(alloc, descriptors, &class.pool, bootstraps_of(class))?;
    let mut found = Items::new(alloc);
    for constant in class.pool.constants.as_slice() {
        found.push(has_float_arguments(entries.as_slice(), class, constant))?;
    }
    Ok(found)
}

/// Reads the constants of a class.
pub fn tables_of(alloc: Global, class: &Class) -> Result<ConstantTables, AllocError>
    ensures { IfOk result (AreTables class.now) }
{
    let descriptors = descriptors_of(alloc, &class.pool)?;
    let unknown_sites = unknown_sites(alloc, &descriptors, class)?;
    let float_arguments = float_arguments(alloc, &descriptors, class)?;
    Ok(ConstantTables {
        descriptors,
        unknown_sites,
        float_arguments,
    })
}
