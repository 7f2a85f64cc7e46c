//! Programs.

ghost use Rattle.std.specs.Prelude.{◌≡◌, ◌+◌, ◌<◌, ◌≤◌, ◌^◌, All, IfOk, IfSome, IfNone, IsOkUnless, IfErr, OnOk, length, option_copied};
ghost use Rattle.std.specs.BTreeMap.{get};
ghost use Rattle.std.specs.Cmp.Lexicographic.{slice_cmp};
ghost use Rattle.std.specs.Ordering.{nat_cmp};
ghost use Rattle.class_model.specs.Shape.{Shaped, class_name};
ghost use Rattle.class_model.specs.Programs.{HasDistinctNames, IsLeastDouble, IsIndexOf, LeastAmong, IsLesser, IsProgram, find_class};
ghost use Rattle.class_model.specs.declared.program_list.ProgramFault.TheVariants as program_fault;

use crate::class_file::Class;
use crate::name_text::Name;
use sqlite_items::at;
use std::alloc::{AllocError, AllocFailed, Global};
use std::cmp::Ordering;
use std::collections::BTreeMap;
use std::marker::Model;
use thiserror::Error;

/// A list of classes with distinct names, in the order in which they were given. A look-up by name is logarithmic.
#[derive(Drop)]
pub struct Program {
    classes: Vec<Class>,
    places: BTreeMap<Name, usize>,
}

impl Model for Program {
    ghost use Rattle.std.specs.Prelude.{List, length};
    ghost use Rattle.std.specs.Coded.{coded_list};
    ghost use Rattle.std.specs.BTreeMap.{get};
    ghost use Rattle.std.specs.Cmp.Lexicographic.{slice_cmp};
    ghost use Rattle.std.specs.Ordering.{nat_cmp};
    ghost use Rattle.class_model.specs.declared.class_file.Class.{Class};
    ghost use Rattle.class_model.specs.contracts.class_file.Class as class_type;
    ghost use Rattle.class_model.specs.Programs.{IsProgram, IsIndexOf};

    ghost Value = { List Class };

    ghost coded = { coded_list class_type.the_row.coded };

    ghost view = { λ p. p.classes.items };

    ghost invariant = { λ p. IsProgram p.classes.items
        × IsIndexOf p.classes.items (length p.classes.items) (get (slice_cmp nat_cmp) p.places) };
}

/// Why classes are no program.
#[derive(Debug, Drop, Error)]
pub enum ProgramFault {
    /// Two classes have this name, and no two a lesser one.
    #[error("a class comes twice")]
    DuplicateClass(Name),
    #[error("out of memory")]
    Memory,
}

impl From<AllocError> for ProgramFault {
    ghost from_gives = { λ _ e. e ≡ program_fault.Memory };

    fn from(_e: AllocError) -> ProgramFault {
        ProgramFault::Memory
    }
}

impl<T: Drop> From<AllocFailed<T>> for ProgramFault {
    ghost from_gives = { λ _ e. e ≡ program_fault.Memory };

    fn from(_e: AllocFailed<T>) -> ProgramFault {
        ProgramFault::Memory
    }
}

fn name_of(alloc: Global, class: &Class) -> Result<Name, AllocError>
    requires { Shaped class.now }
    ensures { IfOk result (λ name. name ≡ class_name class.now) }
{
    Name::of_valid(alloc, class.name())
}

/// Of two places the one with the lesser name.
fn lesser(classes: &[Class], one: usize, other: usize) -> usize
    requires one { one < length classes.now }
    requires other { other < length classes.now }
    ensures { IsLesser classes.now one other result }
{
    match classes[one].name().cmp(classes[other].name()) {
        Ordering::Greater => other,
        _ => one,
    }
}

/// Enters the class at a place, and gives the place of the least double up to there.
fn enter(
    alloc: Global,
    classes: &[Class],
    places: &mut BTreeMap<Name, usize>,
    least: Option<usize>,
    at: usize,
) -> Result<Option<usize>, ProgramFault>
    requires at { at < length classes.now }
    requires shaped { All Shaped classes.now }
    requires index { IsIndexOf classes.now at (get (slice_cmp nat_cmp) places.old) }
    requires least { LeastAmong classes.now at least }
    ensures memory { IsOkUnless result ProgramFault.Memory }
    ensures index { OnOk result (IsIndexOf classes.now (at + 1) (get (slice_cmp nat_cmp) places.new)) }
    ensures least { IfOk result (λ least. LeastAmong classes.now (at + 1) least) }
{
    let name = name_of(alloc, &classes[at])?;
    if places.insert(name, at)?.is_none() {
        return Ok(least);
    }
    match least {
        None => Ok(Some(at)),
        Some(place) => Ok(Some(lesser(classes, place, at))),
    }
}

impl Program {
    ghost use Rattle.class_model.specs.ProgramFaults.{IsFaultOf};

    /// The program of these classes. `DuplicateClass` comes exactly where two classes have one name, unless memory
    /// runs out, and names the least such name.
    pub fn of(alloc: Global, classes: Vec<Class>) -> Result<Program, ProgramFault>
        requires { All Shaped classes.items }
        ensures ok { IfOk result (λ program. program ≡ classes.items) }
        ensures distinct { OnOk result (HasDistinctNames classes.items) }
        ensures only { HasDistinctNames classes.items → IsOkUnless result ProgramFault.Memory }
        ensures double { IfErr result (λ fault. IsFaultOf classes.items fault) }
    {
        let mut places = BTreeMap::new(alloc);
        let mut least = None;
        for at in 0..classes.len() {
            least = enter(alloc, &classes, &mut places, least, at)?;
        }
        match least {
            None => Ok(Program { classes, places }),
            Some(at) => Err(ProgramFault::DuplicateClass(name_of(alloc, &classes[at])?)),
        }
    }

    /// Its classes, in the order in which they were given.
    pub fn classes(&self) -> &[Class]
        ensures value { result.now ≡ self.now }
        ensures program { IsProgram self.now }
    {
        self.classes.as_slice()
    }

    /// The class of a name.
    pub fn class(&self, name: &Name) -> Option<&Class>
        ensures { option_copied result ≡ find_class name.now self.now }
    {
        let place = self.places.get(name)?;
        at(self.classes.as_slice(), *place)
    }
}
