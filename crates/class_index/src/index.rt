//! The index of a program.

ghost use Rattle.std.specs.Prelude.{◌≡◌, ℕ, ◌≤◌, All, true, List, [], ◌++◌, ◌<◌, ◌^◌, IfOk, IfErr, OnOk, length, map, take, option_map, slice_get};
ghost use Rattle.std.specs.Option.{option_to_list};
ghost use Rattle.class_model.specs.Shape.{Shaped};
ghost use Rattle.jvm_tables.specs.Externals.{externals};
ghost use Rattle.place_graph.specs.Searches.{AreReturning, is_marked};
ghost use Rattle.class_index.specs.Outlines.{outline, outer_outline};
ghost use Rattle.class_index.specs.Hierarchy.{all_of, names, hierarchy};
ghost use Rattle.class_index.specs.Indexed.{IsAll};
ghost use Rattle.class_index.specs.Places.{IsPlaces, place_in};
ghost use Rattle.class_index.specs.Least.{IsLeast};
ghost use Rattle.class_index.specs.Supers.{missing_by, Returns, IsWhole};
ghost use Rattle.class_index.specs.Faults.{IsMissingFault, IsFaultOf};

use crate::fault::{IndexFault, least_marked, least_missing};
use crate::hierarchy::{NamePlaces, copy_of, hierarchy_of, places_of, supers_of};
use crate::outline::{Outline, outer_outline_of, outline_of};
use class_model::{Class, Name, Program};
use jvm_tables::external_at;
use place_graph::{Order, Places, order_of};
use sqlite_items::Items;
use std::alloc::{AllocError, Global};
use std::marker::Model;

/// The outlines of a program's classes, and behind them those of the external classes.
fn all_outlines(alloc: Global, classes: &[Class]) -> Result<Items<Outline>, AllocError>
    requires { All Shaped classes.now }
    ensures { IfOk result (λ all. all ≡ all_of (map outline classes.now)) }
{
    let mut all = Items::new(alloc);
    for class in classes {
        all.push(outline_of(alloc, class)?)?;
    }
    add_external(alloc, &mut all)?;
    Ok(all)
}

/// Adds the outline of the external class of a row, if there is one.
fn add_row(alloc: Global, all: &mut Items<Outline>, row: u32) -> Result<(), AllocError>
    ensures { OnOk result (all.new ≡ all.old ++ option_to_list (option_map outer_outline (slice_get externals row))) }
{
    match external_at(row) {
        Some(row) => all.push(outer_outline_of(alloc, &row)?),
        None => Ok(()),
    }
}

pub(crate) fn add_external(alloc: Global, all: &mut Items<Outline>) -> Result<(), AllocError>
    ensures { OnOk result (all.new ≡ all_of all.old) }
{
    for row in 0..61 {
        add_row(alloc, all, row)?;
    }
    Ok(())
}

/// A program and the external classes, prepared for questions on names, members and supers. The questions take no
/// memory. A look-up by name is logarithmic.
#[derive(Drop)]
pub struct Index {
    pub(crate) all: Items<Outline>,
    /// How many of them are the program's.
    pub(crate) own: usize,
    pub(crate) places: NamePlaces,
    pub(crate) supers: Items<Option<u32>>,
    pub(crate) above: Items<Places>,
}

impl Model for Index {
    ghost use Rattle.std.specs.Prelude.{List, take};
    ghost use Rattle.std.specs.Coded.{coded_list};
    ghost use Rattle.class_index.specs.Places.{place_in};
    ghost use Rattle.class_index.specs.declared.outline.Outline.{Outline};
    ghost use Rattle.class_index.specs.contracts.outline.Outline as outline_type;
    ghost use Rattle.class_index.specs.Indexed.{IsIndex};

    ghost Value = { List Outline };

    ghost coded = { coded_list outline_type.the_row.coded };

    ghost view = { λ i. take i.own i.all };

    ghost invariant = { λ i. IsIndex i.own i.all (place_in i.places) i.supers i.above };
}

/// Refuses a program in which a superclass is missing.
fn refuse_missing(places: &NamePlaces, own: usize, all: &[Outline]) -> Result<(), IndexFault>
    requires { own ≤ length all.now }
    ensures ok { OnOk result (missing_by (place_in places.now) own (take own all.now) ≡ []) }
    ensures err { IfErr result (IsMissingFault (missing_by (place_in places.now) own (take own all.now))) }
{
    let (classes, _) = all.split_at(own);
    match least_missing(places, own, classes) {
        Some(name) => Err(IndexFault::MissingSuper(copy_of(name)?)),
        None => Ok(()),
    }
}

/// The least name of a class to which a chain returns.
fn returning_name(all: &[Outline], marks: &[bool]) -> Result<Name, AllocError>
    requires marks { AreReturning (hierarchy all.now) (length (hierarchy all.now)) marks.now }
    requires some { (place : ℕ) × (is_marked marks.now place ≡ true) }
    ensures { IfOk result (IsLeast (Returns all.now)) }
{
    let least = least_marked(all, marks);
    copy_of(least.unwrap())
}

/// The index of outlines, of which so many are the program's and whose supers are there.
fn closed(
    alloc: Global,
    own: usize,
    all: Items<Outline>,
    places: NamePlaces,
) -> Result<Index, IndexFault>
    requires all { IsAll own all }
    requires few { length all < 2 ^ 32 }
    requires places { IsPlaces 0 (names all) (place_in places) }
    requires supers { missing_by (place_in places) own (take own all) ≡ [] }
    ensures ok { IfOk result (λ index. index ≡ take own all) }
    ensures fault { IfErr result (IsFaultOf (take own all)) }
    ensures whole { OnOk result (IsWhole (take own all)) }
{
    let supers = supers_of(alloc, &places, all.as_slice())?;
    let graph = hierarchy_of(alloc, &places, all.as_slice())?;
    match order_of(alloc, graph.as_slice())? {
        Order::Above(above) => Ok(Index {
            all,
            own,
            places,
            supers,
            above,
        }),
        Order::Returning(marks) => {
            let name = returning_name(all.as_slice(), marks.as_slice())?;
            Err(IndexFault::CyclicSuper(name))
        }
    }
}

pub(crate) fn indexed(alloc: Global, own: usize, all: Items<Outline>) -> Result<Index, IndexFault>
    requires all { IsAll own all }
    requires few { length all < 2 ^ 32 }
    ensures ok { IfOk result (λ index. index ≡ take own all) }
    ensures fault { IfErr result (IsFaultOf (take own all)) }
    ensures whole { OnOk result (IsWhole (take own all)) }
{
    let places = places_of(alloc, all.as_slice())?;
    match refuse_missing(&places, own, all.as_slice()) {
        Err(fault) => Err(fault),
        Ok(()) => closed(alloc, own, all, places),
    }
}

impl Index {
    /// The index of a program. `MissingSuper` comes exactly where a class has a superclass that is neither in the
    /// program nor extensible, and `CyclicSuper` where none is missing and a chain of supers or superinterfaces
    /// returns; each names the least such name. `Memory` comes too where there are 2^32 classes or more.
    pub fn of(alloc: Global, program: &Program) -> Result<Index, IndexFault>
        ensures ok { IfOk result (λ index. index ≡ map outline program.now) }
        ensures fault { IfErr result (IsFaultOf (map outline program.now)) }
        ensures whole { OnOk result (IsWhole (map outline program.now)) }
    {
        let own = program.classes().len();
        let all = all_outlines(alloc, program.classes())?;
        if all.len() > u32::MAX as usize {
            return Err(IndexFault::Memory);
        }
        indexed(alloc, own, all)
    }
}
