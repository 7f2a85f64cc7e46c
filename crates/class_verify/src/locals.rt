//! Locals.

ghost use Rattle.std.specs.Prelude.{◌≡◌, ◌++◌, ◌∷◌, ◌<◌, ◌^◌, [], None, Some, length, slice_get, slice_set, IfOk, MatchBool, OnOk};
ghost use Rattle.class_verify.specs.Kinds.{all_fit};
ghost use Rattle.class_verify.specs.Frames.{slots_of};
ghost use Rattle.class_verify.specs.Padding.{padded, kind_written, long_written};
ghost use Rattle.class_verify.specs.Locals.{is_some_kind, holds, without_long_before, with_kind, with_long, stored};

use crate::kinds::Kind;
use crate::shared_kinds::SharedKinds;
use class_model::FrameType;
use jvm_tables::ValueKind;
use std::alloc::{AllocError, Global};
use std::marker::Model;

/// The kinds of locals, from 0 on. Only the first are kept: those behind them are Top.
#[derive(Debug, Drop)]
pub struct Locals {
    slots: SharedKinds,
    most: usize,
}

impl Model for Locals {
    ghost use Rattle.std.specs.Prelude.{List};
    ghost use Rattle.std.specs.Coded.{coded_list};
    ghost use Rattle.class_verify.specs.declared.kinds.Kind.{Kind};
    ghost use Rattle.class_verify.specs.contracts.kinds.Kind as kind_type;
    ghost use Rattle.class_verify.specs.Padding.{padded};

    ghost Value = { List Kind };

    ghost coded = { coded_list kind_type.the_row.coded };

    ghost view = { λ s. padded s.most s.slots };
}

fn is_at(locals: &SharedKinds, place: usize, wanted: Kind) -> bool
    ensures { result ≡ is_some_kind wanted (slice_get locals.now place) }
{
    match locals.get(place) {
        Some(kind) => kind.is(wanted),
        None => false,
    }
}

/// Adds the slots of a type.
pub(crate) fn push_type(slots: &mut SharedKinds, t: FrameType) -> Result<(), AllocError>
    ensures { OnOk result (slots.new ≡ slots.old ++ slots_of t) }
{
    if t.tag == 0 {
        return slots.push(Kind::Top);
    }
    if t.tag == 1 {
        return slots.push(Kind::Int);
    }
    if t.tag == 4 {
        slots.push(Kind::Long)?;
        return slots.push(Kind::Top);
    }
    slots.push(Kind::Reference)
}

/// Adds Top up to a number of slots.
#[tactic(auto, using(crate::proofs::Slots::pad_end))]
fn pad(slots: &mut SharedKinds, count: usize) -> Result<(), AllocError>
    ensures { OnOk result (slots.new ≡ padded count slots.old) }
{
    while slots.len() < count {
        slots.push(Kind::Top)?;
    }
    Ok(())
}

/// Ends a long whose second slot is at a place.
fn end_long_before(slots: &mut SharedKinds, place: usize) -> Result<(), AllocError>
    requires { place < length slots.old }
    ensures { OnOk result (slots.new ≡ without_long_before place slots.old) }
{
    if place == 0 {
        return Ok(());
    }
    let before = place - 1;
    if is_at(slots, before, Kind::Long) {
        slots.set(before, Kind::Top)?;
    }
    Ok(())
}

/// Writes a slot, behind which there may be more than are kept.
#[tactic(auto, unfolding(crate::specs::Padding::kind_written), using(crate::proofs::Padding::within_written_out, crate::proofs::Padding::within_padded))]
fn write_kind(slots: &mut SharedKinds, place: usize, kind: Kind) -> Result<(), AllocError>
    requires { place < 2 ^ 32 }
    ensures { OnOk result (slots.new ≡ kind_written kind place slots.old) }
{
    pad(slots, place + 1)?;
    end_long_before(slots, place)?;
    slots.set(place, kind)
}

/// Writes a long, behind which there may be more than are kept.
#[tactic(auto, unfolding(crate::specs::Padding::long_written), using(crate::proofs::Padding::within_long, crate::proofs::Padding::within_written_out, crate::proofs::Padding::within_padded))]
fn write_long(slots: &mut SharedKinds, place: usize) -> Result<(), AllocError>
    requires { place < 2 ^ 32 }
    ensures { OnOk result (slots.new ≡ long_written place slots.old) }
{
    pad(slots, place + 2)?;
    end_long_before(slots, place)?;
    slots.set(place, Kind::Long)?;
    slots.set(place + 1, Kind::Top)
}

impl Locals {
    pub fn new(alloc: Global) -> Locals
        ensures { result ≡ [] }
    {
        Locals::padded(SharedKinds::of(Vec::new(alloc)), 0)
    }

    /// So many locals, the first of which have these kinds, and the others are Top.
    pub(crate) fn padded(slots: SharedKinds, most: usize) -> Locals
        ensures { result ≡ padded most slots }
    {
        Locals { slots, most }
    }

    #[tactic(auto, using(crate::proofs::Padding::length_padded))]
    pub fn len(&self) -> usize
        ensures { result ≡ length self.now }
    {
        self.slots.len().max(self.most)
    }

    /// Makes them equal to others.
    pub(crate) fn copy_from(&mut self, other: &Locals) -> Result<(), AllocError>
        ensures { OnOk result (self.new ≡ other.now) }
    {
        self.most = other.most;
        self.slots.copy_from(&other.slots)
    }

    #[tactic(auto, using(crate::proofs::Fitting::fit_lengths, crate::proofs::Sharing::padded_fits))]
    pub(crate) fn fits(&self, wanted: &Locals) -> bool
        ensures { result ≡ all_fit self.now wanted.now }
    {
        if self.len() != wanted.len() {
            return false;
        }
        self.slots.kept_fit(&wanted.slots)
    }

    /// Makes a slot Top where others have another kind.
    fn weaken(&mut self, place: usize, others: &Locals) -> Result<(), AllocError> {
        if place >= self.slots.len() {
            return Ok(());
        }
        let Some(kind) = self.slots.get(place) else {
            return Ok(());
        };
        if is_at(&others.slots, place, kind) {
            return Ok(());
        }
        self.slots.set(place, Kind::Top)
    }

    /// Makes of the slots that a write to a local may have changed those Top where others have another kind.
    pub(crate) fn weaken_at(&mut self, place: usize, others: &Locals) -> Result<(), AllocError> {
        self.weaken(place.saturating_sub(1), others)?;
        self.weaken(place, others)?;
        self.weaken(place.saturating_add(1), others)
    }

    /// Whether a value of a kind begins at a local.
    #[tactic(auto, using(crate::proofs::Padding::is_int_padded, crate::proofs::Padding::is_long_padded, crate::proofs::Padding::is_reference_padded))]
    pub(crate) fn holds(&self, place: usize, kind: ValueKind) -> bool
        ensures { result ≡ holds kind place self.now }
    {
        let locals = &self.slots;
        match kind {
            ValueKind::Int => is_at(locals, place, Kind::Int),
            ValueKind::Long => is_at(locals, place, Kind::Long),
            ValueKind::Reference => is_at(locals, place, Kind::Reference),
        }
    }

    #[tactic(auto, using(crate::proofs::Padding::kind_stored))]
    fn store_kind(&mut self, place: usize, kind: Kind) -> Result<bool, AllocError>
        requires { place < 2 ^ 32 }
        ensures { IfOk result (λ is_there. MatchBool is_there
            (with_kind kind place self.old ≡ Some self.new) (with_kind kind place self.old ≡ None)) }
    {
        if place >= self.len() {
            return Ok(false);
        }
        write_kind(&mut self.slots, place, kind)?;
        Ok(true)
    }

    #[tactic(auto, using(crate::proofs::Padding::long_stored))]
    fn store_long(&mut self, place: usize) -> Result<bool, AllocError>
        requires { place < 2 ^ 32 }
        ensures { IfOk result (λ is_there. MatchBool is_there
            (with_long place self.old ≡ Some self.new) (with_long place self.old ≡ None)) }
    {
        if place + 1 >= self.len() {
            return Ok(false);
        }
        write_long(&mut self.slots, place)?;
        Ok(true)
    }

    /// Stores a value of a kind, if there is room for it at a local.
    pub(crate) fn store(&mut self, place: usize, kind: ValueKind) -> Result<bool, AllocError>
        requires { place < 2 ^ 32 }
        ensures { IfOk result (λ is_there. MatchBool is_there
            (stored kind place self.old ≡ Some self.new) (stored kind place self.old ≡ None)) }
    {
        match kind {
            ValueKind::Int => self.store_kind(place, Kind::Int),
            ValueKind::Long => self.store_long(place),
            ValueKind::Reference => self.store_kind(place, Kind::Reference),
        }
    }
}
