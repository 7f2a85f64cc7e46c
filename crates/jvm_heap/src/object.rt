//! Objects.

ghost use Rattle.std.specs.Prelude.{◌≡◌, ◌<◌, ◌+◌, Some, IsSome, OnOk, OnErr, length, slice_set};
ghost use Rattle.jvm_heap.specs.Objects.{cells_of};
ghost use Rattle.jvm_heap.specs.Heaps.{slots_of, with_slots};
ghost use Rattle.jvm_heap.specs.Contents.{shown};
ghost use Rattle.jvm_heap.specs.Changes.{with_last, with_units, with_element, with_next, with_message, with_name};

use crate::content::Content;
use crate::slot::Slot;
use std::alloc::AllocError;
use std::marker::Model;

/// An object of the heap (JVMS 2.7).
#[derive(Drop)]
pub struct Object {
    content: Content,
}

impl Model for Object {
    ghost use Rattle.class_model.specs.declared.identifiers.ClassId.{ClassId};
    ghost use Rattle.class_model.specs.declared.identifiers.SiteId.{SiteId};
    ghost use Rattle.jvm_heap.specs.Objects as objects;
    ghost use Rattle.jvm_heap.specs.Contents.{shown};

    ghost Value = { objects.Object ClassId SiteId };

    ghost view = { λ o. shown o.content };
}

impl Object {
    pub fn of(content: Content) -> Object
        ensures { result ≡ shown content }
    {
        Object { content }
    }

    pub fn content(&self) -> &Content
        ensures { shown result.now ≡ self.now }
    {
        &self.content
    }

    /// What it costs in cells.
    pub fn cells(&self) -> u64
        ensures { result ≡ cells_of self.now }
    {
        match &self.content {
            Content::Plain { fields, .. } => 1 + fields.len() as u64,
            Content::Throwable { fields, .. } => 3 + fields.len() as u64,
            Content::Enumerated { fields, .. } => 3 + fields.len() as u64,
            Content::Array { elements, .. } => 1 + elements.len() as u64,
            Content::Text { units } => 1 + units.len() as u64,
            Content::BoxedInt { .. } => 2,
            Content::BoxedLong { .. } => 2,
            Content::BoxedBoolean { .. } => 2,
            Content::Listed { elements, .. } => 1 + elements.as_slice().len() as u64,
            Content::Builder { units } => 1 + units.len() as u64,
            Content::Iterator { .. } => 3,
            Content::PathReference { .. } => 1,
            Content::Lambda { captured, .. } => 1 + captured.len() as u64,
        }
    }

    /// Its fields, elements or captured values; none of other objects.
    pub fn slots(&self) -> &[Slot]
        ensures { result.now ≡ slots_of self.now }
    {
        match &self.content {
            Content::Plain { fields, .. } => fields.as_slice(),
            Content::Throwable { fields, .. } => fields.as_slice(),
            Content::Enumerated { fields, .. } => fields.as_slice(),
            Content::Array { elements, .. } => elements.as_slice(),
            Content::Lambda { captured, .. } => captured.as_slice(),
            _ => &[],
        }
    }

    pub(crate) fn set_slot(&mut self, place: usize, slot: Slot)
        requires { place < length (slots_of self.old) }
        ensures { self.new ≡ with_slots self.old (slice_set (slots_of self.old) place slot) }
    {
        match &mut self.content {
            Content::Plain { fields, .. } => fields.set(place, slot),
            Content::Throwable { fields, .. } => fields.set(place, slot),
            Content::Enumerated { fields, .. } => fields.set(place, slot),
            Content::Array { elements, .. } => elements.set(place, slot),
            Content::Lambda { captured, .. } => captured.set(place, slot),
            _ => {}
        }
    }

    /// Puts an element at the end of a list.
    pub(crate) fn add(&mut self, element: u32) -> Result<(), AllocError>
        requires { IsSome (with_last element self.old) }
        ensures ok { OnOk result (with_last element self.old ≡ Some self.new) }
        ensures cells { OnOk result (cells_of self.new ≡ cells_of self.old + 1) }
        ensures err { OnErr result (self.new ≡ self.old) }
    {
        match &mut self.content {
            Content::Listed { elements, .. } => elements.push(element),
            _ => Ok(()),
        }
    }

    /// Puts units behind those of a builder.
    pub(crate) fn append(&mut self, units: &[u16]) -> Result<(), AllocError>
        requires { IsSome (with_units units.now self.old) }
        ensures ok { OnOk result (with_units units.now self.old ≡ Some self.new) }
        ensures cells { OnOk result (cells_of self.new ≡ cells_of self.old + length units.now) }
        ensures err { OnErr result (self.new ≡ self.old) }
    {
        match &mut self.content {
            Content::Builder { units: built } => built.append(units),
            _ => Ok(()),
        }
    }

    pub(crate) fn set_element(&mut self, place: usize, element: u32)
        requires { IsSome (with_element place element self.old) }
        ensures changed { with_element place element self.old ≡ Some self.new }
        ensures cells { cells_of self.new ≡ cells_of self.old }
    {
        match &mut self.content {
            Content::Listed { elements, .. } => elements.set(place, element),
            _ => {}
        }
    }

    pub(crate) fn set_next(&mut self, place: u32)
        requires { IsSome (with_next place self.old) }
        ensures changed { with_next place self.old ≡ Some self.new }
        ensures cells { cells_of self.new ≡ cells_of self.old }
    {
        match &mut self.content {
            Content::Iterator { next, .. } => *next = place,
            _ => {}
        }
    }

    pub(crate) fn set_message(&mut self, text: u32, reason: u32)
        requires { IsSome (with_message text reason self.old) }
        ensures changed { with_message text reason self.old ≡ Some self.new }
        ensures cells { cells_of self.new ≡ cells_of self.old }
    {
        match &mut self.content {
            Content::Throwable { message, cause, .. } => {
                *message = text;
                *cause = reason;
            }
            _ => {}
        }
    }

    pub(crate) fn set_name(&mut self, text: u32, number: i32)
        requires { IsSome (with_name text number self.old) }
        ensures changed { with_name text number self.old ≡ Some self.new }
        ensures cells { cells_of self.new ≡ cells_of self.old }
    {
        match &mut self.content {
            Content::Enumerated { name, .. } => *name = text,
            _ => {}
        }
        match &mut self.content {
            Content::Enumerated { ordinal, .. } => *ordinal = number,
            _ => {}
        }
    }
}
