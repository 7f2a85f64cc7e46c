//! What is answered where an object is made or made larger.

ghost use Rattle.std.specs.Prelude.{◌≡◌};
ghost use Rattle.jvm_heap.specs.Objects.{array, text, listed, iterator, path_reference};
ghost use Rattle.jvm_heap.specs.Contents.{kind_of};
ghost use Rattle.jvm_heap.specs.Heaps.{allocated};
ghost use Rattle.jvm_heap.specs.Changes.{Makes};
ghost use Rattle.native_model.specs.Ends.{end_of_making, end_of_growing, end_of_putting};

use crate::budget::Budget;
use crate::fault::StepFault;
use crate::native_end::NativeEnd;
use class_model::ClassId;
use jvm_heap::{ArrayKind, Content, Heap, HeapFault, Object, PathReference, Slot, Slots, Units};
use sqlite_items::{Boxed, Items};
use std::alloc::AllocError;

pub(crate) fn end_of_making(made: Result<u32, HeapFault>) -> Result<NativeEnd, StepFault>
    ensures { result ≡ end_of_making made }
{
    match made {
        Ok(number) => Ok(NativeEnd::Gives(Some(Slot::Ref(number)))),
        Err(HeapFault::Full) => Ok(NativeEnd::Spends(Budget::Cells)),
        Err(HeapFault::Memory) => Err(StepFault::Memory),
    }
}

pub(crate) fn end_of_growing(
    slot: Option<Slot>,
    grown: Result<(), HeapFault>,
) -> Result<NativeEnd, StepFault>
    ensures { result ≡ end_of_growing slot grown }
{
    match grown {
        Ok(()) => Ok(NativeEnd::Gives(slot)),
        Err(HeapFault::Full) => Ok(NativeEnd::Spends(Budget::Cells)),
        Err(HeapFault::Memory) => Err(StepFault::Memory),
    }
}

/// What is answered where a file or a line is put; false where the bytes don't suffice.
pub(crate) fn end_of_putting(
    put: Result<bool, AllocError>,
    budget: Budget,
) -> Result<NativeEnd, StepFault>
    ensures { result ≡ end_of_putting budget put }
{
    match put {
        Ok(true) => Ok(NativeEnd::Gives(None)),
        Ok(false) => Ok(NativeEnd::Spends(budget)),
        Err(_) => Err(StepFault::Memory),
    }
}

pub(crate) fn put_text(heap: &mut Heap, units: Units) -> Result<u32, HeapFault>
    ensures { Makes (allocated (text units) heap.old) result heap.old heap.new }
{
    heap.allocate(Object::of(Content::Text { units }))
}

pub(crate) fn put_list(
    heap: &mut Heap,
    class: ClassId,
    elements: Vec<u32>,
) -> Result<u32, HeapFault>
    ensures { Makes (allocated (listed class elements.items) heap.old) result heap.old heap.new }
{
    let elements = Items::from_vec(elements);
    heap.allocate(Object::of(Content::Listed { class, elements }))
}

pub(crate) fn put_iterator(heap: &mut Heap, list: u32) -> Result<u32, HeapFault>
    ensures { Makes (allocated (iterator list 0) heap.old) result heap.old heap.new }
{
    heap.allocate(Object::of(Content::Iterator { list, next: 0 }))
}

pub(crate) fn put_reference(
    heap: &mut Heap,
    reference: Boxed<PathReference>,
) -> Result<u32, HeapFault>
    ensures { Makes (allocated (path_reference reference.owner reference.path) heap.old)
        result heap.old heap.new }
{
    heap.allocate(Object::of(Content::PathReference { reference }))
}

pub(crate) fn put_array(heap: &mut Heap, kind: ArrayKind, elements: Slots) -> Result<u32, HeapFault>
    ensures { Makes (allocated (array (kind_of kind) elements) heap.old) result heap.old heap.new }
{
    heap.allocate(Object::of(Content::Array { kind, elements }))
}
