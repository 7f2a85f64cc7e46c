//! Making objects.

ghost use Rattle.std.specs.Prelude.{◌≡◌};
ghost use Rattle.jvm_heap.specs.Objects.{plain, text};
ghost use Rattle.jvm_heap.specs.Heaps.{allocated, fresh_array};
ghost use Rattle.jvm_heap.specs.Contents.{kind_of};
ghost use Rattle.jvm_heap.specs.Changes.{Makes};

use crate::array_kind::ArrayKind;
use crate::content::Content;
use crate::fault::HeapFault;
use crate::heap::Heap;
use crate::object::Object;
use crate::slot::Slot;
use crate::slots::Slots;
use crate::units::Units;
use class_model::ClassId;

impl Heap {
    /// An object of a class, with the default values of its fields.
    #[tactic(auto, unfolding(crate::specs::Heaps::allocated))]
    pub fn alloc_object(&mut self, class: ClassId, fields: &[Slot]) -> Result<u32, HeapFault>
        ensures { Makes (allocated (plain class fields.now) self.old) result self.old self.new }
    {
        if !self.has_room(1 + fields.len() as u64) {
            return Err(HeapFault::Full);
        }
        let fields = Slots::from_slice(self.allocator(), fields)?;
        self.allocate(Object::of(Content::Plain { class, fields }))
    }

    /// An array of so many elements, each with the default value.
    #[tactic(auto, unfolding(crate::specs::Heaps::allocated))]
    pub fn alloc_array(&mut self, kind: ArrayKind, length: u32) -> Result<u32, HeapFault>
        ensures { Makes (allocated (fresh_array (kind_of kind) length) self.old)
            result self.old self.new }
    {
        if !self.has_room(1 + u64::from(length)) {
            return Err(HeapFault::Full);
        }
        let elements = Slots::repeated(self.allocator(), kind.zero(), length as usize)?;
        self.allocate(Object::of(Content::Array { kind, elements }))
    }

    /// A text.
    #[tactic(auto, unfolding(crate::specs::Heaps::allocated))]
    pub fn text(&mut self, units: &[u16]) -> Result<u32, HeapFault>
        ensures { Makes (allocated (text units.now) self.old) result self.old self.new }
    {
        if !self.has_room(1 + units.len() as u64) {
            return Err(HeapFault::Full);
        }
        let units = Units::from_slice(self.allocator(), units)?;
        self.allocate(Object::of(Content::Text { units }))
    }
}
