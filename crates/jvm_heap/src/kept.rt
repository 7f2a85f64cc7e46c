//! Objects that are made once.

ghost use Rattle.std.specs.Prelude.{◌≡◌, ◌+◌, ◌<◌, ◌++◌, ◌^◌, ◌∷◌, [], IfOk, OnOk, OnErr, length, vec_len, vec_capacity};
ghost use Rattle.std.specs.BTreeMap.{insert_entry};
ghost use Rattle.jvm_heap.specs.Heaps.{is_small, constant_text, box_of_int, box_of_long, box_of_boolean};
ghost use Rattle.jvm_heap.specs.Changes.{Makes};

use crate::content::Content;
use crate::fault::HeapFault;
use crate::heap::Heap;
use crate::object::Object;
use crate::units::Units;
use std::alloc::AllocError;
use std::collections::BTreeMap;

/// What a box costs in cells.
const BOX_CELLS: u64 = 2;

fn is_small(value: i64) -> bool
    ensures { result ≡ is_small value }
{
    value >= -128 && value <= 127
}

/// Puts an object behind the others, for which there is room.
fn put_last(objects: &mut Vec<Object>, object: Object)
    requires { vec_len objects.old < vec_capacity objects.old }
    ensures { objects.new.items ≡ objects.old.items ++ object ∷ [] }
{
    let _ = objects.push(object);
}

/// Makes an object and keeps its number under a key.
fn make_kept<K: Ord + Drop>(
    objects: &mut Vec<Object>,
    kept: &mut BTreeMap<K, u32>,
    key: K,
    object: Object,
) -> Result<u32, AllocError>
    requires { vec_len objects.old + 1 < 2 ^ 32 }
    ensures number { IfOk result (λ number. number ≡ length objects.old.items + 1) }
    ensures objects { OnOk result (objects.new.items ≡ objects.old.items ++ object ∷ []) }
    ensures kept { IfOk result (λ number.
        kept.new.entries ≡ insert_entry K.cmp kept.old.entries key number) }
    ensures same_objects { OnErr result (objects.new.items ≡ objects.old.items) }
    ensures same_kept { OnErr result (kept.new.entries ≡ kept.old.entries) }
{
    objects.reserve(1)?;
    let number = objects.len() as u32 + 1;
    match kept.insert(key, number) {
        Ok(_) => {
            put_last(objects, object);
            Ok(number)
        }
        Err(_) => Err(AllocError),
    }
}

impl Heap {
    /// The text of a string constant (JVMS 5.1), which is made at its first use.
    #[tactic(auto, unfolding(crate::specs::Heaps::allocated, crate::specs::Heaps::constant_text))]
    pub fn constant_text(&mut self, units: &Units) -> Result<u32, HeapFault>
        ensures { Makes (constant_text units.now self.old) result self.old self.new }
    {
        if let Some(number) = self.texts.get(units) {
            return Ok(*number);
        }
        let more = 1 + units.len() as u64;
        if !self.has_room(more) {
            return Err(HeapFault::Full);
        }
        let key = units.copy()?;
        let text = Object::of(Content::Text {
            units: units.copy()?,
        });
        let number = make_kept(&mut self.objects, &mut self.texts, key, text)?;
        self.cells += more;
        Ok(number)
    }

    /// The box that `Integer.valueOf` gives: one object for each value from -128 to 127, and a new one for any other.
    #[tactic(auto, unfolding(crate::specs::Heaps::allocated, crate::specs::Heaps::box_of_int))]
    pub fn box_of_int(&mut self, value: i32) -> Result<u32, HeapFault>
        ensures { Makes (box_of_int value self.old) result self.old self.new }
    {
        let boxed = Object::of(Content::BoxedInt { value });
        if !is_small(i64::from(value)) {
            return self.allocate(boxed);
        }
        if let Some(number) = self.ints.get(&value) {
            return Ok(*number);
        }
        if !self.has_room(BOX_CELLS) {
            return Err(HeapFault::Full);
        }
        let number = make_kept(&mut self.objects, &mut self.ints, value, boxed)?;
        self.cells += BOX_CELLS;
        Ok(number)
    }

    /// The box that `Long.valueOf` gives, as for `box_of_int`.
    #[tactic(auto, unfolding(crate::specs::Heaps::allocated, crate::specs::Heaps::box_of_long))]
    pub fn box_of_long(&mut self, value: i64) -> Result<u32, HeapFault>
        ensures { Makes (box_of_long value self.old) result self.old self.new }
    {
        let boxed = Object::of(Content::BoxedLong { value });
        if !is_small(value) {
            return self.allocate(boxed);
        }
        if let Some(number) = self.longs.get(&value) {
            return Ok(*number);
        }
        if !self.has_room(BOX_CELLS) {
            return Err(HeapFault::Full);
        }
        let number = make_kept(&mut self.objects, &mut self.longs, value, boxed)?;
        self.cells += BOX_CELLS;
        Ok(number)
    }

    /// The box that `Boolean.valueOf` gives: one object for each value.
    #[tactic(auto, unfolding(crate::specs::Heaps::allocated, crate::specs::Heaps::box_of_boolean))]
    pub fn box_of_boolean(&mut self, value: bool) -> Result<u32, HeapFault>
        ensures { Makes (box_of_boolean value self.old) result self.old self.new }
    {
        if let Some(number) = self.booleans.get(&value) {
            return Ok(*number);
        }
        if !self.has_room(BOX_CELLS) {
            return Err(HeapFault::Full);
        }
        let boxed = Object::of(Content::BoxedBoolean { value });
        let number = make_kept(&mut self.objects, &mut self.booleans, value, boxed)?;
        self.cells += BOX_CELLS;
        Ok(number)
    }
}
