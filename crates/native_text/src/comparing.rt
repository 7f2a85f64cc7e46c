//! Natives of String that compare or hash it.

ghost use Rattle.std.specs.Prelude.{◌≡◌, ◌<◌, length};
ghost use Rattle.jvm_heap.specs.Heaps.{most_cells};
ghost use Rattle.native_model.specs.Ends.{answer_of};
ghost use Rattle.native_model.specs.Strings.{text_compare, text_hash};
ghost use Rattle.native_model.specs.Texts.{compared_texts, hash_of_text};

use jvm_heap::Slot;
use native_model::{Naming, NativeEnd, Throw, World};

#[tactic(auto, using(crate::proofs::Differences::differences))]
fn compared(units: &[u16], others: &[u16]) -> i32
    requires few { length units.now < most_cells }
    requires few_others { length others.now < most_cells }
    ensures { result ≡ compared_texts units.now others.now }
{
    for i in 0..units.len() {
        if i >= others.len() {
            return (units.len() - others.len()) as i32;
        }
        if units[i] != others[i] {
            return i32::from(units[i]) - i32::from(others[i]);
        }
    }
    -((others.len() - units.len()) as i32)
}

#[tactic(auto, unfolding(native_model::specs::Texts::hash_of_text))]
fn hash_of(units: &[u16]) -> i32
    ensures { result ≡ hash_of_text units.now }
{
    let mut hash: i32 = 0;
    for unit in units {
        hash = 31i32.wrapping_mul(hash).wrapping_add(i32::from(*unit));
    }
    hash
}

/// `String.compareTo(String)`.
pub fn text_compare<N: Naming>(text: u32, other: u32, world: &World<N>) -> NativeEnd
    ensures { text_compare text other world.now.world ≡ answer_of result world.now.world }
{
    match world.text(text) {
        Some(units) => match world.text(other) {
            Some(others) => NativeEnd::Gives(Some(Slot::Int(compared(units, others)))),
            None => NativeEnd::Throws(Throw::IncompatibleChange),
        },
        None => NativeEnd::Throws(Throw::IncompatibleChange),
    }
}

/// `String.hashCode()`.
pub fn text_hash<N: Naming>(text: u32, world: &World<N>) -> NativeEnd
    ensures { text_hash text world.now.world ≡ answer_of result world.now.world }
{
    match world.text(text) {
        Some(units) => NativeEnd::Gives(Some(Slot::Int(hash_of(units)))),
        None => NativeEnd::Throws(Throw::IncompatibleChange),
    }
}
