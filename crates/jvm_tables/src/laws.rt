//! What holds of every instruction that is decoded, and of every switch, as contracts of functions
//! that do nothing.

ghost use Rattle.jvm_tables.specs.Laws.{EndsWithin, HasItsRow, NeverWide, OwnBytesDecide, KeysRise, KeyLeads, OthersLeadToDefault};

/// An instruction stands at its place, has a length, and ends within the code.
#[tactic(auto, using(crate::proofs::Same::ends_within))]
pub fn instructions_end_within()
    ensures { EndsWithin }
{}

/// The opcode of an instruction is its first byte, or its second behind `wide`, and has a row that is
/// no float use.
pub fn instructions_have_rows()
    ensures { HasItsRow }
{}

/// The opcode of an instruction is never `wide`, which only goes before another.
#[tactic(auto, using(crate::proofs::Decoded::never_wide))]
pub fn instructions_are_never_wide()
    ensures { NeverWide }
{}

/// The bytes of an instruction decide what it is, whatever stands after them.
#[tactic(auto, using(crate::proofs::Same::own_bytes))]
pub fn own_bytes_decide()
    ensures { OwnBytesDecide }
{}

/// The keys of a switch are in rising order.
#[tactic(auto, using(crate::proofs::Keys::keys_rise_at))]
pub fn switch_keys_rise()
    ensures { KeysRise }
{}

/// A key of a switch leads to the switch's pc and the key's offset, any other number to the pc and the
/// default offset, modulo 2^32.
pub fn switch_keys_lead()
    ensures keys { KeyLeads }
    ensures others { OthersLeadToDefault }
{}
