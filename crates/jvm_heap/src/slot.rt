//! Slots.

/// A slot of the locals, of the operand stack, of a field or of an array. A long fills two of the locals or of the
/// operand stack: `Long`, and `Top` behind it (JVMS 2.6.1).
#[derive(Clone, Copy, Drop)]
pub enum Slot {
    Top,
    Int(i32),
    Long(i64),
    /// The number of an object; 0 is null.
    Ref(u32),
}
