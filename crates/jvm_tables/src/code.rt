//! What decoding gives.

/// An instruction as it stands in the code. The operands are 0 where there is none; those of a
/// switch are its default offset and 0, and its pairs are read by `switch_pair` and `switch_target`.
#[derive(Clone, Copy, Debug, PartialEq, Eq, Drop)]
pub struct Instr {
    /// The place of its first byte, which is that of `wide` where there is one.
    pub pc: u32,
    /// Its opcode, behind `wide` where there is one.
    pub op: u8,
    pub wide: bool,
    /// In bytes, with `wide` and padding.
    pub length: u32,
    pub first: i32,
    pub second: i32,
}

/// Why the bytes at a place are no instruction.
#[derive(Clone, Copy, Debug, PartialEq, Eq, Drop)]
pub enum CodeFault {
    /// An opcode on floats or doubles.
    FloatOp(u8),
    /// An opcode that no instruction has.
    UnknownOp(u8),
    /// The operands pass the end of the code.
    CutShort,
    /// The operands are none that the instruction may have.
    BadOperand,
}
