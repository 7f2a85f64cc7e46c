//! What an instruction does that stays in its frame, decoded.

use jvm_tables::ValueKind;

/// An instruction that takes numbers off the operand stack and gives numbers (JVMS 6.5).
#[derive(Clone, Copy, Drop)]
pub enum Plain {
    AddInt,
    AddLong,
    SubtractInt,
    SubtractLong,
    MultiplyInt,
    MultiplyLong,
    DivideInt,
    DivideLong,
    RemainderInt,
    RemainderLong,
    NegateInt,
    NegateLong,
    ShiftLeftInt,
    ShiftLeftLong,
    ShiftRightInt,
    ShiftRightLong,
    UnsignedShiftRightInt,
    UnsignedShiftRightLong,
    AndInt,
    AndLong,
    OrInt,
    OrLong,
    XorInt,
    XorLong,
    IntToLong,
    LongToInt,
    IntToByte,
    IntToChar,
    IntToShort,
    CompareLong,
}

/// A test of an int against 0, or of two ints.
#[derive(Clone, Copy, Drop)]
pub enum Test {
    Eq,
    Ne,
    Lt,
    Ge,
    Gt,
    Le,
}

/// An instruction on the slots of the operand stack, whatever they hold.
#[derive(Clone, Copy, Drop)]
pub enum Rearrangement {
    Pop,
    Pop2,
    Dup,
    DupX1,
    DupX2,
    Dup2,
    Dup2X1,
    Dup2X2,
    Swap,
}

/// An instruction that stays in its frame, with its operands. A target is the pc to which it leads.
#[derive(Clone, Copy, Drop)]
pub enum Action {
    Nop,
    PushNull,
    PushInt(i32),
    PushLong(i64),
    Plain(Plain),
    Load(ValueKind, u16),
    Store(ValueKind, u16),
    /// Adds to an int in a local.
    Increment(u16, i32),
    Rearrange(Rearrangement),
    IfInt(Test, u32),
    IfInts(Test, u32),
    /// Where two references are the same, or where they aren't.
    IfReferences(bool, u32),
    /// Where a reference is null, or where it isn't.
    IfNull(bool, u32),
    Goto(u32),
}
