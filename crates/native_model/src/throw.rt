//! What natives and instructions throw.

use jvm_heap::Units;
use tree_value::Bytes;

/// What a task body has no access to.
#[derive(Clone, Copy, Drop)]
pub enum Denial {
    Path,
    Dest,
    Env,
}

/// A class of exceptions, with what its message is made of.
#[derive(Drop)]
pub enum Throw {
    NullPointer,
    ClassCast,
    IncompatibleChange,
    Unsupported,
    NoSuchElement,
    ArrayStore,
    AbstractMethod,
    UnsatisfiedLink,
    Instantiation,
    DivisionByZero,
    /// The index, and the length of the list.
    ListBounds(i32, u32),
    TextBounds(i32, u32),
    ArrayBounds(i32, u32),
    NegativeSize(i32),
    /// The text that is no number.
    NumberFormat(Units),
    /// The name of the class.
    AbsentClass(Bytes),
    /// The name of the method alone.
    AbsentMethod(Bytes),
    /// The name of the field alone.
    AbsentField(Bytes),
    Denied(Denial),
    /// The units of the path.
    FileFault(Units),
}
