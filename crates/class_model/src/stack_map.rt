//! Frames of a stack map (JVMS 4.7.4).

use sqlite_items::Items;

/// The frames of a stack map, in file order.
pub type StackFrames = Items<StackFrame>;

/// The types that a frame writes for locals or stack items.
pub type FrameTypes = Items<FrameType>;

/// A frame, with the locals and stack items that the file writes.
#[derive(Debug, Drop)]
pub struct StackFrame {
    pub tag: u8,
    /// The offset's delta. A frame of a tag below 128 has it in its tag.
    pub delta: u16,
    pub locals: FrameTypes,
    pub stack: FrameTypes,
}

/// A verification type: 0 Top, 1 Integer, 2 Float, 3 Double, 4 Long, 5 Null, 6 UninitializedThis, 7 Object with the
/// index of a class, 8 Uninitialized with the pc of its `new`. The others have the index 0.
#[derive(Clone, Copy, Debug, PartialEq, Eq, Drop)]
pub struct FrameType {
    pub tag: u8,
    pub index: u16,
}
