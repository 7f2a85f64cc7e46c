//! What a frame runs that is no method's.

use class_model::SiteId;
use jvm_heap::Slots;
use native_model::Progress;

/// What a native's frame runs: a row of the table of natives, or the concatenation of a call site.
#[derive(Clone, Copy, Drop)]
pub enum Called {
    Native(u32),
    Concatenation(SiteId),
}

/// A native that calls back: what it runs, its arguments with the receiver first, and how far it is.
#[derive(Drop)]
pub struct NativeCall {
    pub called: Called,
    pub arguments: Slots,
    pub progress: Progress,
}

/// What is made of a result before it goes on.
#[derive(Clone, Copy, Drop)]
pub enum Adaptation {
    /// The new object of a number, in place of what its `<init>` gives.
    GivesObject(u32),
    /// What the implementing method of a lambda gives as what the lambda's method gives.
    Converts(SiteId),
}
