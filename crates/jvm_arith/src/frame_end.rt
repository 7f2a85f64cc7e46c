//! How an instruction that stays in its frame ends.

/// Where control goes, or what is thrown.
#[derive(Clone, Copy, Drop)]
pub enum FrameEnd {
    /// To the next instruction.
    Next,
    /// To a target, by its pc.
    Jump(u32),
    /// It divides by zero.
    ByZero,
    /// It finds no such values, or no room. Verified code never does.
    Stuck,
}
