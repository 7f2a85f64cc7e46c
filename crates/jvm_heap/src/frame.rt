//! Frames.

use crate::operands::Operands;
use crate::slots::Slots;
use class_model::MemberId;

/// The frame of a method that runs, or that waits for a call (JVMS 2.6).
#[derive(Drop)]
pub struct Frame {
    pub method: MemberId,
    /// Where its present instruction stands.
    pub pc: u32,
    /// Where the instruction behind that stands.
    pub next: u32,
    pub locals: Slots,
    pub operands: Operands,
}
