//! The frames below the running one.

ghost use Rattle.std.specs.Prelude.{◌≡◌, ◌∷◌, [], OnOk, OnErr, option_map};
ghost use Rattle.jvm_state.specs.Stacks.{is_counted, counted, top_of};

use crate::frame::Frame;
use std::alloc::{AllocError, Global};
use std::marker::Model;

/// Frames, the top first in contracts. Their counted ones are counted as they come and go.
#[derive(Drop)]
pub struct FrameStack {
    frames: Vec<Frame>,
    counted_frames: usize,
}

impl Model for FrameStack {
    ghost use Rattle.std.specs.Prelude.{◌≡◌, List, reverse};
    ghost use Rattle.jvm_state.specs.declared.frame.Frame.{Frame};
    ghost use Rattle.jvm_state.specs.Stacks.{counted};

    ghost Value = { List Frame };

    ghost view = { λ s. reverse s.frames.items };

    ghost invariant = { λ s. s.counted_frames ≡ counted (reverse s.frames.items) };
}

impl Frame {
    /// Whether it counts against the limit of frames.
    pub fn is_counted(&self) -> bool
        ensures { result ≡ is_counted self.now }
    {
        match self {
            Frame::Method(_) | Frame::Native(_) | Frame::Forwarding(..) => true,
            Frame::Adapting(_) | Frame::Initialising(_) => false,
        }
    }
}

impl FrameStack {
    /// No frames.
    pub fn new(alloc: Global) -> FrameStack
        ensures { result ≡ [] }
    {
        FrameStack {
            frames: Vec::new(alloc),
            counted_frames: 0,
        }
    }

    /// How many of the frames are counted.
    pub fn counted(&self) -> usize
        ensures { result ≡ counted self.now }
    {
        self.counted_frames
    }

    /// Puts a frame above the others.
    #[tactic(auto, using(crate::proofs::Counts::stacked))]
    pub fn push(&mut self, frame: Frame) -> Result<(), AllocError>
        ensures put { OnOk result (self.new ≡ frame ∷ self.old) }
        ensures kept { OnErr result (self.new ≡ self.old) }
    {
        let counts = frame.is_counted();
        self.frames.push(frame)?;
        if counts {
            self.counted_frames += 1;
        }
        Ok(())
    }

    /// Takes the uppermost frame.
    #[tactic(auto, using(crate::proofs::Counts::stacked))]
    pub fn pop(&mut self) -> Option<Frame>
        ensures { top_of self.old ≡ option_map (λ frame. (frame, self.new)) result }
    {
        let frame = self.frames.pop()?;
        if frame.is_counted() {
            self.counted_frames -= 1;
        }
        Some(frame)
    }
}
