//! What the verifier knows of a frame.

ghost use Rattle.std.specs.Prelude.{◌≡◌, OnOk};
ghost use Rattle.class_verify.specs.Shapes.{shape_fits};

use crate::locals::Locals;
use crate::stack::Stack;
use std::alloc::AllocError;

/// The kinds on the operand stack and in the locals (JVMS 4.10.1.4).
#[derive(Debug, Drop)]
pub struct Shape {
    pub stack: Stack,
    pub locals: Locals,
}

impl Shape {
    /// Makes it equal to another.
    pub(crate) fn copy_from(&mut self, other: &Shape) -> Result<(), AllocError>
        ensures { OnOk result (self.new ≡ other.now) }
    {
        self.stack.copy_from(&other.stack)?;
        self.locals.copy_from(&other.locals)
    }

    /// Whether each slot fits the one of another shape at its place.
    pub(crate) fn fits(&self, wanted: &Shape) -> bool
        ensures { result ≡ shape_fits self.now wanted.now }
    {
        self.stack.fits(&wanted.stack) && self.locals.fits(&wanted.locals)
    }
}
