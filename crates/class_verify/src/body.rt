//! The code of a method with what verification asks of it.

ghost use Rattle.std.specs.Prelude.{◌≡◌, ◌<◌, ◌≤◌, Some, None, Ok, true, drop, length, map, option_copied, option_map, is_some};
ghost use Rattle.std.specs.List.{list_all};
ghost use Rattle.jvm_tables.specs.Decoding.{decoding};
ghost use Rattle.jvm_tables.specs.Switches.{target};
ghost use Rattle.jvm_tables.specs.Switching.{cases_at};
ghost use Rattle.class_verify.specs.Frames.{frame_at};
ghost use Rattle.class_verify.specs.Misfits.{is_float_frame, ends_well, is_result};
ghost use Rattle.class_verify.specs.Places.{begins};
ghost use Rattle.class_verify.specs.Ready.{IsReady, plain};
ghost use Rattle.class_code.specs.Control.{falls, targets_by};
ghost use Rattle.class_verify.specs.Sweeps.{is_kept};
ghost use Rattle.class_verify.specs.Targets.{accepts, is_accepted, fits_written, is_caught, catches_in};

use crate::constant_tables::ConstantTables;
use crate::frames::{Limits, Written};
use crate::locals::Locals;
use crate::places::place_behind;
use crate::shape::Shape;
use crate::sweep::Sweep;
use class_code::target;
use class_model::{Class, Handler};
use jvm_tables::{Flow, Instr, OpRow, Operands, ValueKind, is_switch, switch_case, switch_len};
use sqlite_items::Items;

/// The code of a method, with tables by pc.
#[derive(Drop)]
pub(crate) struct Body<'a> {
    pub class: &'a Class,
    pub tables: &'a ConstantTables,
    /// The kind of the method's result.
    pub result: Option<ValueKind>,
    pub limits: Limits,
    pub code: &'a [u8],
    pub table: &'a [Handler],
    /// The shape as it begins; `None` where the arguments pass the locals.
    pub first: Option<Shape>,
    pub frames: Items<Written>,
    /// Whether an instruction begins at a pc.
    pub marks: Vec<bool>,
    /// Which frame stands at a pc.
    pub framed: Vec<Option<usize>>,
}

/// An instruction by its place, and a buffer for the shape there. Before the instruction is entered the shape is what
/// arrives, if control comes from the instruction before it.
#[derive(Drop)]
pub(crate) struct Spot {
    pub pc: usize,
    pub is_reached: bool,
    pub shape: Shape,
    pub sweep: Sweep,
}

fn is_result(result_kind: Option<ValueKind>, takes: Operands) -> bool
    ensures { result ≡ is_result result_kind takes }
{
    match result_kind {
        None => matches!(takes, Operands::Nothing),
        Some(ValueKind::Int) => matches!(takes, Operands::Int),
        Some(ValueKind::Long) => matches!(takes, Operands::Long),
        Some(ValueKind::Reference) => matches!(takes, Operands::Reference),
    }
}

fn fits_written(shape: &Shape, wanted: &Option<Shape>) -> bool
    ensures { result ≡ fits_written shape.now wanted.now }
{
    match wanted {
        Some(wanted) => shape.fits(wanted),
        None => false,
    }
}

fn catches_in(locals: &Locals, wanted: &Option<Shape>) -> bool
    ensures { result ≡ catches_in locals.now wanted.now }
{
    match wanted {
        Some(wanted) => wanted.stack.is_thrown() && locals.fits(&wanted.locals),
        None => false,
    }
}

impl Body<'_> {
    pub(crate) fn begins(&self, pc: usize) -> bool
        requires { IsReady self.now }
        ensures { result ≡ begins self.now.code.now pc }
    {
        if pc < self.marks.len() {
            self.marks[pc]
        } else {
            false
        }
    }

    /// The frame that the file writes for a pc.
    pub(crate) fn frame(&self, pc: usize) -> Option<&Written>
        requires { IsReady self.now }
        ensures { option_copied result ≡ frame_at self.now.code.now self.now.frames pc }
    {
        if pc >= self.framed.len() {
            return None;
        }
        match self.framed[pc] {
            Some(place) => self.frames.get(place),
            None => None,
        }
    }

    pub(crate) fn has_float_frame(&self, pc: usize) -> bool
        requires { IsReady self.now }
        ensures { result ≡ is_float_frame (frame_at self.now.code.now self.now.frames pc) }
    {
        match self.frame(pc) {
            Some(frame) => frame.has_float,
            None => false,
        }
    }

    #[tactic(auto, using(crate::proofs::Switched::case_more, crate::proofs::Switched::case_no, crate::proofs::Switched::case_all, crate::proofs::Switched::no_cases))]
    fn cases_begin(&self, instr: &Instr) -> bool
        requires ready { IsReady self.now }
        requires decoded { decoding instr.now.pc (drop instr.now.pc self.now.code.now) ≡ Ok instr.now }
        ensures { result ≡ list_all (begins self.now.code.now) (map (λ c. c.1) (cases_at self.now.code.now instr.now)) }
    {
        if !is_switch(instr) {
            return true;
        }
        for place in 0..switch_len(self.code, instr) {
            let (_, pc) = switch_case(self.code, instr, place);
            if !self.begins(pc as usize) {
                return false;
            }
        }
        true
    }

    /// Whether an instruction begins at each target.
    pub(crate) fn targets_begin(&self, flow: Flow, instr: &Instr) -> bool
        requires ready { IsReady self.now }
        requires decoded { decoding instr.now.pc (drop instr.now.pc self.now.code.now) ≡ Ok instr.now }
        ensures { result ≡ list_all (begins self.now.code.now) (targets_by flow self.now.code.now instr.now) }
    {
        match flow {
            Flow::Next | Flow::Return | Flow::Throw => true,
            Flow::Branch | Flow::Jump => self.begins(target(instr)),
            Flow::Switch => self.begins(target(instr)) && self.cases_begin(instr),
        }
    }

    fn accepts(&self, shape: &Shape, pc: usize) -> bool
        requires { IsReady self.now }
        ensures { result ≡ accepts self.now.code.now self.now.frames shape.now pc }
    {
        match self.frame(pc) {
            Some(frame) => fits_written(shape, &frame.shape),
            None => false,
        }
    }

    /// Whether a shape fits the frame at a target, given one whose frame it fits.
    fn accepts_beside(&self, shape: &Shape, pc: usize, accepted: usize) -> bool
        requires ready { IsReady self.now }
        requires accepted { accepts self.now.code.now self.now.frames shape.now accepted ≡ true }
        ensures { result ≡ accepts self.now.code.now self.now.frames shape.now pc }
    {
        pc == accepted || self.accepts(shape, pc)
    }

    /// Whether a shape fits the frame at each case of a switch, given that it fits the one at its default. Cases in a
    /// row that lead to one target are compared once.
    #[tactic(auto, using(crate::proofs::Switched::case_more, crate::proofs::Switched::case_no, crate::proofs::Switched::case_all, crate::proofs::Switched::no_cases))]
    fn cases_accept(&self, shape: &Shape, instr: &Instr, default: usize) -> bool
        requires ready { IsReady self.now }
        requires default { accepts self.now.code.now self.now.frames shape.now default ≡ true }
        requires decoded { decoding instr.now.pc (drop instr.now.pc self.now.code.now) ≡ Ok instr.now }
        ensures { result ≡ list_all (accepts self.now.code.now self.now.frames shape.now) (map (λ c. c.1) (cases_at self.now.code.now instr.now)) }
    {
        if !is_switch(instr) {
            return true;
        }
        let mut accepted = default;
        for place in 0..switch_len(self.code, instr) {
            let (_, pc) = switch_case(self.code, instr, place);
            if !self.accepts_beside(shape, pc as usize, accepted) {
                return false;
            }
            accepted = pc as usize;
        }
        true
    }

    /// Whether a shape fits the frame at each target.
    pub(crate) fn targets_accept(&self, shape: &Shape, flow: Flow, instr: &Instr) -> bool
        requires ready { IsReady self.now }
        requires decoded { decoding instr.now.pc (drop instr.now.pc self.now.code.now) ≡ Ok instr.now }
        ensures { result ≡ list_all (accepts self.now.code.now self.now.frames shape.now) (targets_by flow self.now.code.now instr.now) }
    {
        match flow {
            Flow::Next | Flow::Return | Flow::Throw => true,
            Flow::Branch | Flow::Jump => self.accepts(shape, target(instr)),
            Flow::Switch => {
                let default = target(instr);
                self.accepts(shape, default) && self.cases_accept(shape, instr, default)
            }
        }
    }

    /// Whether the frame at a handler accepts the locals.
    pub(crate) fn is_caught(&self, locals: &Locals, handler: usize) -> bool
        requires { IsReady self.now }
        ensures { result ≡ is_caught locals.now (frame_at self.now.code.now self.now.frames handler) }
    {
        match self.frame(handler) {
            Some(frame) => catches_in(locals, &frame.shape),
            None => false,
        }
    }

    /// Whether a range ends by a pc, or its handler accepts the locals.
    pub(crate) fn is_kept(&self, pc: usize, locals: &Locals, range: &Handler) -> bool
        requires { IsReady self.now }
        ensures { result ≡ is_kept self.now.code.now self.now.frames pc locals.now range.now }
    {
        if pc >= usize::from(range.end) {
            return true;
        }
        self.is_caught(locals, usize::from(range.handler))
    }

    /// Whether control that goes on finds an instruction, and control that returns has the result.
    pub(crate) fn ends_well(&self, instr: &Instr, row: &OpRow) -> bool
        requires decoded { decoding instr.now.pc (drop instr.now.pc self.now.code.now) ≡ Ok instr.now }
        requires within { instr.now.pc < length self.now.code.now }
        ensures { result ≡ ends_well (plain self.now) instr.now.pc row.now.flow row.now.takes }
    {
        match row.flow {
            Flow::Next | Flow::Branch => {
                place_behind(self.code, instr.pc as usize, instr).is_some()
            }
            Flow::Return => is_result(self.result, row.takes),
            Flow::Jump | Flow::Switch | Flow::Throw => true,
        }
    }
}
