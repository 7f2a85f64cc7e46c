//! Exceptions leave frame after frame until one catches them (JVMS 2.6.5, 2.10).

ghost use Rattle.std.specs.Prelude.{◌≡◌, ◌∷◌, IfOk};
ghost use Rattle.native_model.specs.Ends.{thrown_of};
ghost use Rattle.jvm_model.specs.Frames.{raised, unwound};
ghost use Rattle.jvm_model.specs.Plans.{end_of};
ghost use Rattle.jvm_model.specs.States.{of_method, initialising};
ghost use Rattle.jvm_state.specs.Frames.{frame_of, method_frame, initialising_frame};
ghost use Rattle.jvm_state.specs.Moves.{Leads};
ghost use Rattle.jvm_state.specs.Names.{names};
ghost use Rattle.jvm_invoke.specs.Leaving.{leads_on, KeepsFrames, caught_at};

use crate::machine::Machine;
use crate::messages::message_of;
use class_model::ClassId;
use jvm_heap::{Frame as MethodFrame, HeapFault, Slot};
use jvm_state::{Ending, Frame, Handling, InitialisingFrame, Members, Move};
use native_model::{Budget, StepFault, Throw};

/// Where an exception leads that a frame had.
#[derive(Drop)]
pub(crate) enum Left {
    Moves(Move),
    /// The exception of a number and a class leaves the frame.
    Passes(u32, ClassId),
}

/// A method goes on at a handler, with the exception alone on its stack.
fn catch<P: Members>(
    machine: &mut Machine<P>,
    frame: MethodFrame,
    handler: u32,
    exception: u32,
) -> Result<Left, StepFault>
    ensures caught { IfOk result (λ left. end_of (P.oracle machine.old.program)
        (caught_at (method_frame (P.method_name machine.old.program) frame)
        machine.old.state.frames machine.old.state.shared exception handler)
        ≡ leads_on (P.oracle machine.old.program) (P.class_name machine.old.program)
        left machine.new.state) }
    ensures frames { IfOk result (λ left. KeepsFrames left machine.old.state machine.new.state) }
    ensures program { machine.new.program ≡ machine.old.program }
{
    let mut frame = frame;
    frame.operands.clear();
    if !frame.operands.push(Slot::Ref(exception)) {
        return Ok(Left::Moves(Move::Stuck));
    }
    frame.pc = handler;
    machine.push(Frame::Method(frame))?;
    Ok(Left::Moves(Move::Goes))
}

/// An exception in a method goes to its handler, or leaves it.
#[tactic(auto, using(crate::proofs::Handled::handling))]
fn leave_method<P: Members>(
    machine: &mut Machine<P>,
    frame: MethodFrame,
    exception: u32,
    class: ClassId,
) -> Result<Left, StepFault>
    ensures left { IfOk result (λ left. end_of (P.oracle machine.old.program)
        (unwound (of_method (method_frame (P.method_name machine.old.program) frame)
        ∷ machine.old.state.frames) machine.old.state.shared exception
        (P.class_name machine.old.program class))
        ≡ leads_on (P.oracle machine.old.program) (P.class_name machine.old.program)
        left machine.new.state) }
    ensures frames { IfOk result (λ left. KeepsFrames left machine.old.state machine.new.state) }
    ensures program { machine.new.program ≡ machine.old.program }
{
    let program = machine.program();
    match program.handler(frame.method, frame.pc, program.name_of(class)) {
        Handling::NoCode => Ok(Left::Moves(Move::Stuck)),
        Handling::Leaves => Ok(Left::Passes(exception, class)),
        Handling::CaughtAt(pc) => catch(machine, frame, pc, exception),
    }
}

/// The class that an exception keeps from being initialised has failed. What is no Error is wrapped.
#[tactic(auto, unfolding(jvm_model::specs::Frames::unwound))]
fn fail_class<P: Members>(
    machine: &mut Machine<P>,
    frame: &InitialisingFrame,
    exception: u32,
    class: ClassId,
) -> Result<Left, StepFault>
    ensures left { let n = names (P.class_name machine.old.program)
        (P.method_name machine.old.program) (P.field_name machine.old.program)
        (P.site_origin machine.old.program) (P.concatenation_at machine.old.program) in
        IfOk result (λ left. end_of (P.oracle machine.old.program)
        (unwound (initialising (initialising_frame n (P.initialiser machine.old.program) frame.now)
        ∷ machine.old.state.frames) machine.old.state.shared exception
        (P.class_name machine.old.program class))
        ≡ leads_on (P.oracle machine.old.program) (P.class_name machine.old.program)
        left machine.new.state) }
    ensures frames { IfOk result (λ left. KeepsFrames left machine.old.state machine.new.state) }
    ensures program { machine.new.program ≡ machine.old.program }
{
    machine.mark_failed(frame.class)?;
    let program = machine.program();
    if program.is_below(program.name_of(class), b"java/lang/Error") {
        return Ok(Left::Passes(exception, class));
    }
    let error = program.initializer_error();
    match machine.put_throwable(error, exception) {
        Ok(wrapping) => Ok(Left::Passes(wrapping, error)),
        Err(HeapFault::Full) => Ok(Left::Moves(Move::Finishes(Ending::Spent(Budget::Cells)))),
        Err(HeapFault::Memory) => Err(StepFault::Memory),
    }
}

/// An exception in a frame of any kind.
#[tactic(auto, unfolding(jvm_model::specs::Frames::unwound))]
fn leave<P: Members>(
    machine: &mut Machine<P>,
    frame: Frame,
    exception: u32,
    class: ClassId,
) -> Result<Left, StepFault>
    ensures left { let n = names (P.class_name machine.old.program)
        (P.method_name machine.old.program) (P.field_name machine.old.program)
        (P.site_origin machine.old.program) (P.concatenation_at machine.old.program) in
        IfOk result (λ left. end_of (P.oracle machine.old.program)
        (unwound (frame_of n (P.initialiser machine.old.program) frame ∷ machine.old.state.frames)
        machine.old.state.shared exception (P.class_name machine.old.program class))
        ≡ leads_on (P.oracle machine.old.program) (P.class_name machine.old.program)
        left machine.new.state) }
    ensures frames { IfOk result (λ left. KeepsFrames left machine.old.state machine.new.state) }
    ensures program { machine.new.program ≡ machine.old.program }
{
    match frame {
        Frame::Method(frame) => leave_method(machine, frame, exception, class),
        Frame::Initialising(frame) => fail_class(machine, &frame, exception, class),
        Frame::Native(_) => Ok(Left::Passes(exception, class)),
        Frame::Forwarding(..) => Ok(Left::Passes(exception, class)),
        Frame::Adapting(_) => Ok(Left::Passes(exception, class)),
    }
}

/// An exception of a class leaves frame after frame until one catches it.
#[tactic(auto, using(crate::proofs::Handled::nothing_left))]
pub fn unwind<P: Members>(
    machine: &mut Machine<P>,
    exception: u32,
    class: ClassId,
) -> Result<Move, StepFault>
    ensures left { Leads result machine.new.state (end_of (P.oracle machine.old.program)
        (unwound machine.old.state.frames machine.old.state.shared exception
        (P.class_name machine.old.program class))) }
    ensures program { machine.new.program ≡ machine.old.program }
{
    let mut thrown = exception;
    let mut of = class;
    'leaving: while let Some(frame) = machine.pop() {
        match leave(machine, frame, thrown, of)? {
            Left::Moves(end) => return Ok(end),
            Left::Passes(next, next_class) => {
                thrown = next;
                of = next_class;
            }
        }
    }
    Ok(Move::Finishes(Ending::Threw(thrown)))
}

/// An exception is made and thrown.
#[tactic(auto, unfolding(jvm_model::specs::Frames::raised))]
pub fn raise<P: Members>(machine: &mut Machine<P>, throw: &Throw) -> Result<Move, StepFault>
    ensures thrown { Leads result machine.new.state (end_of (P.oracle machine.old.program)
        (raised machine.old.state.frames machine.old.state.shared (thrown_of throw.now))) }
    ensures program { machine.new.program ≡ machine.old.program }
{
    let message = message_of(machine.allocator(), throw)?;
    let class = machine.program().class_thrown(throw);
    match machine.make_exception(class, message) {
        Ok(exception) => unwind(machine, exception, class),
        Err(HeapFault::Full) => Ok(Move::Finishes(Ending::Spent(Budget::Cells))),
        Err(HeapFault::Memory) => Err(StepFault::Memory),
    }
}
