//! The state of the machine in memory.

ghost use Rattle.std.specs.Prelude.{◌≡◌, ◌∷◌, [], OnOk, option_map};
ghost use Rattle.class_model.specs.TypeForms.{type_of};
ghost use Rattle.jvm_heap.specs.Changes.{Makes};
ghost use Rattle.jvm_heap.specs.Heaps.{allocated};
ghost use Rattle.jvm_heap.specs.Objects.{throwable};
ghost use Rattle.jvm_model.specs.Frames.{counted, exception_with, marked_failed};
ghost use Rattle.jvm_model.specs.Lambdas.{converted};
ghost use Rattle.jvm_model.specs.Plans.{end_of};
ghost use Rattle.jvm_model.specs.States.{state};
ghost use Rattle.jvm_resolve.specs.Ends.{EndsAs};
ghost use Rattle.jvm_state.specs.Frames.{frame_of};
ghost use Rattle.jvm_state.specs.Names.{names};
ghost use Rattle.jvm_invoke.specs.Machines.{running, first_of, shared_named, frames_named, MakesInAll, ObjectsAlone, StaysIfThrown};

use crate::casts::converted;
use crate::exceptions::{make_exception, put_throwable};
use crate::initialised::Initialised;
use crate::statics::Statics;
use class_model::{ClassId, TypeForm};
use jvm_heap::{HeapFault, Slot, Units};
use jvm_resolve::Stop;
use jvm_state::{Frame, FrameStack, Members};
use native_model::World;
use std::alloc::{AllocError, Global};
use std::marker::Model;

/// A program that runs: what all its frames share, and the frames. Contracts see its state by name.
#[derive(Drop)]
pub struct Machine<P: Members> {
    pub(crate) world: World<P>,
    pub(crate) statics: Statics,
    pub(crate) initialised: Initialised,
    pub(crate) frames: FrameStack,
}

impl<P: Members> Model for Machine<P> {
    ghost use Rattle.std.specs.Coded.{codes};
    ghost use Rattle.jvm_model.specs.States.{state};
    ghost use Rattle.jvm_state.specs.Names.{names};
    ghost use Rattle.jvm_invoke.specs.Codes.{field_type_code};
    ghost use Rattle.jvm_invoke.specs.Machines.{Running, running, shared_named, frames_named};

    ghost Value = { Running P };

    ghost coded = { Prim.hlevel (codes, field_type_code) };

    ghost view = { λ m. let n = names (P.class_name m.world.names) (P.method_name m.world.names)
        (P.field_name m.world.names) (P.site_origin m.world.names) (P.concatenation_at m.world.names) in
        running m.world.names (state (shared_named n m.world.world m.statics m.initialised)
        (frames_named n (P.initialiser m.world.names) m.frames)) };
}

impl<P: Members> Machine<P> {
    /// The program in a state.
    pub fn new(
        world: World<P>,
        statics: Statics,
        initialised: Initialised,
        frames: FrameStack,
    ) -> Machine<P>
        ensures { let n = names (P.class_name world.names) (P.method_name world.names)
            (P.field_name world.names) (P.site_origin world.names) (P.concatenation_at world.names) in
            result ≡ running world.names (state (shared_named n world.world statics initialised)
            (frames_named n (P.initialiser world.names) frames)) }
    {
        Machine {
            world,
            statics,
            initialised,
            frames,
        }
    }

    /// The program that runs.
    pub fn program(&self) -> &P
        ensures { result.now ≡ self.now.program }
    {
        self.world.names()
    }

    /// What its natives read and change.
    pub fn world(&self) -> &World<P>
        ensures names { result.now.names ≡ self.now.program }
        ensures world { result.now.world ≡ self.now.state.shared.world }
    {
        &self.world
    }

    /// The allocator that its parts are made with.
    pub fn allocator(&self) -> Global {
        self.world.allocator()
    }

    /// A throwable of a class without fields, with the number of its cause.
    pub(crate) fn put_throwable(&mut self, class: ClassId, cause: u32) -> Result<u32, HeapFault>
        ensures makes { Makes (allocated (throwable (P.class_name self.old.program class) [] 0 cause)
            self.old.state.shared.world.heap) result
            self.old.state.shared.world.heap self.new.state.shared.world.heap }
        ensures rest { ObjectsAlone self.old self.new }
    {
        put_throwable(&mut self.world, class, 0, cause)
    }

    /// An exception of a class, and behind it its message.
    pub(crate) fn make_exception(
        &mut self,
        class: ClassId,
        message: Option<Units>,
    ) -> Result<u32, HeapFault>
        ensures makes { MakesInAll (exception_with (P.class_name self.old.program class)
            self.old.state.shared.world.heap message) result self.new.state.shared.world.heap }
        ensures rest { ObjectsAlone self.old self.new }
    {
        make_exception(&mut self.world, class, message)
    }

    /// How many frames are counted against the limit.
    pub fn counted(&self) -> usize
        ensures { result ≡ counted self.now.state.frames }
    {
        self.frames.counted()
    }

    /// Takes the uppermost frame.
    #[tactic(auto, using(crate::proofs::Stacked::first_named))]
    pub fn pop(&mut self) -> Option<Frame>
        ensures taken { let n = names (P.class_name self.old.program) (P.method_name self.old.program)
            (P.field_name self.old.program) (P.site_origin self.old.program)
            (P.concatenation_at self.old.program) in first_of self.old.state.frames
            ≡ option_map (λ f. (frame_of n (P.initialiser self.old.program) f, self.new.state.frames)) result }
        ensures shared { self.new.state.shared ≡ self.old.state.shared }
        ensures program { self.new.program ≡ self.old.program }
    {
        self.frames.pop()
    }

    /// Puts a frame above the others.
    pub fn push(&mut self, frame: Frame) -> Result<(), AllocError>
        ensures put { let n = names (P.class_name self.old.program) (P.method_name self.old.program)
            (P.field_name self.old.program) (P.site_origin self.old.program)
            (P.concatenation_at self.old.program) in OnOk result (self.new.state
            ≡ state self.old.state.shared
            (frame_of n (P.initialiser self.old.program) frame ∷ self.old.state.frames)) }
        ensures program { self.new.program ≡ self.old.program }
    {
        self.frames.push(frame)
    }

    /// A class has failed to be initialised (JVMS 5.5).
    pub fn mark_failed(&mut self, class: ClassId) -> Result<(), AllocError>
        ensures marked { OnOk result (self.new.state ≡ state
            (marked_failed (P.class_name self.old.program class) self.old.state.shared)
            self.old.state.frames) }
        ensures program { self.new.program ≡ self.old.program }
    {
        self.initialised.add(class, true)
    }

    /// A result of one type as one of another, with its box. A type of `None` is that of no value.
    pub(crate) fn converted(
        &mut self,
        from: Option<TypeForm<'_>>,
        to: Option<TypeForm<'_>>,
        value: Option<Slot>,
    ) -> Result<Option<Slot>, Stop>
        ensures made { EndsAs (λ v. (v, self.new.state.shared.world.heap)) result
            (end_of (P.oracle self.old.program) (converted (option_map type_of from.entry)
            (option_map type_of to.entry) value self.old.state.shared.world)) }
        ensures rest { ObjectsAlone self.old self.new }
        ensures kept { StaysIfThrown result self.old self.new }
    {
        converted(from, to, value, &mut self.world)
    }
}
