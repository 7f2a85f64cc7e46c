//! Exceptions are made, each before its message (JVMS 2.10).

ghost use Rattle.std.specs.Prelude.{◌≡◌, [], Some};
ghost use Rattle.jvm_heap.specs.Heaps.{allocated};
ghost use Rattle.jvm_heap.specs.Objects as objects;
ghost use Rattle.jvm_heap.specs.Changes.{Makes};
ghost use Rattle.jvm_model.specs.Frames.{exception_with};
ghost use Rattle.jvm_state.specs.Changes.{HeapAlone};
ghost use Rattle.jvm_invoke.specs.Machines.{MakesInAll};

use class_model::ClassId;
use jvm_heap::{Content, HeapFault, Object, Slots, Units};
use jvm_state::Members;
use native_model::World;

/// A throwable of a class without fields, with the numbers of its message and its cause.
pub(crate) fn put_throwable<P: Members>(
    world: &mut World<P>,
    class: ClassId,
    message: u32,
    cause: u32,
) -> Result<u32, HeapFault>
    ensures makes { Makes (allocated (objects.throwable (P.class_name world.old.names class) []
        message cause) world.old.world.heap) result world.old.world.heap world.new.world.heap }
    ensures rest { HeapAlone world.old world.new }
{
    let fields = Slots::from_vec(Vec::new(world.allocator()));
    world.allocate(Object::of(Content::Throwable {
        class,
        fields,
        message,
        cause,
    }))
}

fn put_text<P: Members>(world: &mut World<P>, units: Units) -> Result<u32, HeapFault>
    ensures makes { Makes (allocated (objects.text units) world.old.world.heap)
        result world.old.world.heap world.new.world.heap }
    ensures rest { HeapAlone world.old world.new }
{
    world.allocate(Object::of(Content::Text { units }))
}

fn make_with_message<P: Members>(
    world: &mut World<P>,
    class: ClassId,
    message: Units,
) -> Result<u32, HeapFault>
    ensures makes { MakesInAll (exception_with (P.class_name world.old.names class)
        world.old.world.heap (Some message)) result world.new.world.heap }
    ensures rest { HeapAlone world.old world.new }
{
    let behind_next = world.count() + 2;
    let made = put_throwable(world, class, behind_next, 0)?;
    put_text(world, message)?;
    Ok(made)
}

/// An exception of a class, and behind it its message.
pub(crate) fn make_exception<P: Members>(
    world: &mut World<P>,
    class: ClassId,
    message: Option<Units>,
) -> Result<u32, HeapFault>
    ensures makes { MakesInAll (exception_with (P.class_name world.old.names class)
        world.old.world.heap message) result world.new.world.heap }
    ensures rest { HeapAlone world.old world.new }
{
    match message {
        Some(units) => make_with_message(world, class, units),
        None => put_throwable(world, class, 0, 0),
    }
}
