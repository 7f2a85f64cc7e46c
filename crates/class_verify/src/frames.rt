//! The frames that a stack map writes.

ghost use Rattle.std.specs.Prelude.{◌≡◌, ◌<◌, ◌^◌, OnOk, IfOk, length, map, nat_le};
ghost use Rattle.std.specs.List.{list_any};
ghost use Rattle.class_verify.specs.Frames.{is_float, type_of, shape_of, chopped, types_after, written, frames_from};
ghost use Rattle.class_verify.specs.LocalTypes.{AreTold};

use crate::local_types::LocalTypes;
use crate::shape::Shape;
use class_model::{FrameType, StackFrame};
use jvm_tables::ValueKind;
use sqlite_items::Items;
use std::alloc::{AllocError, Global};

/// How many slots the operand stack and the locals of a method have (JVMS 4.7.3).
#[derive(Clone, Copy, Debug, PartialEq, Eq, Drop)]
pub struct Limits {
    pub stack: usize,
    pub locals: usize,
}

/// A frame at its offset.
#[derive(Debug, Drop)]
pub struct Written {
    pub at: u32,
    pub has_float: bool,
    /// `None` where it has a float, passes a limit, or takes away more locals than there are.
    pub shape: Option<Shape>,
}

pub(crate) fn is_float(t: FrameType) -> bool
    ensures { result ≡ is_float t }
{
    t.tag == 2 || t.tag == 3
}

pub(crate) fn any_float(types: &[FrameType]) -> bool
    ensures { result ≡ list_any is_float types.now }
{
    types.iter().any(|t| is_float(*t))
}

fn type_of(kind: ValueKind) -> FrameType
    ensures { result ≡ type_of kind }
{
    match kind {
        ValueKind::Int => FrameType { tag: 1, index: 0 },
        ValueKind::Long => FrameType { tag: 4, index: 0 },
        ValueKind::Reference => FrameType { tag: 7, index: 0 },
    }
}

/// The types of values.
pub(crate) fn types_of(alloc: Global, kinds: &[ValueKind]) -> Result<Vec<FrameType>, AllocError>
    ensures { IfOk result (λ types. types.items ≡ map type_of kinds.now) }
{
    kinds.iter().map(|kind| type_of(*kind)).collect(alloc)
}

/// The shape that types tell, if they keep within the limits.
pub(crate) fn shape_of(
    alloc: Global,
    limits: Limits,
    locals: &[FrameType],
    stack: &[FrameType],
) -> Result<Option<Shape>, AllocError>
    ensures { IfOk result (λ found. found ≡ shape_of limits locals.now stack.now) }
{
    let mut types = LocalTypes::new(alloc);
    types.extend(locals)?;
    types.shape(alloc, limits, stack)
}

pub(crate) fn chopped(f: &StackFrame) -> usize
    ensures { result ≡ chopped f.now }
{
    if f.tag < 248 {
        0
    } else {
        usize::from(251u8.saturating_sub(f.tag))
    }
}

fn frame_with(
    alloc: Global,
    limits: Limits,
    at: u32,
    enough: bool,
    types: &mut LocalTypes,
    stack: &[FrameType],
) -> Result<Written, AllocError>
    requires { AreTold types.old }
    ensures told { OnOk result (AreTold types.new) }
    ensures types { types.new.types ≡ types.old.types }
    ensures frame { IfOk result (λ w. w ≡ written limits at enough types.old.types.items stack.now) }
{
    let has_float = types.has_float() || any_float(stack);
    let shape = types.shape_if(alloc, limits, enough && !has_float, stack)?;
    Ok(Written {
        at,
        has_float,
        shape,
    })
}

/// The frame at an offset; the types of locals are moved on to it.
fn next_frame(
    alloc: Global,
    limits: Limits,
    at: u32,
    types: &mut LocalTypes,
    f: &StackFrame,
) -> Result<Written, AllocError>
    requires { AreTold types.old }
    ensures told { OnOk result (AreTold types.new) }
    ensures types { OnOk result (types.new.types.items ≡ types_after f.now types.old.types.items) }
    ensures frame { IfOk result (λ w. w ≡ written limits at (nat_le (chopped f.now) (length types.old.types.items)) (types_after f.now types.old.types.items) f.now.stack) }
{
    let enough = chopped(f) <= types.types.len();
    types.keep(f);
    types.extend(f.locals.as_slice())?;
    frame_with(alloc, limits, at, enough, types, f.stack.as_slice())
}

/// The frames of a stack map, given the types of the locals as the method begins.
#[tactic(auto, using(crate::proofs::Methods::frames_step, crate::proofs::Methods::frames_end))]
pub(crate) fn frames_of(
    alloc: Global,
    limits: Limits,
    first: &[FrameType],
    frames: &[StackFrame],
) -> Result<Items<Written>, AllocError>
    requires { length frames.now < 2 ^ 16 }
    ensures { IfOk result (λ found. found ≡ frames_from limits 0 first.now frames.now) }
{
    let mut types = LocalTypes::new(alloc);
    types.extend(first)?;
    let mut found = Items::new(alloc);
    let mut next = 0;
    for f in frames {
        let at = next + usize::from(f.delta);
        found.push(next_frame(alloc, limits, at as u32, &mut types, f)?)?;
        next = at + 1;
    }
    Ok(found)
}
