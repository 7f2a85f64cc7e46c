//! Stack maps (JVMS 4.7.4).

ghost use Rattle.std.specs.Prelude.{◌≡◌, [], ◌<◌, ◌-◌, Ok, Err};
ghost use Rattle.class_text.specs.Readers.{counted_at};
ghost use Rattle.class_text.specs.Frames.{typed_at, frame_type_at, with_item_at, with_locals_at, full_at, behind_delta_at, framed_at, frame_at};
ghost use Rattle.const_pool.specs.Faults.{GivesFront};

use crate::item_lists::{ReadItem, counted_in, many_in};
use crate::numbers::{u1_in, u2_in};
use crate::targets::{Target, index_in};
use class_model::{FrameType, StackFrame, StackFrames};
use class_text::{
    APPEND_TAG, FULL_TAG, OBJECT_TAG, RESERVED_TAG, SAME_EXTENDED_TAG, SAME_LOCALS_1_EXTENDED_TAG,
    SAME_LOCALS_1_TAG, UNINITIALIZED_TAG,
};
use const_pool::{ClassFault, JudgedPool, offset_of};
use sqlite_items::Items;
use std::alloc::Global;

/// What stands behind the tag of a type, which stands at a place.
#[tactic(auto, unfolding(class_text::specs::Frames::typed_at))]
fn typed_in<'a>(
    pool: &JudgedPool,
    at: u32,
    tag: u8,
    end: u32,
    bytes: &'a [u8],
) -> Result<(FrameType, &'a [u8]), ClassFault>
    ensures { GivesFront result (typed_at pool.now at tag end bytes.now) }
{
    if tag < OBJECT_TAG {
        return Ok((FrameType { tag, index: 0 }, bytes));
    }
    if tag == OBJECT_TAG {
        let (index, rest) = index_in(pool, Target::Class, end, bytes)?;
        return Ok((FrameType { tag, index }, rest));
    }
    if tag == UNINITIALIZED_TAG {
        let (index, rest) = u2_in(end, bytes)?;
        return Ok((FrameType { tag, index }, rest));
    }
    Err(ClassFault::BadTag(at, tag))
}

#[tactic(auto, unfolding(class_text::specs::Frames::frame_type_at))]
fn frame_type_in<'a>(
    pool: &JudgedPool,
    end: u32,
    bytes: &'a [u8],
) -> Result<(FrameType, &'a [u8]), ClassFault>
    ensures { GivesFront result (frame_type_at pool.now end bytes.now) }
{
    let (tag, rest) = u1_in(end, bytes)?;
    typed_in(pool, offset_of(end, bytes), tag, end, rest)
}

/// Reads types.
#[derive(Drop)]
struct TypeReader<'p> {
    pool: &'p JudgedPool,
}

impl ReadItem for TypeReader<'_> {
    ghost use Rattle.class_text.specs.Frames.{frame_type_at};

    type Item = FrameType;

    ghost one = { λ s. frame_type_at s.pool.now };

    fn read<'a>(&self, end: u32, bytes: &'a [u8]) -> Result<(FrameType, &'a [u8]), ClassFault> {
        frame_type_in(self.pool, end, bytes)
    }
}

/// A frame that writes one stack item.
#[tactic(auto, unfolding(class_text::specs::Frames::with_item_at))]
fn with_item_in<'a>(
    alloc: Global,
    pool: &JudgedPool,
    tag: u8,
    delta: u16,
    end: u32,
    bytes: &'a [u8],
) -> Result<(StackFrame, &'a [u8]), ClassFault>
    ensures { GivesFront result (with_item_at pool.now tag delta end bytes.now) }
{
    let (stack, rest) = many_in(alloc, &TypeReader { pool }, 1, end, bytes)?;
    let locals = Items::new(alloc);
    let frame = StackFrame {
        tag,
        delta,
        locals,
        stack,
    };
    Ok((frame, rest))
}

/// A frame that writes so many locals.
#[tactic(auto, unfolding(class_text::specs::Frames::with_locals_at))]
fn with_locals_in<'a>(
    alloc: Global,
    pool: &JudgedPool,
    tag: u8,
    delta: u16,
    many: u16,
    end: u32,
    bytes: &'a [u8],
) -> Result<(StackFrame, &'a [u8]), ClassFault>
    ensures { GivesFront result (with_locals_at pool.now tag delta many end bytes.now) }
{
    let (locals, rest) = many_in(alloc, &TypeReader { pool }, many, end, bytes)?;
    let stack = Items::new(alloc);
    let frame = StackFrame {
        tag,
        delta,
        locals,
        stack,
    };
    Ok((frame, rest))
}

/// A frame that counts its locals and its stack items.
#[tactic(auto, unfolding(class_text::specs::Frames::full_at))]
fn full_in<'a>(
    alloc: Global,
    pool: &JudgedPool,
    tag: u8,
    delta: u16,
    end: u32,
    bytes: &'a [u8],
) -> Result<(StackFrame, &'a [u8]), ClassFault>
    ensures { GivesFront result (full_at pool.now tag delta end bytes.now) }
{
    let (locals, rest) = counted_in(alloc, &TypeReader { pool }, end, bytes)?;
    let (stack, rest) = counted_in(alloc, &TypeReader { pool }, end, rest)?;
    let frame = StackFrame {
        tag,
        delta,
        locals,
        stack,
    };
    Ok((frame, rest))
}

fn empty_frame(alloc: Global, tag: u8, delta: u16) -> StackFrame
    ensures { result ≡ record { tag = tag; delta = delta; locals = []; stack = [] } }
{
    StackFrame {
        tag,
        delta,
        locals: Items::new(alloc),
        stack: Items::new(alloc),
    }
}

/// What stands behind the delta of a frame.
#[tactic(auto, unfolding(class_text::specs::Frames::behind_delta_at))]
fn behind_delta_in<'a>(
    alloc: Global,
    pool: &JudgedPool,
    tag: u8,
    delta: u16,
    end: u32,
    bytes: &'a [u8],
) -> Result<(StackFrame, &'a [u8]), ClassFault>
    ensures { GivesFront result (behind_delta_at pool.now tag delta end bytes.now) }
{
    if tag == SAME_LOCALS_1_EXTENDED_TAG {
        return with_item_in(alloc, pool, tag, delta, end, bytes);
    }
    if tag < APPEND_TAG {
        return Ok((empty_frame(alloc, tag, delta), bytes));
    }
    if tag < FULL_TAG {
        let many = u16::from(tag - SAME_EXTENDED_TAG);
        return with_locals_in(alloc, pool, tag, delta, many, end, bytes);
    }
    full_in(alloc, pool, tag, delta, end, bytes)
}

/// What stands behind the tag of a frame, which stands at a place.
#[tactic(auto, unfolding(class_text::specs::Frames::framed_at))]
fn framed_in<'a>(
    alloc: Global,
    pool: &JudgedPool,
    at: u32,
    tag: u8,
    end: u32,
    bytes: &'a [u8],
) -> Result<(StackFrame, &'a [u8]), ClassFault>
    ensures { GivesFront result (framed_at pool.now at tag end bytes.now) }
{
    if tag < SAME_LOCALS_1_TAG {
        return Ok((empty_frame(alloc, tag, u16::from(tag)), bytes));
    }
    if tag < RESERVED_TAG {
        let delta = u16::from(tag - SAME_LOCALS_1_TAG);
        return with_item_in(alloc, pool, tag, delta, end, bytes);
    }
    if tag < SAME_LOCALS_1_EXTENDED_TAG {
        return Err(ClassFault::BadTag(at, tag));
    }
    let (delta, rest) = u2_in(end, bytes)?;
    behind_delta_in(alloc, pool, tag, delta, end, rest)
}

#[tactic(auto, unfolding(class_text::specs::Frames::frame_at))]
fn frame_in<'a>(
    alloc: Global,
    pool: &JudgedPool,
    end: u32,
    bytes: &'a [u8],
) -> Result<(StackFrame, &'a [u8]), ClassFault>
    ensures { GivesFront result (frame_at pool.now end bytes.now) }
{
    let (tag, rest) = u1_in(end, bytes)?;
    framed_in(alloc, pool, offset_of(end, bytes), tag, end, rest)
}

/// Reads frames.
#[derive(Drop)]
struct FrameReader<'p> {
    alloc: Global,
    pool: &'p JudgedPool,
}

impl ReadItem for FrameReader<'_> {
    ghost use Rattle.class_text.specs.Frames.{frame_at};

    type Item = StackFrame;

    ghost one = { λ s. frame_at s.pool.now };

    fn read<'a>(&self, end: u32, bytes: &'a [u8]) -> Result<(StackFrame, &'a [u8]), ClassFault> {
        frame_in(self.alloc, self.pool, end, bytes)
    }
}

/// The frames of a stack map, behind their count.
pub(crate) fn frames_in<'a>(
    alloc: Global,
    pool: &JudgedPool,
    end: u32,
    bytes: &'a [u8],
) -> Result<(StackFrames, &'a [u8]), ClassFault>
    ensures { GivesFront result (counted_at (frame_at pool.now) end bytes.now) }
{
    counted_in(alloc, &FrameReader { alloc, pool }, end, bytes)
}
