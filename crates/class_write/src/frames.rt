//! Stack maps (JVMS 4.7.4).

ghost use Rattle.std.specs.Prelude.{◌≡◌, ◌++◌, ◌<◌, ◌^◌, true, length, None, OnOk, IfErr, IsOkUnless};
ghost use Rattle.std.specs.List.{flat_map};
ghost use Rattle.class_model.specs.Attributes.{IsFrameType, IsFrame, has_layout};
ghost use Rattle.class_model.specs.Annotations.{IsCounted};
ghost use Rattle.class_model.specs.Spelling as spelling;
ghost use Rattle.class_write.specs.Order.{Refuses};
ghost use Rattle.class_write.specs.Misfits as misfits;
ghost use Rattle.class_write.specs.Misfits.{at};
ghost use Rattle.class_write.specs.FrameText.{head_text, lists};
ghost use Rattle.const_pool.specs.declared.write_fault.AttributePart.TheVariants as items;

use crate::item_lists::{WriteItem, write_counted, write_many};
use class_model::{FrameType, Pool, StackFrame};
use class_text::{
    APPEND_TAG, FULL_TAG, OBJECT_TAG, RESERVED_TAG, SAME_EXTENDED_TAG, SAME_LOCALS_1_EXTENDED_TAG,
    SAME_LOCALS_1_TAG, UNINITIALIZED_TAG,
};
use const_pool::{AttributeId, AttributePart, Part, WriteFault, put_u2};

#[tactic(auto, unfolding(crate::specs::Misfits::is_frame_type))]
fn is_frame_type(pool: &Pool, t: &FrameType) -> bool
    ensures { result ≡ misfits.is_frame_type pool.now t.now }
{
    let FrameType { tag, index } = *t;
    if tag > UNINITIALIZED_TAG {
        return false;
    }
    if tag == OBJECT_TAG {
        return pool.is_class(index);
    }
    if tag == UNINITIALIZED_TAG {
        return true;
    }
    index == 0
}

/// Writes types of a frame that is this part.
#[derive(Drop)]
struct TypeWriter<'p> {
    pool: &'p Pool,
    part: Part,
}

impl WriteItem for TypeWriter<'_> {
    ghost use Rattle.class_model.specs.Attributes.{IsFrameType};
    ghost use Rattle.class_model.specs.Spelling.{frame_type};
    ghost use Rattle.class_write.specs.Misfits as misfits;

    type Item = FrameType;

    ghost text = { λ s. frame_type };

    ghost is_shaped = { λ s. IsFrameType s.pool.now };

    ghost misfit = { λ s number. misfits.frame_type s.pool.now s.part };

    #[tactic(auto, using(crate::proofs::Faults::faults), unfolding(class_model::specs::Spelling::frame_type))]
    fn write(&self, out: &mut Vec<u8>, _number: u32, item: &FrameType) -> Result<(), WriteFault> {
        if !is_frame_type(self.pool, item) {
            return Err(WriteFault::BadShape(self.part));
        }
        out.push(item.tag)?;
        if item.tag >= OBJECT_TAG {
            put_u2(out, item.index)?;
        }
        Ok(())
    }
}

/// Writes types without a count.
fn put_types(
    out: &mut Vec<u8>,
    pool: &Pool,
    part: Part,
    types: &[FrameType],
) -> Result<(), WriteFault>
    requires { length types.now < 2 ^ 16 }
    ensures ok { OnOk result (out.new.items ≡ out.old.items
        ++ flat_map spelling.frame_type types.now) }
    ensures shaped { OnOk result (IsCounted (IsFrameType pool.now) types.now) }
    ensures none { OnOk result (misfits.frame_types pool.now part types.now ≡ None) }
    ensures fault { IfErr result (λ e. Refuses e (misfits.frame_types pool.now part types.now)) }
{
    write_many(out, &TypeWriter { pool, part }, types)?;
    Ok(())
}

/// Writes types behind their count.
fn put_counted_types(
    out: &mut Vec<u8>,
    pool: &Pool,
    part: Part,
    types: &[FrameType],
) -> Result<(), WriteFault>
    ensures ok { OnOk result (out.new.items ≡ out.old.items
        ++ spelling.counted spelling.frame_type types.now) }
    ensures shaped { OnOk result (IsCounted (IsFrameType pool.now) types.now) }
    ensures none { OnOk result (misfits.frame_types pool.now part types.now ≡ None) }
    ensures fault { IfErr result (λ e. Refuses e (misfits.frame_types pool.now part types.now)) }
{
    write_counted(out, &TypeWriter { pool, part }, part, types)
}

#[tactic(auto, unfolding(class_model::specs::Attributes::has_layout))]
fn has_layout(frame: &StackFrame) -> bool
    ensures { result ≡ has_layout frame.now }
{
    let tag = frame.tag;
    let locals = frame.locals.len();
    let stack = frame.stack.len();
    if tag < SAME_LOCALS_1_TAG {
        return frame.delta == u16::from(tag) && locals == 0 && stack == 0;
    }
    if tag < RESERVED_TAG {
        return frame.delta == u16::from(tag - SAME_LOCALS_1_TAG) && locals == 0 && stack == 1;
    }
    if tag < SAME_LOCALS_1_EXTENDED_TAG {
        return false;
    }
    if tag == SAME_LOCALS_1_EXTENDED_TAG {
        return locals == 0 && stack == 1;
    }
    if tag < APPEND_TAG {
        return locals == 0 && stack == 0;
    }
    if tag < FULL_TAG {
        return locals == usize::from(tag - SAME_EXTENDED_TAG) && stack == 0;
    }
    true
}

/// Writes the tag, and the delta where it doesn't stand in the tag.
fn put_head(out: &mut Vec<u8>, frame: &StackFrame) -> Result<(), WriteFault>
    ensures ok { OnOk result (out.new.items ≡ out.old.items ++ head_text frame.now) }
    ensures delta { OnOk result (frame.now.delta < 2 ^ 16) }
    ensures memory { IsOkUnless result WriteFault.Memory }
{
    let delta = frame.delta;
    out.push(frame.tag)?;
    if frame.tag >= RESERVED_TAG {
        put_u2(out, delta)?;
    }
    Ok(())
}

/// Writes the locals and the stack, with their counts in a full frame alone.
#[tactic(auto, using(crate::proofs::Faults::faults))]
fn put_lists(
    out: &mut Vec<u8>,
    pool: &Pool,
    part: Part,
    frame: &StackFrame,
) -> Result<(), WriteFault>
    requires { has_layout frame.now ≡ true }
    ensures ok { OnOk result (out.new.items ≡ out.old.items ++ lists frame.now) }
    ensures locals { OnOk result (IsCounted (IsFrameType pool.now) frame.now.locals) }
    ensures stack { OnOk result (IsCounted (IsFrameType pool.now) frame.now.stack) }
    ensures none { OnOk result (misfits.lists pool.now part frame.now ≡ None) }
    ensures fault { IfErr result (λ e. Refuses e (misfits.lists pool.now part frame.now)) }
{
    let locals = frame.locals.as_slice();
    let stack = frame.stack.as_slice();
    if frame.tag == FULL_TAG {
        put_counted_types(out, pool, part, locals)?;
        return put_counted_types(out, pool, part, stack);
    }
    put_types(out, pool, part, locals)?;
    put_types(out, pool, part, stack)
}

/// Writes frames of the stack map that is this attribute.
#[derive(Drop)]
struct FrameWriter<'p> {
    pool: &'p Pool,
    id: AttributeId,
}

impl WriteItem for FrameWriter<'_> {
    ghost use Rattle.class_model.specs.Attributes.{IsFrame};
    ghost use Rattle.class_model.specs.Spelling.{frame};
    ghost use Rattle.const_pool.specs.declared.write_fault.AttributePart.TheVariants as items;
    ghost use Rattle.class_write.specs.Misfits as misfits;

    type Item = StackFrame;

    ghost text = { λ s. frame };

    ghost is_shaped = { λ s. IsFrame s.pool.now };

    ghost misfit = { λ s number. misfits.frame s.pool.now (misfits.at s.id (items.Frame number)) };

    #[tactic(auto, using(crate::proofs::Faults::faults), unfolding(crate::specs::Misfits::frame))]
    fn write(&self, out: &mut Vec<u8>, number: u32, item: &StackFrame) -> Result<(), WriteFault> {
        let part = Part::Attribute(self.id, AttributePart::Frame(number));
        if !has_layout(item) {
            return Err(WriteFault::BadShape(part));
        }
        put_head(out, item)?;
        put_lists(out, self.pool, part, item)?;
        Ok(())
    }
}

/// Writes the frames of the stack map that is this attribute.
pub(crate) fn put_frames(
    out: &mut Vec<u8>,
    pool: &Pool,
    id: AttributeId,
    frames: &[StackFrame],
) -> Result<(), WriteFault>
    ensures ok { OnOk result (out.new.items ≡ out.old.items
        ++ spelling.counted spelling.frame frames.now) }
    ensures shaped { OnOk result (IsCounted (IsFrame pool.now) frames.now) }
    ensures none { OnOk result (misfits.frames pool.now id frames.now ≡ None) }
    ensures fault { IfErr result (λ e. Refuses e (misfits.frames pool.now id frames.now)) }
{
    let part = Part::Attribute(id, AttributePart::Frames);
    write_counted(out, &FrameWriter { pool, id }, part, frames)
}
