//! Contents of attributes (JVMS 4.7).

ghost use Rattle.std.specs.Prelude.{◌≡◌, ◌++◌, ◌==◌, ◌||◌, ◌<◌, ◌^◌, true, length, None, OnOk, IfErr, IsOkUnless};
ghost use Rattle.std.specs.List.{flat_map};
ghost use Rattle.class_model.specs.declared.attribute_forms.Attribute.{out-Attribute};
ghost use Rattle.class_model.specs.Annotations.{IsCounted};
ghost use Rattle.class_model.specs.Attributes.{IsBytes, IsHandler, IsBootstrap, is_value_for, is_handle, is_loadable};
ghost use Rattle.class_model.specs.Constants.{constant_at, is_some_that, is_class_constant};
ghost use Rattle.class_model.specs.Spelling as spelling;
ghost use Rattle.class_write.specs.Order.{unless, Refuses};
ghost use Rattle.class_write.specs.Contents.{HasPlainContent};
ghost use Rattle.class_write.specs.Misfits as misfits;
ghost use Rattle.const_pool.specs.declared.write_fault.AttributePart.TheVariants as items;
ghost use Rattle.const_pool.specs.declared.write_fault.WriteFault.TheVariants as faults;

use crate::annotations::put_annotations;
use crate::frames::put_frames;
use crate::item_lists::{WriteItem, write_counted};
use class_model::{Attribute, Bootstrap, Handler, Pool};
use class_text::MOST_CODE;
use const_pool::{AttributeId, AttributePart, Part, WriteFault, put_u2, put_u4};

/// Whether a handler may catch this class, 0 for all.
fn is_catch_type(pool: &Pool, class: u16) -> bool
    ensures { result ≡ (class == 0 || is_some_that is_class_constant (constant_at pool.now class)) }
{
    if class == 0 {
        return true;
    }
    pool.is_class(class)
}

/// Writes entries of the exception table of the code that is this attribute.
#[derive(Drop)]
struct HandlerWriter<'p> {
    pool: &'p Pool,
    id: AttributeId,
}

impl WriteItem for HandlerWriter<'_> {
    ghost use Rattle.class_model.specs.Attributes.{IsHandler};
    ghost use Rattle.class_model.specs.Spelling.{handler};
    ghost use Rattle.const_pool.specs.declared.write_fault.AttributePart.TheVariants as items;
    ghost use Rattle.class_write.specs.Misfits as misfits;

    type Item = Handler;

    ghost text = { λ s. handler };

    ghost is_shaped = { λ s. IsHandler s.pool.now };

    ghost misfit = { λ s number. misfits.handler s.pool.now
        (misfits.at s.id (items.Handler number)) };

    #[tactic(auto, using(crate::proofs::Faults::faults), unfolding(class_model::specs::Spelling::handler))]
    fn write(&self, out: &mut Vec<u8>, number: u32, item: &Handler) -> Result<(), WriteFault> {
        if !is_catch_type(self.pool, item.catch_type) {
            let part = Part::Attribute(self.id, AttributePart::Handler(number));
            return Err(WriteFault::BadShape(part));
        }
        put_u2(out, item.start)?;
        put_u2(out, item.end)?;
        put_u2(out, item.handler)?;
        put_u2(out, item.catch_type)?;
        Ok(())
    }
}

/// Writes the exception table of the code that is this attribute.
pub(crate) fn put_handlers(
    out: &mut Vec<u8>,
    pool: &Pool,
    id: AttributeId,
    table: &[Handler],
) -> Result<(), WriteFault>
    ensures ok { OnOk result (out.new.items ≡ out.old.items
        ++ spelling.counted spelling.handler table.now) }
    ensures shaped { OnOk result (IsCounted (IsHandler pool.now) table.now) }
    ensures none { OnOk result (misfits.handlers pool.now id table.now ≡ None) }
    ensures fault { IfErr result (λ e. Refuses e (misfits.handlers pool.now id table.now)) }
{
    let part = Part::Attribute(id, AttributePart::Handlers);
    write_counted(out, &HandlerWriter { pool, id }, part, table)
}

/// Writes arguments of the bootstrap method that is this part.
#[derive(Drop)]
struct ArgumentWriter<'p> {
    pool: &'p Pool,
    part: Part,
}

impl WriteItem for ArgumentWriter<'_> {
    ghost use Rattle.std.specs.Prelude.{◌≡◌, true};
    ghost use Rattle.class_model.specs.Attributes.{is_loadable};
    ghost use Rattle.class_model.specs.Constants.{constant_at, is_some_that};
    ghost use Rattle.class_model.specs.Spelling.{u2};
    ghost use Rattle.class_write.specs.Misfits as misfits;

    type Item = u16;

    ghost text = { λ s. u2 };

    ghost is_shaped = { λ s index. is_some_that is_loadable (constant_at s.pool.now index) ≡ true };

    ghost misfit = { λ s number. misfits.argument s.pool.now s.part };

    #[tactic(auto, using(crate::proofs::Faults::faults))]
    fn write(&self, out: &mut Vec<u8>, _number: u32, item: &u16) -> Result<(), WriteFault> {
        if !self.pool.is_loadable(*item) {
            return Err(WriteFault::BadShape(self.part));
        }
        put_u2(out, *item)?;
        Ok(())
    }
}

/// Writes bootstrap methods of the table that is this attribute.
#[derive(Drop)]
struct BootstrapWriter<'p> {
    pool: &'p Pool,
    id: AttributeId,
}

impl WriteItem for BootstrapWriter<'_> {
    ghost use Rattle.class_model.specs.Attributes.{IsBootstrap};
    ghost use Rattle.class_model.specs.Spelling.{bootstrap};
    ghost use Rattle.const_pool.specs.declared.write_fault.AttributePart.TheVariants as items;
    ghost use Rattle.class_write.specs.Misfits as misfits;

    type Item = Bootstrap;

    ghost text = { λ s. bootstrap };

    ghost is_shaped = { λ s. IsBootstrap s.pool.now };

    ghost misfit = { λ s number. misfits.bootstrap s.pool.now
        (misfits.at s.id (items.Bootstrap number)) };

    #[tactic(auto, using(crate::proofs::Faults::faults), unfolding(class_model::specs::Spelling::bootstrap, crate::specs::Misfits::bootstrap))]
    fn write(&self, out: &mut Vec<u8>, number: u32, item: &Bootstrap) -> Result<(), WriteFault> {
        let pool = self.pool;
        let part = Part::Attribute(self.id, AttributePart::Bootstrap(number));
        if !pool.is_handle(item.handle) {
            return Err(WriteFault::BadShape(part));
        }
        put_u2(out, item.handle)?;
        let arguments = item.arguments.as_slice();
        write_counted(out, &ArgumentWriter { pool, part }, part, arguments)?;
        Ok(())
    }
}

/// Writes the table of bootstrap methods that is this attribute.
fn put_bootstraps(
    out: &mut Vec<u8>,
    pool: &Pool,
    id: AttributeId,
    entries: &[Bootstrap],
) -> Result<(), WriteFault>
    ensures ok { OnOk result (out.new.items ≡ out.old.items
        ++ spelling.counted spelling.bootstrap entries.now) }
    ensures shaped { OnOk result (IsCounted (IsBootstrap pool.now) entries.now) }
    ensures none { OnOk result (misfits.bootstraps pool.now id entries.now ≡ None) }
    ensures fault { IfErr result (λ e. Refuses e (misfits.bootstraps pool.now id entries.now)) }
{
    let part = Part::Attribute(id, AttributePart::Bootstraps);
    write_counted(out, &BootstrapWriter { pool, id }, part, entries)
}

/// Writes the index of the constant of a field.
#[tactic(auto, using(crate::proofs::Faults::faults))]
fn put_value(
    out: &mut Vec<u8>,
    pool: &Pool,
    descriptor: &[u8],
    id: AttributeId,
    index: u16,
) -> Result<(), WriteFault>
    ensures ok { OnOk result (out.new.items ≡ out.old.items ++ spelling.u2 index) }
    ensures shaped { OnOk result
        (is_some_that (is_value_for descriptor.now) (constant_at pool.now index) ≡ true) }
    ensures none { OnOk result (misfits.value pool.now descriptor.now id index ≡ None) }
    ensures fault { IfErr result (λ e. Refuses e (misfits.value pool.now descriptor.now id index)) }
{
    if !pool.is_value_for(descriptor, index) {
        return Err(WriteFault::BadShape(Part::Attribute(id, AttributePart::Value)));
    }
    put_u2(out, index)?;
    Ok(())
}

fn put_bytes(out: &mut Vec<u8>, bytes: &[u8]) -> Result<(), WriteFault>
    ensures ok { OnOk result (out.new.items ≡ out.old.items ++ bytes.now) }
    ensures bytes { OnOk result (IsBytes bytes.now) }
    ensures memory { IsOkUnless result WriteFault.Memory }
{
    out.extend_from_slice(bytes)?;
    Ok(())
}

/// Writes the limits of code, and its bytes behind their number.
#[tactic(auto, using(crate::proofs::Faults::faults))]
pub(crate) fn put_code_bytes(
    out: &mut Vec<u8>,
    id: AttributeId,
    max_stack: u16,
    max_locals: u16,
    code: &[u8],
) -> Result<(), WriteFault>
    ensures ok { OnOk result (out.new.items ≡ out.old.items ++ spelling.u2 max_stack
        ++ spelling.u2 max_locals ++ spelling.u4 (length code.now) ++ code.now) }
    ensures some { OnOk result (misfits.is_code_length (length code.now) ≡ true) }
    ensures bytes { OnOk result (IsBytes code.now) }
    ensures fault { IfErr result (λ e. Refuses e (misfits.code_length id (length code.now))) }
{
    if code.is_empty() || code.len() > MOST_CODE as usize {
        return Err(WriteFault::BadShape(Part::Attribute(id, AttributePart::Code)));
    }
    put_u2(out, max_stack)?;
    put_u2(out, max_locals)?;
    put_u4(out, code.len() as u32)?;
    put_bytes(out, code)
}

/// Writes the content of an attribute that isn't code.
#[tactic(auto, using(crate::proofs::Faults::faults), unfolding(class_model::specs::Spelling::content_by))]
pub(crate) fn put_plain(
    out: &mut Vec<u8>,
    pool: &Pool,
    descriptor: &[u8],
    id: AttributeId,
    attribute: &Attribute,
) -> Result<(), WriteFault>
    ensures ok { OnOk result (out.new.items ≡ out.old.items
        ++ spelling.content_by spelling.no_attribute (out-Attribute attribute.now)) }
    ensures shaped { OnOk result
        (HasPlainContent pool.now descriptor.now (out-Attribute attribute.now)) }
    ensures none { OnOk result
        (misfits.plain pool.now descriptor.now id (out-Attribute attribute.now) ≡ None) }
    ensures fault { IfErr result
        (λ e. Refuses e (misfits.plain pool.now descriptor.now id (out-Attribute attribute.now))) }
{
    match attribute {
        Attribute::Code { .. } => Err(WriteFault::BadShape(Part::Attribute(
            id,
            AttributePart::Name,
        ))),
        Attribute::StackMap { frames, .. } => put_frames(out, pool, id, frames.as_slice()),
        Attribute::ConstantValue { value, .. } => put_value(out, pool, descriptor, id, *value),
        Attribute::Bootstrap { entries, .. } => put_bootstraps(out, pool, id, entries.as_slice()),
        Attribute::Annotations { list, .. } => put_annotations(out, pool, id, list.as_slice()),
        Attribute::Other { bytes, .. } => put_bytes(out, bytes.as_slice()),
    }
}
