//! The class file as a whole (JVMS 4.1).

ghost use Rattle.std.specs.Prelude.{◌≡◌, ◌++◌, ◌&&◌, ◌<◌, ◌≤◌, ◌^◌, [], true, nat_le, None, IfOk, OnOk, IfErr, IsOkUnless};
ghost use Rattle.class_model.specs.Annotations.{IsCounted};
ghost use Rattle.class_model.specs.Attributes.{IsAttributes, in_class};
ghost use Rattle.class_model.specs.Constants.{IsPool};
ghost use Rattle.class_model.specs.Shape.{Shaped, IsField, IsMethod, IsMembers, is_plain_class, has_super};
ghost use Rattle.class_model.specs.Spelling as spelling;
ghost use Rattle.const_pool.specs.Writing as pools;
ghost use Rattle.class_write.specs.ClassText as text;
ghost use Rattle.class_write.specs.Misfits as misfits;
ghost use Rattle.class_write.specs.Misfits.{misfit};
ghost use Rattle.class_write.specs.Order.{Refuses};

use crate::attributes::{Stand, put_attributes};
use crate::item_lists::{WriteItem, write_counted};
use crate::members::{put_fields, put_methods};
use class_model::{Class, MAGIC, Pool};
use class_text::{NEWEST_MAJOR, OBJECT_NAME, OLDEST_MAJOR};
use const_pool::{Holder, Part, WriteFault, put_u2, put_u4, write_pool};
use std::alloc::Global;
use tree_value::Bytes;

/// Writes the magic number and the versions.
#[tactic(auto, using(crate::proofs::Faults::faults))]
fn put_version(out: &mut Vec<u8>, class: &Class) -> Result<(), WriteFault>
    ensures ok { OnOk result (out.new.items ≡ out.old.items ++ text.version class.now) }
    ensures minor { OnOk result (class.now.minor < 2 ^ 16) }
    ensures oldest { OnOk result (52 ≤ class.now.major) }
    ensures newest { OnOk result (class.now.major ≤ 65) }
    ensures none { OnOk result (misfits.version class.now ≡ None) }
    ensures fault { IfErr result (λ e. Refuses e (misfits.version class.now)) }
{
    if class.major < OLDEST_MAJOR || class.major > NEWEST_MAJOR {
        return Err(WriteFault::BadShape(Part::Major));
    }
    put_u4(out, MAGIC)?;
    put_u2(out, class.minor)?;
    put_u2(out, class.major)?;
    Ok(())
}

fn put_pool(out: &mut Vec<u8>, alloc: Global, pool: &Pool) -> Result<(), WriteFault>
    ensures ok { OnOk result (out.new.items ≡ out.old.items ++ spelling.pool pool.now) }
    ensures shaped { OnOk result (IsPool pool.now) }
    ensures none { OnOk result (pools.misfit pool.now ≡ None) }
    ensures fault { IfErr result (λ e. Refuses e (pools.misfit pool.now)) }
{
    let bytes = write_pool(alloc, pool)?;
    out.extend_from_slice(bytes.as_slice())?;
    Ok(())
}

/// Whether the super class may stand there: 0 for `java/lang/Object` alone.
#[tactic(auto, unfolding(class_model::specs::Shape::has_super))]
fn has_super(class: &Class) -> bool
    ensures { result ≡ has_super class.now }
{
    if class.super_class == 0 {
        return class.name() == OBJECT_NAME;
    }
    class.pool.is_plain_class(class.super_class)
}

/// Writes the flags and the indices of the class and its super class.
#[tactic(auto, using(crate::proofs::Faults::faults))]
fn put_names(out: &mut Vec<u8>, class: &Class) -> Result<(), WriteFault>
    ensures ok { OnOk result (out.new.items ≡ out.old.items ++ text.names class.now) }
    ensures flags { OnOk result (class.now.flags < 2 ^ 16) }
    ensures this_class { OnOk result (is_plain_class class.now.pool class.now.this_class ≡ true) }
    ensures super_class { OnOk result (has_super class.now ≡ true) }
    ensures none { OnOk result (misfits.names class.now ≡ None) }
    ensures fault { IfErr result (λ e. Refuses e (misfits.names class.now)) }
{
    if !class.pool.is_plain_class(class.this_class) {
        return Err(WriteFault::BadShape(Part::ThisClass));
    }
    if !has_super(class) {
        return Err(WriteFault::BadShape(Part::SuperClass));
    }
    put_u2(out, class.flags)?;
    put_u2(out, class.this_class)?;
    put_u2(out, class.super_class)?;
    Ok(())
}

/// Writes interfaces.
#[derive(Drop)]
struct InterfaceWriter<'p> {
    pool: &'p Pool,
}

impl WriteItem for InterfaceWriter<'_> {
    ghost use Rattle.std.specs.Prelude.{◌≡◌, true};
    ghost use Rattle.class_model.specs.Shape.{is_plain_class};
    ghost use Rattle.class_model.specs.Spelling.{u2};
    ghost use Rattle.class_write.specs.Misfits as misfits;

    type Item = u16;

    ghost text = { λ s. u2 };

    ghost is_shaped = { λ s index. is_plain_class s.pool.now index ≡ true };

    ghost misfit = { λ s. misfits.interface s.pool.now };

    #[tactic(auto, using(crate::proofs::Faults::faults))]
    fn write(&self, out: &mut Vec<u8>, number: u32, item: &u16) -> Result<(), WriteFault> {
        if !self.pool.is_plain_class(*item) {
            return Err(WriteFault::BadShape(Part::Interface(number)));
        }
        put_u2(out, *item)?;
        Ok(())
    }
}

/// Writes the interfaces behind their count.
fn put_interfaces(out: &mut Vec<u8>, pool: &Pool, interfaces: &[u16]) -> Result<(), WriteFault>
    ensures ok { OnOk result (out.new.items ≡ out.old.items
        ++ spelling.counted spelling.u2 interfaces.now) }
    ensures shaped { OnOk result
        (IsCounted (λ index. is_plain_class pool.now index ≡ true) interfaces.now) }
    ensures none { OnOk result (misfits.interfaces pool.now interfaces.now ≡ None) }
    ensures fault { IfErr result (λ e. Refuses e (misfits.interfaces pool.now interfaces.now)) }
{
    write_counted(out, &InterfaceWriter { pool }, Part::Interfaces, interfaces)
}

/// Writes what stands before the interfaces.
#[tactic(auto, using(crate::proofs::Faults::faults))]
fn put_head(out: &mut Vec<u8>, alloc: Global, class: &Class) -> Result<(), WriteFault>
    ensures ok { OnOk result (out.new.items ≡ out.old.items ++ text.version class.now
        ++ spelling.pool class.now.pool ++ text.names class.now) }
    ensures shaped { OnOk result (text.IsHead class.now) }
    ensures none { OnOk result (misfits.head class.now ≡ None) }
    ensures fault { IfErr result (λ e. Refuses e (misfits.head class.now)) }
{
    put_version(out, class)?;
    put_pool(out, alloc, &class.pool)?;
    put_names(out, class)?;
    Ok(())
}

/// Writes the interfaces and what stands behind them.
#[tactic(auto, using(crate::proofs::Faults::faults))]
fn put_lists(out: &mut Vec<u8>, alloc: Global, class: &Class) -> Result<(), WriteFault>
    ensures ok { OnOk result (out.new.items ≡ out.old.items ++ text.lists class.now) }
    ensures interfaces { OnOk result
        (IsCounted (λ index. is_plain_class class.now.pool index ≡ true) class.now.interfaces) }
    ensures fields { OnOk result
        (IsMembers (IsField class.now.pool) class.now.pool class.now.fields) }
    ensures methods { OnOk result
        (IsMembers (IsMethod class.now.pool) class.now.pool class.now.methods) }
    ensures attributes { OnOk result (IsAttributes class.now.pool in_class class.now.attributes) }
    ensures none { OnOk result (misfits.lists_of class.now ≡ None) }
    ensures fault { IfErr result (λ e. Refuses e (misfits.lists_of class.now)) }
{
    let pool = &class.pool;
    put_interfaces(out, pool, class.interfaces.as_slice())?;
    put_fields(out, alloc, pool, class.fields.as_slice())?;
    put_methods(out, alloc, pool, class.methods.as_slice())?;
    let stand = Stand {
        holder: Holder::Class,
        descriptor: &[],
        bare: false,
    };
    put_attributes(out, alloc, pool, stand, class.attributes.as_slice())?;
    Ok(())
}

/// The bytes of a class file. A refusal names the first part in file order that has no text: `TooLarge` where a count or
/// a length doesn't fit its field, else `BadShape`. Of an attribute the content comes before its length, since only a
/// content with a text has one.
pub fn write_class(alloc: Global, class: &Class) -> Result<Bytes, WriteFault>
    ensures written { IfOk result (λ bytes. Shaped class.now × (bytes ≡ spelling.class class.now)) }
    ensures only { Shaped class.now → IsOkUnless result WriteFault.Memory }
    ensures fault { IfErr result (λ e. Refuses e (misfit class.now)) }
{
    let mut out = Vec::new(alloc);
    put_head(&mut out, alloc, class)?;
    put_lists(&mut out, alloc, class)?;
    Ok(Bytes::from_vec(out))
}
