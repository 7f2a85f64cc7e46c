//! Fields and methods (JVMS 4.5 and 4.6).

ghost use Rattle.std.specs.Prelude.{◌≡◌, ◌++◌, ◌∷◌, [], ◌<◌, ◌^◌, List, false, slice_index_or, None, IfOk, OnOk, IfErr, IsOkUnless};
ghost use Rattle.std.specs.List.{list_any};
ghost use Rattle.class_model.specs.declared.class_file.Member.{Member};
ghost use Rattle.class_model.specs.Shape.{IsField, IsMethod, IsMembers, are_same};
ghost use Rattle.class_model.specs.Spelling as spelling;
ghost use Rattle.const_pool.specs.SeenMembers.{HasSeen};
ghost use Rattle.class_write.specs.Misfits as misfits;
ghost use Rattle.class_write.specs.Order.{Refuses};

use crate::attributes::{Stand, put_attributes};
use crate::item_lists::{WriteItem, write_counted};
use class_model::{Member, Pool, has_code, is_bare, most_slots};
use const_pool::{Holder, MemberKeys, MemberPart, Part, WriteFault, put_u2};
use sqlite_items::Items;
use std::alloc::Global;

/// Enters a member behind those before it, and tells whether one of them has its name and descriptor.
fn enter<'a>(seen: &mut MemberKeys<'a>, pool: &'a Pool, member: &Member) -> Result<bool, WriteFault>
    ensures double { (before : List Member) → HasSeen pool.now before seen.old
        → IfOk result (λ double. list_any (are_same pool.now member.now) before ≡ double) }
    ensures seen { (before : List Member) → HasSeen pool.now before seen.old
        → OnOk result (HasSeen pool.now (before ++ member.now ∷ []) seen.new) }
    ensures memory { IsOkUnless result WriteFault.Memory }
{
    let added = seen.insert(pool, member.name, member.descriptor)?;
    Ok(!added)
}

/// Tells of each member whether an earlier one has its name and descriptor.
fn doubles(alloc: Global, pool: &Pool, members: &[Member]) -> Result<Items<bool>, WriteFault>
    ensures doubles { IfOk result (λ doubles. doubles ≡ misfits.doubles pool.now members.now) }
    ensures memory { IsOkUnless result WriteFault.Memory }
{
    let mut seen = MemberKeys::new(alloc);
    let mut doubles = Items::new(alloc);
    for i in 0..members.len() {
        let double = enter(&mut seen, pool, &members[i])?;
        doubles.push(double)?;
    }
    Ok(doubles)
}

/// What is told of the member of a number.
fn told(doubles: &[bool], number: u32) -> bool
    ensures { result ≡ slice_index_or doubles.now number false }
{
    let number = number as usize;
    if number < doubles.len() {
        return doubles[number];
    }
    false
}

/// Writes the flags, the name and the descriptor.
fn put_head(out: &mut Vec<u8>, member: &Member) -> Result<(), WriteFault>
    ensures ok { OnOk result (out.new.items ≡ out.old.items ++ spelling.u2 member.now.flags
        ++ spelling.u2 member.now.name ++ spelling.u2 member.now.descriptor) }
    ensures flags { OnOk result (member.now.flags < 2 ^ 16) }
    ensures memory { IsOkUnless result WriteFault.Memory }
{
    put_u2(out, member.flags)?;
    put_u2(out, member.name)?;
    put_u2(out, member.descriptor)?;
    Ok(())
}

/// Writes fields, of each of which it is told whether it is a double.
#[derive(Drop)]
struct FieldWriter<'p> {
    alloc: Global,
    pool: &'p Pool,
    doubles: &'p [bool],
}

impl WriteItem for FieldWriter<'_> {
    ghost use Rattle.std.specs.Prelude.{false, slice_index_or};
    ghost use Rattle.class_model.specs.Shape.{IsField};
    ghost use Rattle.class_model.specs.Spelling.{member};
    ghost use Rattle.class_write.specs.Misfits as misfits;

    type Item = Member;

    ghost text = { λ s. member };

    ghost is_shaped = { λ s. IsField s.pool.now };

    ghost misfit = { λ s number. misfits.field s.pool.now
        (slice_index_or s.doubles.now number false) number };

    #[tactic(auto, using(crate::proofs::Faults::faults), unfolding(crate::specs::Misfits::field, class_model::specs::Spelling::member))]
    fn write(&self, out: &mut Vec<u8>, number: u32, item: &Member) -> Result<(), WriteFault> {
        let pool = self.pool;
        if !pool.is_field_name(item.name) {
            return Err(WriteFault::BadShape(Part::Field(number, MemberPart::Name)));
        }
        if !pool.is_field_type(item.descriptor) || told(self.doubles, number) {
            return Err(WriteFault::BadShape(Part::Field(number, MemberPart::Descriptor)));
        }
        put_head(out, item)?;
        let stand = Stand {
            holder: Holder::Field(number),
            descriptor: pool.text_or_empty(item.descriptor),
            bare: false,
        };
        put_attributes(out, self.alloc, pool, stand, item.attributes.as_slice())?;
        Ok(())
    }
}

/// Writes the fields behind their count.
pub(crate) fn put_fields(
    out: &mut Vec<u8>,
    alloc: Global,
    pool: &Pool,
    fields: &[Member],
) -> Result<(), WriteFault>
    ensures ok { OnOk result (out.new.items ≡ out.old.items
        ++ spelling.counted spelling.member fields.now) }
    ensures shaped { OnOk result (IsMembers (IsField pool.now) pool.now fields.now) }
    ensures none { OnOk result (misfits.fields pool.now fields.now ≡ None) }
    ensures fault { IfErr result (λ e. Refuses e (misfits.fields pool.now fields.now)) }
{
    let doubles = doubles(alloc, pool, fields)?;
    let writer = FieldWriter {
        alloc,
        pool,
        doubles: doubles.as_slice(),
    };
    write_counted(out, &writer, Part::Fields, fields)?;
    Ok(())
}

fn has_its_code(method: &Member) -> bool
    ensures { result ≡ misfits.has_its_code method.now }
{
    let has = has_code(method.attributes.as_slice());
    if is_bare(method.flags) { !has } else { has }
}

/// Writes methods, of each of which it is told whether it is a double.
#[derive(Drop)]
struct MethodWriter<'p> {
    alloc: Global,
    pool: &'p Pool,
    doubles: &'p [bool],
}

impl WriteItem for MethodWriter<'_> {
    ghost use Rattle.std.specs.Prelude.{false, slice_index_or};
    ghost use Rattle.class_model.specs.Shape.{IsMethod};
    ghost use Rattle.class_model.specs.Spelling.{member};
    ghost use Rattle.class_write.specs.Misfits as misfits;

    type Item = Member;

    ghost text = { λ s. member };

    ghost is_shaped = { λ s. IsMethod s.pool.now };

    ghost misfit = { λ s number. misfits.method s.pool.now
        (slice_index_or s.doubles.now number false) number };

    #[tactic(auto, using(crate::proofs::Faults::faults), unfolding(crate::specs::Misfits::method, class_model::specs::Spelling::member))]
    fn write(&self, out: &mut Vec<u8>, number: u32, item: &Member) -> Result<(), WriteFault> {
        let pool = self.pool;
        if !pool.is_method_name(item.name) {
            return Err(WriteFault::BadShape(Part::Method(number, MemberPart::Name)));
        }
        let slots = most_slots(item.flags);
        if !pool.is_method_type(slots, item.descriptor) || told(self.doubles, number) {
            return Err(WriteFault::BadShape(Part::Method(number, MemberPart::Descriptor)));
        }
        put_head(out, item)?;
        let stand = Stand {
            holder: Holder::Method(number),
            descriptor: &[],
            bare: is_bare(item.flags),
        };
        put_attributes(out, self.alloc, pool, stand, item.attributes.as_slice())?;
        if !has_its_code(item) {
            return Err(WriteFault::BadShape(Part::Method(number, MemberPart::Code)));
        }
        Ok(())
    }
}

/// Writes the methods behind their count.
pub(crate) fn put_methods(
    out: &mut Vec<u8>,
    alloc: Global,
    pool: &Pool,
    methods: &[Member],
) -> Result<(), WriteFault>
    ensures ok { OnOk result (out.new.items ≡ out.old.items
        ++ spelling.counted spelling.member methods.now) }
    ensures shaped { OnOk result (IsMembers (IsMethod pool.now) pool.now methods.now) }
    ensures none { OnOk result (misfits.methods pool.now methods.now ≡ None) }
    ensures fault { IfErr result (λ e. Refuses e (misfits.methods pool.now methods.now)) }
{
    let doubles = doubles(alloc, pool, methods)?;
    let writer = MethodWriter {
        alloc,
        pool,
        doubles: doubles.as_slice(),
    };
    write_counted(out, &writer, Part::Methods, methods)?;
    Ok(())
}
