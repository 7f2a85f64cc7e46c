//! What of a class its hierarchy is made of.

ghost use Rattle.std.specs.Prelude.{◌≡◌, IfOk, map, filter_map, option_map};
ghost use Rattle.std.specs.Option.{ForSome};
ghost use Rattle.class_model.specs.Constants.{class_at, IsPool};
ghost use Rattle.class_model.specs.ModifiedUtf8.{IsName};
ghost use Rattle.class_model.specs.Shape.{Shaped};
ghost use Rattle.class_index.specs.Outlines.{member_outline, outline, outer_outline, outer_flags, HasNames};
ghost use Rattle.class_index.specs.Texts.{AreTexts};
ghost use Rattle.jvm_tables.specs.Externals.{said};

use crate::lists::push_some;
use crate::texts::{SharedText, Texts, no_texts, text_of};
use class_model::{Class, Constant, Member, Name, Pool};
use jvm_tables::ExternalRow;
use sqlite_items::Items;
use std::alloc::{AllocError, Global};

/// A field or method by its texts.
#[derive(Drop)]
pub struct MemberOutline {
    pub name: SharedText,
    pub descriptor: SharedText,
    pub flags: u16,
}

/// A class or interface by its texts: names have slashes.
#[derive(Drop)]
pub struct Outline {
    pub name: Name,
    pub super_class: Option<Name>,
    pub interfaces: Items<SharedText>,
    pub flags: u16,
    /// In file order, as the methods.
    pub fields: Items<MemberOutline>,
    pub methods: Items<MemberOutline>,
}

fn member_outline_of(
    alloc: Global,
    pool: &Pool,
    texts: &mut Texts,
    member: &Member,
) -> Result<MemberOutline, AllocError>
    requires { AreTexts pool.now texts.old.items }
    ensures value { IfOk result (λ found. found ≡ member_outline pool.now member.now) }
    ensures texts { AreTexts pool.now texts.new.items }
{
    let name = text_of(alloc, pool, texts, member.name)?;
    let descriptor = text_of(alloc, pool, texts, member.descriptor)?;
    Ok(MemberOutline {
        name,
        descriptor,
        flags: member.flags,
    })
}

fn member_outlines(
    alloc: Global,
    pool: &Pool,
    texts: &mut Texts,
    members: &[Member],
) -> Result<Items<MemberOutline>, AllocError>
    requires { AreTexts pool.now texts.old.items }
    ensures value { IfOk result (λ found. found ≡ map (member_outline pool.now) members.now) }
    ensures texts { AreTexts pool.now texts.new.items }
{
    let mut outlines = Items::new(alloc);
    for member in members {
        outlines.push(member_outline_of(alloc, pool, texts, member)?)?;
    }
    Ok(outlines)
}

fn class_name_of(alloc: Global, pool: &Pool, number: u16) -> Result<Option<Name>, AllocError>
    requires { IsPool pool.now }
    ensures { IfOk result (λ found. found ≡ class_at pool.now number) }
{
    match pool.class_name(number) {
        Some(text) => Ok(Some(Name::of_valid(alloc, text)?)),
        None => Ok(None),
    }
}

/// The name of a class, shared by all that have it.
#[tactic(auto, unfolding(class_model::specs::Constants::class_at))]
fn shared_class_name(
    alloc: Global,
    pool: &Pool,
    texts: &mut Texts,
    number: u16,
) -> Result<Option<SharedText>, AllocError>
    requires { AreTexts pool.now texts.old.items }
    ensures value { IfOk result (λ found. found ≡ class_at pool.now number) }
    ensures texts { AreTexts pool.now texts.new.items }
{
    let Some(Constant::Class(name)) = pool.constant(number) else {
        return Ok(None);
    };
    if pool.text(*name).is_none() {
        return Ok(None);
    }
    Ok(Some(text_of(alloc, pool, texts, *name)?))
}

#[tactic(auto, using(crate::proofs::Pushes::class_more))]
fn class_names(
    alloc: Global,
    pool: &Pool,
    texts: &mut Texts,
    numbers: &[u16],
) -> Result<Items<SharedText>, AllocError>
    requires { AreTexts pool.now texts.old.items }
    ensures value { IfOk result (λ found. found ≡ filter_map (class_at pool.now) numbers.now) }
    ensures texts { AreTexts pool.now texts.new.items }
{
    let mut names = Items::new(alloc);
    for number in numbers {
        let name = shared_class_name(alloc, pool, texts, *number)?;
        push_some(&mut names, name)?;
    }
    Ok(names)
}

pub(crate) fn outline_of(alloc: Global, class: &Class) -> Result<Outline, AllocError>
    requires { Shaped class.now }
    ensures { IfOk result (λ found. found ≡ outline class.now) }
{
    let name = Name::of_valid(alloc, class.name())?;
    let super_class = class_name_of(alloc, &class.pool, class.super_class)?;
    let mut texts = no_texts(alloc, &class.pool)?;
    let interfaces = class_names(alloc, &class.pool, &mut texts, class.interfaces.as_slice())?;
    let fields = member_outlines(alloc, &class.pool, &mut texts, class.fields.as_slice())?;
    let methods = member_outlines(alloc, &class.pool, &mut texts, class.methods.as_slice())?;
    Ok(Outline {
        name,
        super_class,
        interfaces,
        flags: class.flags,
        fields,
        methods,
    })
}

fn given_names(alloc: Global, texts: &[&'static str]) -> Result<Items<SharedText>, AllocError>
    ensures { IfOk result (λ found. found ≡ map (λ t. t.now) texts.now) }
{
    let mut names = Items::new(alloc);
    for text in texts {
        names.push(SharedText::copy_of(alloc, text.as_bytes())?)?;
    }
    Ok(names)
}

fn given_name(alloc: Global, text: Option<&'static str>) -> Result<Option<Name>, AllocError>
    requires { ForSome text (λ t. IsName t.now) }
    ensures { IfOk result (λ found. found ≡ option_map (λ t. t.now) text.entry) }
{
    match text {
        Some(text) => Ok(Some(Name::of_valid(alloc, text.as_bytes())?)),
        None => Ok(None),
    }
}

fn outer_flags(row: &ExternalRow) -> u16
    ensures { result ≡ outer_flags (said row.now).1 }
{
    let interface = if row.is_interface { 0x0200 } else { 0 };
    let of_abstract = if row.is_abstract { 0x0400 } else { 0 };
    interface + of_abstract
}

/// The outline of an external class. Its members are natives and stand in their own table.
pub(crate) fn outer_outline_of(alloc: Global, row: &ExternalRow) -> Result<Outline, AllocError>
    requires { HasNames (said row.now).1 }
    ensures { IfOk result (λ found. found ≡ outer_outline (said row.now).1) }
{
    let name = Name::of_valid(alloc, row.class.as_bytes())?;
    let super_class = given_name(alloc, row.super_class)?;
    let interfaces = given_names(alloc, row.interfaces)?;
    Ok(Outline {
        name,
        super_class,
        interfaces,
        flags: outer_flags(row),
        fields: Items::new(alloc),
        methods: Items::new(alloc),
    })
}
