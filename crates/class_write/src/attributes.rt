//! Attributes (JVMS 4.7).

ghost use Rattle.std.specs.Prelude.{◌≡◌, ◌++◌, ◌<◌, ◌≤◌, ◌^◌, ◌||◌, ℕ, List, [], true, false, take, length, None, OnOk, IfErr};
ghost use Rattle.std.specs.Str.{bytes_eq};
ghost use Rattle.std.specs.List.{list_any};
ghost use Rattle.class_model.specs.declared.attribute_forms.Attribute.{out-Attribute};
ghost use Rattle.class_model.specs.Attributes.{IsCodeAttribute, IsCodeAttributes, IsAttribute, IsAttributes, IsCode, is_known, attribute_name, in_code};
ghost use Rattle.class_model.specs.Shape.{is_code_layer};
ghost use Rattle.class_model.specs.Spelling as spelling;
ghost use Rattle.class_write.specs.Contents.{HasContent};
ghost use Rattle.class_write.specs.Misfits as misfits;
ghost use Rattle.class_write.specs.Misfits.{attribute_place};
ghost use Rattle.class_write.specs.Order.{Refuses};

use crate::contents::{put_code_bytes, put_handlers, put_plain};
use crate::item_lists::{WriteItem, write_counted};
use class_model::{Attribute, Handler, Pool};
use class_text::{
    BOOTSTRAP_METHODS_NAME, CODE_NAME, CONSTANT_VALUE_NAME, STACK_MAP_TABLE_NAME,
    VISIBLE_ANNOTATIONS_NAME,
};
use const_pool::{AttributeId, AttributePart, Holder, Part, WriteFault, put_u2, put_u4};
use std::alloc::Global;

/// The greatest length of a content that fits its field.
const GREATEST_CONTENT: usize = 4_294_967_295;

fn is_either(text: &[u8], one: &[u8], other: &[u8]) -> bool
    ensures { result ≡ (bytes_eq text.now one.now || bytes_eq text.now other.now) }
{
    text == one || text == other
}

/// Whether a name is known among the attributes of a holder.
#[tactic(auto, unfolding(class_model::specs::Attributes::is_known))]
fn is_known(holder: Holder, text: &[u8]) -> bool
    ensures { (descriptor : List ℕ)
        → result ≡ is_known (attribute_place holder descriptor) text.now }
{
    let annotations = VISIBLE_ANNOTATIONS_NAME;
    match holder {
        Holder::Class => is_either(text, BOOTSTRAP_METHODS_NAME, annotations),
        Holder::Field(_) => is_either(text, CONSTANT_VALUE_NAME, annotations),
        Holder::Method(_) => is_either(text, CODE_NAME, annotations),
        Holder::Code(_) => text == STACK_MAP_TABLE_NAME,
    }
}

fn is_method(holder: Holder) -> bool
    ensures { result ≡ misfits.is_method holder }
{
    match holder {
        Holder::Method(_) => true,
        _ => false,
    }
}

fn is_code(holder: Holder) -> bool
    ensures { result ≡ misfits.is_code holder }
{
    match holder {
        Holder::Code(_) => true,
        _ => false,
    }
}

fn is_field(holder: Holder) -> bool
    ensures { result ≡ misfits.is_field holder }
{
    match holder {
        Holder::Field(_) => true,
        _ => false,
    }
}

fn is_class(holder: Holder) -> bool
    ensures { result ≡ misfits.is_class holder }
{
    match holder {
        Holder::Class => true,
        _ => false,
    }
}

fn has_form(holder: Holder, attribute: &Attribute) -> bool
    ensures { result ≡ misfits.has_form holder (out-Attribute attribute.now) }
{
    match attribute {
        Attribute::Code { .. } => is_method(holder),
        Attribute::StackMap { .. } => is_code(holder),
        Attribute::ConstantValue { .. } => is_field(holder),
        Attribute::Bootstrap { .. } => is_class(holder),
        Attribute::Annotations { .. } => !is_code(holder),
        Attribute::Other { .. } => true,
    }
}

fn is_unknown(pool: &Pool, holder: Holder, number: u16) -> bool
    ensures { (descriptor : List ℕ)
        → result ≡ misfits.is_unknown pool.now (attribute_place holder descriptor) number }
{
    match pool.text(number) {
        Some(text) => !is_known(holder, text),
        None => false,
    }
}

fn has_name(pool: &Pool, holder: Holder, attribute: &Attribute) -> bool
    ensures { (descriptor : List ℕ)
        → result ≡ misfits.has_name pool.now (attribute_place holder descriptor)
        (out-Attribute attribute.now) }
{
    match attribute {
        Attribute::Code { name, .. } => pool.is_named(CODE_NAME, *name),
        Attribute::StackMap { name, .. } => pool.is_named(STACK_MAP_TABLE_NAME, *name),
        Attribute::ConstantValue { name, .. } => pool.is_named(CONSTANT_VALUE_NAME, *name),
        Attribute::Bootstrap { name, .. } => pool.is_named(BOOTSTRAP_METHODS_NAME, *name),
        Attribute::Annotations { name, .. } => { pool.is_named(VISIBLE_ANNOTATIONS_NAME, *name) }
        Attribute::Other { name, .. } => is_unknown(pool, holder, *name),
    }
}

/// Whether an attribute may stand among those of a holder. A method that is `bare` has no code.
#[tactic(auto, unfolding(crate::specs::Misfits::may_stand))]
fn may_stand(pool: &Pool, holder: Holder, bare: bool, attribute: &Attribute) -> bool
    ensures { (descriptor : List ℕ)
        → result ≡ misfits.may_stand pool.now holder descriptor bare (out-Attribute attribute.now) }
{
    if !has_form(holder, attribute) {
        return false;
    }
    if !has_name(pool, holder, attribute) {
        return false;
    }
    if !bare {
        return true;
    }
    !attribute.is_code()
}

fn attribute_name<'a>(pool: &'a Pool, attribute: &Attribute) -> &'a [u8]
    ensures { result.now ≡ attribute_name pool.now attribute.now }
{
    pool.text_or_empty(attribute.name())
}

/// Whether one of so many attributes has a name.
fn stands_among(pool: &Pool, list: &[Attribute], many: usize, name: &[u8]) -> bool
    ensures { result ≡ list_any (λ a. bytes_eq name.now (attribute_name pool.now a))
        (take many list.now) }
{
    list.iter()
        .take(many)
        .any(|a| name == attribute_name(pool, a))
}

/// Whether the known name of an attribute stands before it in a list.
fn is_second(
    pool: &Pool,
    holder: Holder,
    list: &[Attribute],
    number: usize,
    attribute: &Attribute,
) -> bool
    ensures { (descriptor : List ℕ)
        → misfits.is_second_of_name pool.now
        (attribute_place holder descriptor) list.now number attribute.now ≡ result }
{
    let name = attribute_name(pool, attribute);
    if !is_known(holder, name) {
        return false;
    }
    stands_among(pool, list, number, name)
}

/// Writes a name, the length of a content, and the content.
#[tactic(auto, using(crate::proofs::Faults::faults), unfolding(class_model::specs::Spelling::framed))]
fn put_framed(
    out: &mut Vec<u8>,
    id: AttributeId,
    name: u16,
    content: &[u8],
) -> Result<(), WriteFault>
    ensures ok { OnOk result (out.new.items ≡ out.old.items ++ spelling.framed name content.now) }
    ensures short { OnOk result (length content.now < 2 ^ 32) }
    ensures none { OnOk result (misfits.length_of id content.now ≡ None) }
    ensures fault { IfErr result (λ e. Refuses e (misfits.length_of id content.now)) }
{
    if content.len() > GREATEST_CONTENT {
        return Err(WriteFault::TooLarge(Part::Attribute(id, AttributePart::Length)));
    }
    put_u2(out, name)?;
    put_u4(out, content.len() as u32)?;
    out.extend_from_slice(content)?;
    Ok(())
}

/// Whether an attribute of this number may stand in a list of a holder. A method that is `bare` has no code.
#[tactic(auto, unfolding(crate::specs::Misfits::has_place))]
fn has_place(
    pool: &Pool,
    holder: Holder,
    bare: bool,
    list: &[Attribute],
    number: usize,
    attribute: &Attribute,
) -> bool
    ensures { (descriptor : List ℕ)
        → misfits.has_place pool.now holder descriptor bare list.now number attribute.now ≡ result }
{
    if !may_stand(pool, holder, bare, attribute) {
        return false;
    }
    !is_second(pool, holder, list, number, attribute)
}

/// Writes the attributes in a list, which are those of the code of a method.
#[derive(Drop)]
struct CodeAttributeWriter<'p> {
    alloc: Global,
    pool: &'p Pool,
    holder: Holder,
    list: &'p [Attribute],
}

impl WriteItem for CodeAttributeWriter<'_> {
    ghost use Rattle.std.specs.Prelude.{◌≡◌, true};
    ghost use Rattle.class_model.specs.Attributes.{IsCodeAttribute};
    ghost use Rattle.class_model.specs.Spelling.{code_attribute};
    ghost use Rattle.class_write.specs.Misfits as misfits;

    type Item = Attribute;

    ghost text = { λ s. code_attribute };

    ghost is_shaped = { λ s a. misfits.is_code s.holder ≡ true → IsCodeAttribute s.pool.now a };

    ghost misfit = { λ s. misfits.code_attribute_of s.pool.now s.holder s.list.now };

    #[tactic(auto, using(crate::proofs::Faults::faults), unfolding(crate::specs::Misfits::code_attribute_of, class_model::specs::Spelling::code_attribute))]
    fn write(&self, out: &mut Vec<u8>, number: u32, item: &Attribute) -> Result<(), WriteFault> {
        let id = AttributeId {
            holder: self.holder,
            number,
        };
        if !has_place(
            self.pool,
            self.holder,
            false,
            self.list,
            number as usize,
            item,
        ) {
            return Err(WriteFault::BadShape(Part::Attribute(id, AttributePart::Name)));
        }
        let mut content = Vec::new(self.alloc);
        put_plain(&mut content, self.pool, &[], id, item)?;
        put_framed(out, id, item.name(), content.as_slice())?;
        Ok(())
    }
}

/// Writes the attributes of the code of a method.
pub(crate) fn put_code_attributes(
    out: &mut Vec<u8>,
    alloc: Global,
    pool: &Pool,
    holder: Holder,
    list: &[Attribute],
) -> Result<(), WriteFault>
    requires { misfits.is_code holder ≡ true }
    ensures ok { OnOk result (out.new.items ≡ out.old.items
        ++ spelling.counted spelling.code_attribute list.now) }
    ensures shaped { OnOk result (IsCodeAttributes pool.now list.now) }
    ensures none { OnOk result (misfits.code_attributes pool.now holder list.now ≡ None) }
    ensures fault { IfErr result
        (λ e. Refuses e (misfits.code_attributes pool.now holder list.now)) }
{
    let writer = CodeAttributeWriter {
        alloc,
        pool,
        holder,
        list,
    };
    write_counted(out, &writer, Part::Attributes(holder), list)?;
    Ok(())
}

/// The code of a method.
fn code_of(holder: Holder) -> Holder
    ensures { result ≡ misfits.code_of holder }
{
    match holder {
        Holder::Method(number) => Holder::Code(number),
        other => other,
    }
}

/// The content of a code attribute (JVMS 4.7.3).
#[derive(Clone, Copy)]
struct Code<'a> {
    max_stack: u16,
    max_locals: u16,
    bytes: &'a [u8],
    table: &'a [Handler],
    attributes: &'a [Attribute],
}

/// Writes the code that is this attribute.
#[tactic(auto, using(crate::proofs::Faults::faults))]
fn put_code(
    out: &mut Vec<u8>,
    alloc: Global,
    pool: &Pool,
    id: AttributeId,
    code: Code<'_>,
) -> Result<(), WriteFault>
    requires { misfits.is_method id.holder ≡ true }
    ensures ok { OnOk result (out.new.items ≡ out.old.items
        ++ spelling.u2 code.entry.max_stack ++ spelling.u2 code.entry.max_locals
        ++ spelling.u4 (length code.entry.bytes.now) ++ code.entry.bytes.now
        ++ spelling.counted spelling.handler code.entry.table.now
        ++ spelling.counted spelling.code_attribute code.entry.attributes.now) }
    ensures shaped { OnOk result
        (IsCode (IsCodeAttributes pool.now) pool.now code.entry.max_stack code.entry.max_locals
        code.entry.bytes.now code.entry.table.now code.entry.attributes.now) }
    ensures none { OnOk result
        (misfits.code pool.now id code.entry.bytes.now code.entry.table.now
        code.entry.attributes.now ≡ None) }
    ensures fault { IfErr result
        (λ e. Refuses e (misfits.code pool.now id code.entry.bytes.now code.entry.table.now
        code.entry.attributes.now)) }
{
    put_code_bytes(out, id, code.max_stack, code.max_locals, code.bytes)?;
    put_handlers(out, pool, id, code.table)?;
    put_code_attributes(out, alloc, pool, code_of(id.holder), code.attributes)?;
    Ok(())
}

/// Writes the content of an attribute.
#[tactic(auto, using(crate::proofs::Faults::faults), unfolding(class_model::specs::Spelling::content_by))]
fn put_content(
    out: &mut Vec<u8>,
    alloc: Global,
    pool: &Pool,
    descriptor: &[u8],
    id: AttributeId,
    attribute: &Attribute,
) -> Result<(), WriteFault>
    requires { is_code_layer (out-Attribute attribute.now) ≡ true
        → misfits.is_method id.holder ≡ true }
    ensures ok { OnOk result (out.new.items ≡ out.old.items
        ++ spelling.content_by spelling.code_attribute (out-Attribute attribute.now)) }
    ensures shaped { OnOk result (HasContent (IsCodeAttributes pool.now) pool.now descriptor.now
        (out-Attribute attribute.now)) }
    ensures none { OnOk result
        (misfits.content pool.now descriptor.now id (out-Attribute attribute.now) ≡ None) }
    ensures fault { IfErr result
        (λ e. Refuses e (misfits.content pool.now descriptor.now id
        (out-Attribute attribute.now))) }
{
    match attribute {
        Attribute::Code {
            max_stack,
            max_locals,
            code,
            table,
            attributes,
            ..
        } => {
            let code = Code {
                max_stack: *max_stack,
                max_locals: *max_locals,
                bytes: code.as_slice(),
                table: table.as_slice(),
                attributes: attributes.as_slice(),
            };
            put_code(out, alloc, pool, id, code)
        }
        _ => {
            put_plain(out, pool, descriptor, id, attribute)?;
            Ok(())
        }
    }
}

/// What attributes stand in that aren't those of code.
#[derive(Clone, Copy)]
pub(crate) struct Stand<'a> {
    pub(crate) holder: Holder,
    /// Of a field its descriptor.
    pub(crate) descriptor: &'a [u8],
    /// A method that is bare has no code.
    pub(crate) bare: bool,
}

/// Writes the attributes in a list, which are those of a class, a field or a method.
#[derive(Drop)]
struct AttributeWriter<'p> {
    alloc: Global,
    pool: &'p Pool,
    stand: Stand<'p>,
    list: &'p [Attribute],
}

impl WriteItem for AttributeWriter<'_> {
    ghost use Rattle.class_model.specs.Attributes.{IsAttribute};
    ghost use Rattle.class_model.specs.Spelling.{attribute};
    ghost use Rattle.class_write.specs.Misfits as misfits;

    type Item = Attribute;

    ghost text = { λ s. attribute };

    ghost is_shaped = { λ s. IsAttribute s.pool.now
        (misfits.attribute_place s.stand.holder s.stand.descriptor.now) };

    ghost misfit = { λ s. misfits.attribute_of s.pool.now s.stand.holder s.stand.descriptor.now
        s.stand.bare s.list.now };

    #[tactic(auto, using(crate::proofs::Faults::faults), unfolding(crate::specs::Misfits::attribute_of, class_model::specs::Spelling::attribute))]
    fn write(&self, out: &mut Vec<u8>, number: u32, item: &Attribute) -> Result<(), WriteFault> {
        let Stand {
            holder,
            descriptor,
            bare,
        } = self.stand;
        let id = AttributeId { holder, number };
        if !has_place(self.pool, holder, bare, self.list, number as usize, item) {
            return Err(WriteFault::BadShape(Part::Attribute(id, AttributePart::Name)));
        }
        let mut content = Vec::new(self.alloc);
        put_content(&mut content, self.alloc, self.pool, descriptor, id, item)?;
        put_framed(out, id, item.name(), content.as_slice())?;
        Ok(())
    }
}

/// Writes the attributes of a class, a field or a method.
pub(crate) fn put_attributes(
    out: &mut Vec<u8>,
    alloc: Global,
    pool: &Pool,
    stand: Stand<'_>,
    list: &[Attribute],
) -> Result<(), WriteFault>
    ensures ok { OnOk result (out.new.items ≡ out.old.items
        ++ spelling.counted spelling.attribute list.now) }
    ensures shaped { OnOk result (IsAttributes pool.now
        (attribute_place stand.entry.holder stand.entry.descriptor.now) list.now) }
    ensures none { OnOk result
        (misfits.attributes pool.now stand.entry.holder stand.entry.descriptor.now stand.entry.bare
        list.now ≡ None) }
    ensures fault { IfErr result
        (λ e. Refuses e (misfits.attributes pool.now stand.entry.holder stand.entry.descriptor.now
        stand.entry.bare list.now)) }
{
    let writer = AttributeWriter {
        alloc,
        pool,
        stand,
        list,
    };
    write_counted(out, &writer, Part::Attributes(stand.holder), list)?;
    Ok(())
}
