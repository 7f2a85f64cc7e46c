//! Where attributes stand, and which of them were read there.

ghost use Rattle.std.specs.Prelude.{◌≡◌, ◌++◌, ◌∷◌, [], ◌&&◌, bytes_eq, codes, map, OnOk};
ghost use Rattle.class_model.specs.Attributes.{is_known, attribute_name};
ghost use Rattle.class_text.specs.Attributes.{is_first, own_name};
ghost use Rattle.class_read.specs.Stands.{stand_of, Keeps};

use class_model::{Attribute, Attributes};
use class_text::{
    BOOTSTRAP_METHODS_NAME, CODE_NAME, CONSTANT_VALUE_NAME, STACK_MAP_TABLE_NAME,
    VISIBLE_ANNOTATIONS_NAME,
};
use const_pool::{JudgedPool, items_with_room};
use std::alloc::{AllocError, Global};

/// What attributes stand in; of a field its descriptor.
#[derive(Clone, Copy)]
pub(crate) enum Stand<'a> {
    Class,
    Field(&'a [u8]),
    Method,
    Code,
}

/// The name that is known there alone.
pub(crate) fn own_name(stand: Stand<'_>) -> &'static [u8]
    ensures { result.now ≡ own_name (stand_of stand.entry) }
{
    match stand {
        Stand::Class => BOOTSTRAP_METHODS_NAME,
        Stand::Field(_) => CONSTANT_VALUE_NAME,
        Stand::Method => CODE_NAME,
        Stand::Code => STACK_MAP_TABLE_NAME,
    }
}

fn is_annotations(text: &[u8]) -> bool
    ensures { result ≡ bytes_eq text.now (codes "RuntimeVisibleAnnotations") }
{
    text == VISIBLE_ANNOTATIONS_NAME
}

#[tactic(auto, unfolding(class_model::specs::Attributes::is_known))]
pub(crate) fn is_known(stand: Stand<'_>, text: &[u8]) -> bool
    ensures { result ≡ is_known (stand_of stand.entry) text.now }
{
    match stand {
        Stand::Class => text == BOOTSTRAP_METHODS_NAME || is_annotations(text),
        Stand::Field(_) => text == CONSTANT_VALUE_NAME || is_annotations(text),
        Stand::Method => text == CODE_NAME || is_annotations(text),
        Stand::Code => text == STACK_MAP_TABLE_NAME,
    }
}

/// The attributes that were read so far, and whether the two known names are among theirs.
#[derive(Drop)]
pub(crate) struct SeenAttributes {
    pub(crate) list: Attributes,
    own: bool,
    annotations: bool,
}

impl SeenAttributes {
    ghost use Rattle.std.specs.Prelude.{◌≡◌, ◌++◌, ◌∷◌, [], bytes_eq, map, IfOk, OnOk};
    ghost use Rattle.class_model.specs.declared.constant_pool.Pool.{Pool};
    ghost use Rattle.class_model.specs.Attributes.{Place, is_known, attribute_name};
    ghost use Rattle.class_text.specs.Attributes.{is_first};
    ghost use Rattle.class_read.specs.Stands.{stand_of, Keeps};

    /// No attributes, with room for so many that stand at the front of bytes.
    pub(crate) fn new(alloc: Global, count: u16, bytes: &[u8]) -> Result<SeenAttributes, AllocError>
        ensures none { IfOk result (λ found. found.list ≡ []) }
        ensures keeps { IfOk result (λ found. (pool : Pool) (place : Place)
            → Keeps pool place found) }
    {
        let list = items_with_room(alloc, count, bytes.len(), 6)?;
        Ok(SeenAttributes {
            list,
            own: false,
            annotations: false,
        })
    }

    /// Whether no attribute of a known name stands there yet.
    pub(crate) fn is_first(&self, pool: &JudgedPool, stand: Stand<'_>, text: &[u8]) -> bool
        requires { Keeps pool.now (stand_of stand) self.now }
        ensures { result ≡ is_first (is_known (stand_of stand.entry)) bytes_eq
            (map (attribute_name pool.now) self.now.list) text.now }
    {
        if text == own_name(stand) {
            return !self.own;
        }
        if is_known(stand, text) {
            return !self.annotations;
        }
        true
    }

    pub(crate) fn push(
        &mut self,
        pool: &JudgedPool,
        stand: Stand<'_>,
        attribute: Attribute,
    ) -> Result<(), AllocError>
        requires { Keeps pool.now (stand_of stand) self.old }
        ensures list { OnOk result (self.new.list ≡ self.old.list ++ attribute ∷ []) }
        ensures keeps { OnOk result (Keeps pool.now (stand_of stand.entry) self.new) }
    {
        let text = pool.as_pool().text_or_empty(attribute.name());
        self.own = self.own || text == own_name(stand);
        self.annotations = self.annotations || is_annotations(text);
        self.list.push(attribute)
    }
}
