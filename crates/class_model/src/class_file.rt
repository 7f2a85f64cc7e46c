//! The class file and its members (JVMS 4.1, 4.5 and 4.6).

ghost use Rattle.std.specs.Prelude.{◌≡◌};

use crate::attribute_forms::Attributes;
use crate::constant_pool::Pool;
use sqlite_items::Items;

/// The first four bytes of a class file.
pub const MAGIC: u32 = 0xcafe_babe;

/// Indices into a pool.
pub type Indices = Items<u16>;

/// The fields or the methods of a class, in file order.
pub type Members = Items<Member>;

/// A class or interface, as its file has it.
#[derive(Debug, Drop)]
pub struct Class {
    pub minor: u16,
    pub major: u16,
    pub pool: Pool,
    pub flags: u16,
    pub this_class: u16,
    /// 0 where there is none.
    pub super_class: u16,
    pub interfaces: Indices,
    pub fields: Members,
    pub methods: Members,
    pub attributes: Attributes,
}

/// A field or a method.
#[derive(Debug, Drop)]
pub struct Member {
    pub flags: u16,
    pub name: u16,
    pub descriptor: u16,
    pub attributes: Attributes,
}

impl Class {
    ghost use Rattle.class_model.specs.Shape.{class_name};

    /// The name of the class: the text of its this_class constant, and empty where there is none.
    #[tactic(auto, unfolding(crate::specs::Shape::class_name))]
    pub fn name(&self) -> &[u8]
        ensures { result.now ≡ class_name self.now }
    {
        match self.pool.class_name(self.this_class) {
            Some(text) => text,
            None => &[],
        }
    }
}
