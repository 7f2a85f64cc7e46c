//! What objects hold.

use crate::array_kind::ArrayKind;
use crate::slots::Slots;
use crate::units::Units;
use class_model::{ClassId, SiteId};
use sqlite_items::{Boxed, Items};
use tree_value::{Path, Text};

/// A reference to a tree: who made it, and where it lies there.
#[derive(Drop)]
pub struct PathReference {
    pub owner: Text,
    pub path: Path,
}

/// What an object holds. Objects are named by number, and 0 is null. Fields are those of all the object's classes, in
/// the order of its layout.
#[derive(Drop)]
pub enum Content {
    Plain {
        class: ClassId,
        fields: Slots,
    },
    Throwable {
        class: ClassId,
        fields: Slots,
        message: u32,
        cause: u32,
    },
    /// An object below `java/lang/Enum`.
    Enumerated {
        class: ClassId,
        fields: Slots,
        name: u32,
        ordinal: i32,
    },
    Array {
        kind: ArrayKind,
        elements: Slots,
    },
    /// A `java/lang/String`.
    Text {
        units: Units,
    },
    /// A `java/lang/Integer`.
    BoxedInt {
        value: i32,
    },
    /// A `java/lang/Long`.
    BoxedLong {
        value: i64,
    },
    /// A `java/lang/Boolean`.
    BoxedBoolean {
        value: bool,
    },
    /// An object of one of the classes of lists.
    Listed {
        class: ClassId,
        elements: Items<u32>,
    },
    /// A `java/lang/StringBuilder`.
    Builder {
        units: Units,
    },
    /// The list that it goes over, and the place of its next element.
    Iterator {
        list: u32,
        next: u32,
    },
    /// A `mill/PathRef`.
    PathReference {
        reference: Boxed<PathReference>,
    },
    /// A lambda's site, and the values that it captured.
    Lambda {
        site: SiteId,
        captured: Slots,
    },
}
