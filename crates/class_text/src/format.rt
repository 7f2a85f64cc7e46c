//! The tags, names and limits that the reader and the writer of class files name.

ghost use Rattle.std.specs.Prelude.{◌≡◌};
ghost use Rattle.class_text.specs.Format.{object_tag, uninitialized_tag, same_locals_1_tag, reserved_tag, same_locals_1_extended_tag, same_extended_tag, append_tag, full_tag, oldest_major, newest_major, most_code, bootstrap_methods_name, constant_value_name, code_name, stack_map_table_name, visible_annotations_name, object_name};

/// The tag of the verification type of an object, behind which the index of its class stands (JVMS 4.7.4). A type of a lower
/// tag has nothing behind it.
pub const OBJECT_TAG: u8 = 7;

/// The tag of the type of an object that isn't initialized, behind which the offset of its `new` stands.
pub const UNINITIALIZED_TAG: u8 = 8;

/// The lowest tag of a frame with one stack item. A frame of a lower tag is the same as the one before, and its tag is
/// its delta.
pub const SAME_LOCALS_1_TAG: u8 = 64;

/// The lowest tag that no frame has.
pub const RESERVED_TAG: u8 = 128;

/// The tag of a frame with one stack item whose delta stands behind the tag, as it does in frames of higher tags. Those
/// of the tags that follow have fewer locals than the frame before.
pub const SAME_LOCALS_1_EXTENDED_TAG: u8 = 247;

/// The tag of a frame that is the same as the one before; so many tags above it a frame has so many locals more.
pub const SAME_EXTENDED_TAG: u8 = 251;

/// The lowest tag of a frame with more locals.
pub const APPEND_TAG: u8 = 252;

/// The tag of a frame that counts its locals and its stack items.
pub const FULL_TAG: u8 = 255;

/// The oldest major version of a class file (JVMS 4.1), that of Java 8.
pub const OLDEST_MAJOR: u16 = 52;

/// The newest one, that of Java 21.
pub const NEWEST_MAJOR: u16 = 65;

/// The most bytes of code (JVMS 4.7.3).
pub const MOST_CODE: u32 = 65535;

/// The names of the attributes whose content is read (JVMS 4.7).
pub const BOOTSTRAP_METHODS_NAME: &[u8] = b"BootstrapMethods";

pub const CONSTANT_VALUE_NAME: &[u8] = b"ConstantValue";

pub const CODE_NAME: &[u8] = b"Code";

pub const STACK_MAP_TABLE_NAME: &[u8] = b"StackMapTable";

pub const VISIBLE_ANNOTATIONS_NAME: &[u8] = b"RuntimeVisibleAnnotations";

/// The class that has no class above it.
pub const OBJECT_NAME: &[u8] = b"java/lang/Object";

/// The constants are the numbers and the names with which reading is defined.
pub fn format_law()
    ensures object_tag { OBJECT_TAG ≡ object_tag }
    ensures uninitialized_tag { UNINITIALIZED_TAG ≡ uninitialized_tag }
    ensures same_locals_1_tag { SAME_LOCALS_1_TAG ≡ same_locals_1_tag }
    ensures reserved_tag { RESERVED_TAG ≡ reserved_tag }
    ensures same_locals_1_extended_tag { SAME_LOCALS_1_EXTENDED_TAG ≡ same_locals_1_extended_tag }
    ensures same_extended_tag { SAME_EXTENDED_TAG ≡ same_extended_tag }
    ensures append_tag { APPEND_TAG ≡ append_tag }
    ensures full_tag { FULL_TAG ≡ full_tag }
    ensures oldest_major { OLDEST_MAJOR ≡ oldest_major }
    ensures newest_major { NEWEST_MAJOR ≡ newest_major }
    ensures most_code { MOST_CODE ≡ most_code }
    ensures bootstrap_methods_name { BOOTSTRAP_METHODS_NAME.now ≡ bootstrap_methods_name }
    ensures constant_value_name { CONSTANT_VALUE_NAME.now ≡ constant_value_name }
    ensures code_name { CODE_NAME.now ≡ code_name }
    ensures stack_map_table_name { STACK_MAP_TABLE_NAME.now ≡ stack_map_table_name }
    ensures visible_annotations_name { VISIBLE_ANNOTATIONS_NAME.now ≡ visible_annotations_name }
    ensures object_name { OBJECT_NAME.now ≡ object_name }
{}
