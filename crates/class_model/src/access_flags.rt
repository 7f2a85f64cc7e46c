//! Access flags of classes and members (JVMS tables 4.1-B, 4.5-A and 4.6-A).

ghost use Rattle.std.specs.Prelude.{◌≡◌};
ghost use Rattle.class_model.specs.Shape.{has_flag, is_private, is_static, is_native, is_interface, is_abstract, is_bare, most_slots};

pub const ACC_PRIVATE: u16 = 0x0002;

pub const ACC_STATIC: u16 = 0x0008;

pub const ACC_NATIVE: u16 = 0x0100;

pub const ACC_INTERFACE: u16 = 0x0200;

pub const ACC_ABSTRACT: u16 = 0x0400;

pub fn has_flag(flags: u16, flag: u16) -> bool
    ensures { result ≡ has_flag flag flags }
{
    flags & flag != 0
}

pub fn is_private(flags: u16) -> bool
    ensures { result ≡ is_private flags }
{
    has_flag(flags, ACC_PRIVATE)
}

pub fn is_static(flags: u16) -> bool
    ensures { result ≡ is_static flags }
{
    has_flag(flags, ACC_STATIC)
}

pub fn is_native(flags: u16) -> bool
    ensures { result ≡ is_native flags }
{
    has_flag(flags, ACC_NATIVE)
}

pub fn is_interface(flags: u16) -> bool
    ensures { result ≡ is_interface flags }
{
    has_flag(flags, ACC_INTERFACE)
}

pub fn is_abstract(flags: u16) -> bool
    ensures { result ≡ is_abstract flags }
{
    has_flag(flags, ACC_ABSTRACT)
}

/// Whether a method is abstract or native, so that it has no code (JVMS 4.7.3).
pub fn is_bare(flags: u16) -> bool
    ensures { result ≡ is_bare flags }
{
    is_abstract(flags) || is_native(flags)
}

/// The slots that a method's parameters may take, without `this` (JVMS 4.3.3).
pub fn most_slots(flags: u16) -> u8
    ensures { result ≡ most_slots flags }
{
    if is_static(flags) { 255 } else { 254 }
}
