//! The constant pool (JVMS 4.4).

use sqlite_items::Items;

/// A list of bytes.
pub type Raw = Items<u8>;

/// The constants of a pool, in order.
pub type Constants = Items<Constant>;

/// The constant pool of a class. Its constants are numbered from 1, and 0 names none.
#[derive(Debug, Drop)]
pub struct Pool {
    pub constants: Constants,
}

/// One constant. An index is the number of another constant of the pool.
#[derive(Debug, Drop)]
pub enum Constant {
    /// A text in modified UTF-8 (tag 1).
    Utf8(Raw),
    /// The 32 bits of an int (tag 3).
    Integer(u32),
    /// The 32 bits of a float (tag 4).
    Float(u32),
    /// The 64 bits of a long (tag 5). The number after it holds `Second`.
    Long(u64),
    /// The 64 bits of a double (tag 6). The number after it holds `Second`.
    Double(u64),
    /// A class or array class, by the index of its name (tag 7).
    Class(u16),
    /// A string, by the index of its text (tag 8).
    Text(u16),
    /// A field (tag 9), a method of a class (tag 10) or a method of an interface (tag 11).
    Ref { tag: u8, class: u16, name_type: u16 },
    /// The name and the descriptor of a field or method (tag 12).
    NameType { name: u16, descriptor: u16 },
    /// A method handle of a kind from 1 to 9 (tag 15).
    Handle { kind: u8, reference: u16 },
    /// A method type, by the index of its descriptor (tag 16).
    MethodType(u16),
    /// A dynamic call site: an entry of the table of bootstrap methods, from 0, and a name and type (tag 18).
    InvokeDynamic { bootstrap: u16, name_type: u16 },
    /// The second number of the Long or Double before it. It has no text.
    Second,
}

impl Pool {
    ghost use Rattle.std.specs.Prelude.{◌≡◌, [], option_copied, unwrap_or};
    ghost use Rattle.class_model.specs.Constants.{constant_at, text_at, class_at};

    /// The constant of a number, which is from 1.
    pub fn constant(&self, number: u16) -> Option<&Constant>
        ensures { option_copied result ≡ constant_at self.now number }
    {
        if number == 0 {
            return None;
        }
        self.constants.get(usize::from(number) - 1)
    }

    /// The text of the Utf8 constant of a number.
    #[tactic(auto, unfolding(crate::specs::Constants::text_at))]
    pub fn text(&self, number: u16) -> Option<&[u8]>
        ensures { option_copied result ≡ text_at self.now number }
    {
        match self.constant(number) {
            Some(Constant::Utf8(bytes)) => Some(bytes.as_slice()),
            _ => None,
        }
    }

    /// The same text, and nothing where there is none.
    pub fn text_or_empty(&self, number: u16) -> &[u8]
        ensures { result.now ≡ unwrap_or (text_at self.now number) [] }
    {
        match self.text(number) {
            Some(text) => text,
            None => &[],
        }
    }

    /// The name of the Class constant of a number, for an array class its descriptor.
    #[tactic(auto, unfolding(crate::specs::Constants::class_at))]
    pub fn class_name(&self, number: u16) -> Option<&[u8]>
        ensures { option_copied result ≡ class_at self.now number }
    {
        match self.constant(number) {
            Some(Constant::Class(name)) => self.text(*name),
            _ => None,
        }
    }
}
