//! Class files of a task that is a constant.

ghost use Rattle.std.specs.Prelude.{◌≡◌};
ghost use Rattle.mill_top.specs.SmallFiles.{small_file, is_class_letter, is_task_letter, is_constant_opcode, is_small_within, is_small_file, small_of, constant};

/// The class file of `public class A { @Task(name="a") public static int a() { return 5; } }`, without a
/// constructor (JVMS 4.1). Three of its bytes are free: the class's name, the task's name, which is also the
/// method's, and the opcode of the constant.
pub const SMALL_TEMPLATE: [u8; 164] = [
    0xca, 0xfe, 0xba, 0xbe, 0x00, 0x00, 0x00, 0x34, 0x00, 0x0b, 0x01, 0x00, 0x01, 0x41, 0x07, 0x00,
    0x01, 0x01, 0x00, 0x10, 0x6a, 0x61, 0x76, 0x61, 0x2f, 0x6c, 0x61, 0x6e, 0x67, 0x2f, 0x4f, 0x62,
    0x6a, 0x65, 0x63, 0x74, 0x07, 0x00, 0x03, 0x01, 0x00, 0x01, 0x61, 0x01, 0x00, 0x03, 0x28, 0x29,
    0x49, 0x01, 0x00, 0x04, 0x43, 0x6f, 0x64, 0x65, 0x01, 0x00, 0x19, 0x52, 0x75, 0x6e, 0x74, 0x69,
    0x6d, 0x65, 0x56, 0x69, 0x73, 0x69, 0x62, 0x6c, 0x65, 0x41, 0x6e, 0x6e, 0x6f, 0x74, 0x61, 0x74,
    0x69, 0x6f, 0x6e, 0x73, 0x01, 0x00, 0x0b, 0x4c, 0x6d, 0x69, 0x6c, 0x6c, 0x2f, 0x54, 0x61, 0x73,
    0x6b, 0x3b, 0x01, 0x00, 0x04, 0x6e, 0x61, 0x6d, 0x65, 0x00, 0x21, 0x00, 0x02, 0x00, 0x04, 0x00,
    0x00, 0x00, 0x00, 0x00, 0x01, 0x00, 0x09, 0x00, 0x05, 0x00, 0x06, 0x00, 0x02, 0x00, 0x07, 0x00,
    0x00, 0x00, 0x0e, 0x00, 0x01, 0x00, 0x00, 0x00, 0x00, 0x00, 0x02, 0x08, 0xac, 0x00, 0x00, 0x00,
    0x00, 0x00, 0x08, 0x00, 0x00, 0x00, 0x0b, 0x00, 0x01, 0x00, 0x09, 0x00, 0x01, 0x00, 0x0a, 0x73,
    0x00, 0x05, 0x00, 0x00,
];

/// The offset of the class's name.
pub const CLASS_AT: usize = 13;

/// The offset of the task's name.
pub const TASK_AT: usize = 42;

/// The offset of the opcode of the constant that the task's method returns.
pub const OPCODE_AT: usize = 139;

/// Whether the byte is the name of a class, `A` to `Z`.
pub fn is_class_letter(c: u8) -> bool
    ensures { result ≡ is_class_letter c }
{
    c.is_ascii_uppercase()
}

/// Whether the byte is the name of a task, `a` to `z`.
pub fn is_task_letter(c: u8) -> bool
    ensures { result ≡ is_task_letter c }
{
    c.is_ascii_lowercase()
}

/// Whether the byte is one of `iconst_m1` to `iconst_5` (JVMS 6.5).
pub fn is_constant_opcode(opcode: u8) -> bool
    ensures { result ≡ is_constant_opcode opcode }
{
    (0x02..=0x08).contains(&opcode)
}

/// The int that such an instruction pushes.
pub fn constant(opcode: u8) -> i32
    ensures { result ≡ constant opcode }
{
    i32::from(opcode) - 3
}

/// A class file with the free bytes of `SMALL_TEMPLATE`.
#[derive(Clone, Copy, Debug, PartialEq, Eq)]
pub struct SmallFile {
    /// The class's name, `A` to `Z`.
    pub class: u8,
    /// The task's name, `a` to `z`.
    pub task: u8,
    /// `iconst_m1` to `iconst_5` (JVMS 6.5).
    pub opcode: u8,
}

impl SmallFile {
    /// The file of these bytes, or `None` where they are no such file.
    #[tactic(auto, unfolding(crate::specs::SmallFiles::small_of))]
    pub fn read(bytes: &[u8]) -> Option<SmallFile>
        ensures { result ≡ small_of bytes.now }
    {
        if bytes.len() != SMALL_TEMPLATE.len() {
            return None;
        }
        let file = SmallFile {
            class: bytes[CLASS_AT],
            task: bytes[TASK_AT],
            opcode: bytes[OPCODE_AT],
        };
        if file.is_file_of(bytes) {
            Some(file)
        } else {
            None
        }
    }

    #[tactic(auto, unfolding(crate::specs::SmallFiles::is_small_file))]
    fn is_file_of(&self, bytes: &[u8]) -> bool
        ensures { result ≡ is_small_file self.now bytes.now }
    {
        self.is_within() && bytes == self.bytes().as_slice()
    }

    fn is_within(&self) -> bool
        ensures { result ≡ is_small_within self.now }
    {
        is_class_letter(self.class) && is_task_letter(self.task) && is_constant_opcode(self.opcode)
    }

    #[tactic(auto, unfolding(crate::specs::SmallFiles::small_file))]
    fn bytes(&self) -> [u8; 164]
        ensures { result ≡ small_file self.now }
    {
        let mut bytes = SMALL_TEMPLATE;
        bytes[CLASS_AT] = self.class;
        bytes[TASK_AT] = self.task;
        bytes[OPCODE_AT] = self.opcode;
        bytes
    }
}
