//! Class files of a task with one input.

ghost use Rattle.std.specs.Prelude.{◌≡◌};
ghost use Rattle.mill_top.specs.LinkedFiles.{linked_file, is_linked_within, is_linked_file, linked_of};

use crate::operation::Operation;
use crate::small_file::{CLASS_AT, TASK_AT, is_class_letter, is_constant_opcode, is_task_letter};

/// The class file of
/// `public class A { @Task(name="a", inputs={"b"}) public static int a(int b) { return b + 5; } }`, without a
/// constructor (JVMS 4.1). Five of its bytes are free: the class's name, the task's name, which is also the method's,
/// the input's name, the opcode of the constant, and that of the operation.
pub const LINKED_TEMPLATE: [u8; 188] = [
    0xca, 0xfe, 0xba, 0xbe, 0x00, 0x00, 0x00, 0x34, 0x00, 0x0d, 0x01, 0x00, 0x01, 0x41, 0x07, 0x00,
    0x01, 0x01, 0x00, 0x10, 0x6a, 0x61, 0x76, 0x61, 0x2f, 0x6c, 0x61, 0x6e, 0x67, 0x2f, 0x4f, 0x62,
    0x6a, 0x65, 0x63, 0x74, 0x07, 0x00, 0x03, 0x01, 0x00, 0x01, 0x61, 0x01, 0x00, 0x04, 0x28, 0x49,
    0x29, 0x49, 0x01, 0x00, 0x04, 0x43, 0x6f, 0x64, 0x65, 0x01, 0x00, 0x19, 0x52, 0x75, 0x6e, 0x74,
    0x69, 0x6d, 0x65, 0x56, 0x69, 0x73, 0x69, 0x62, 0x6c, 0x65, 0x41, 0x6e, 0x6e, 0x6f, 0x74, 0x61,
    0x74, 0x69, 0x6f, 0x6e, 0x73, 0x01, 0x00, 0x0b, 0x4c, 0x6d, 0x69, 0x6c, 0x6c, 0x2f, 0x54, 0x61,
    0x73, 0x6b, 0x3b, 0x01, 0x00, 0x04, 0x6e, 0x61, 0x6d, 0x65, 0x01, 0x00, 0x06, 0x69, 0x6e, 0x70,
    0x75, 0x74, 0x73, 0x01, 0x00, 0x01, 0x62, 0x00, 0x21, 0x00, 0x02, 0x00, 0x04, 0x00, 0x00, 0x00,
    0x00, 0x00, 0x01, 0x00, 0x09, 0x00, 0x05, 0x00, 0x06, 0x00, 0x02, 0x00, 0x07, 0x00, 0x00, 0x00,
    0x10, 0x00, 0x02, 0x00, 0x01, 0x00, 0x00, 0x00, 0x04, 0x1a, 0x08, 0x60, 0xac, 0x00, 0x00, 0x00,
    0x00, 0x00, 0x08, 0x00, 0x00, 0x00, 0x13, 0x00, 0x01, 0x00, 0x09, 0x00, 0x02, 0x00, 0x0a, 0x73,
    0x00, 0x05, 0x00, 0x0b, 0x5b, 0x00, 0x01, 0x73, 0x00, 0x0c, 0x00, 0x00,
];

/// The offset of the input's name.
pub const INPUT_AT: usize = 118;

/// The offset of the opcode of the constant.
pub const LINKED_OPCODE_AT: usize = 154;

/// The offset of the opcode of the operation.
pub const OPERATION_AT: usize = 155;

/// A class file with the free bytes of `LINKED_TEMPLATE`.
#[derive(Clone, Copy, Debug, PartialEq, Eq)]
pub struct LinkedFile {
    /// The class's name, `A` to `Z`.
    pub class: u8,
    /// The task's name, `a` to `z`.
    pub task: u8,
    /// The name of the task's input, `a` to `z`.
    pub input: u8,
    /// `iconst_m1` to `iconst_5` (JVMS 6.5), the right operand.
    pub opcode: u8,
    /// What is done with the input, the left operand.
    pub operation: Operation,
}

impl LinkedFile {
    /// The file of these bytes, or `None` where they are no such file.
    #[tactic(auto, unfolding(crate::specs::LinkedFiles::linked_of))]
    pub fn read(bytes: &[u8]) -> Option<LinkedFile>
        ensures { result ≡ linked_of bytes.now }
    {
        if bytes.len() != LINKED_TEMPLATE.len() {
            return None;
        }
        let file = LinkedFile {
            class: bytes[CLASS_AT],
            task: bytes[TASK_AT],
            input: bytes[INPUT_AT],
            opcode: bytes[LINKED_OPCODE_AT],
            operation: Operation::of(bytes[OPERATION_AT])?,
        };
        if file.is_file_of(bytes) {
            Some(file)
        } else {
            None
        }
    }

    #[tactic(auto, unfolding(crate::specs::LinkedFiles::is_linked_file))]
    fn is_file_of(&self, bytes: &[u8]) -> bool
        ensures { result ≡ is_linked_file self.now bytes.now }
    {
        self.is_within() && bytes == self.bytes().as_slice()
    }

    fn is_within(&self) -> bool
        ensures { result ≡ is_linked_within self.now }
    {
        is_class_letter(self.class)
            && is_task_letter(self.task)
            && is_task_letter(self.input)
            && is_constant_opcode(self.opcode)
    }

    #[tactic(auto, unfolding(crate::specs::LinkedFiles::linked_file))]
    fn bytes(&self) -> [u8; 188]
        ensures { result ≡ linked_file self.now }
    {
        let mut bytes = LINKED_TEMPLATE;
        bytes[CLASS_AT] = self.class;
        bytes[TASK_AT] = self.task;
        bytes[INPUT_AT] = self.input;
        bytes[LINKED_OPCODE_AT] = self.opcode;
        bytes[OPERATION_AT] = self.operation.opcode();
        bytes
    }
}
