//! The table of instructions.

ghost use Rattle.std.specs.Prelude.{◌≡◌, IsTrue};
ghost use Rattle.jvm_tables.specs.Agreement.{agrees, same};
ghost use Rattle.jvm_tables.specs.ByOperation.{TakesAsTold, GivesAsTold, ReadsAsTold, WritesAsTold, FlowsAsTold, ThrowsAsTold, NamesAsTold, InitialisesAsTold};
ghost use Rattle.jvm_tables.specs.Numbering.{is_numbered};
ghost use Rattle.jvm_tables.specs.Operations.{is_float};
ghost use Rattle.jvm_tables.specs.OpcodeSpace.{is_told_from};
ghost use Rattle.jvm_tables.specs.Opcodes.{row_of, find_row, stands_from, every};
ghost use Rattle.jvm_tables.specs.Thrown.{thrown, are_throwables};

use crate::instruction::{ConstantUse, Flow, Form, OpRow, Operands, Operation, Throws, ValueKind};

/// An instruction that has no operand of the opcode's own, names no constant, touches no local,
/// goes on to the next one, throws nothing and initialises nothing.
const PLAIN: OpRow = OpRow {
    opcode: 0,
    operation: Operation::Nop,
    form: Form::Bare,
    length: 1,
    implied: 0,
    constant: ConstantUse::Nothing,
    takes: Operands::Nothing,
    gives: Operands::Nothing,
    reads: None,
    writes: None,
    flow: Flow::Next,
    throws: Throws::Nothing,
    initialises: false,
    takes_wide: false,
    is_float: false,
};

// opcode, operation, operand form, length, taken -> given, and what differs from PLAIN
macro_rules! row {
    ($opcode:literal, $operation:ident, $form:ident, $length:literal, $takes:ident $(($taken:literal))? -> $gives:ident $(($given:literal))? $(, $fact:ident: $value:expr)*) => {
        Some(OpRow {
            opcode: $opcode,
            operation: Operation::$operation,
            form: Form::$form,
            length: $length,
            takes: Operands::$takes $(($taken))?,
            gives: Operands::$gives $(($given))?,
            $($fact: $value,)*
            ..PLAIN
        })
    };
}

/// The rows of the opcodes 0x00 to 0xc8 (JVMS 6.5), each at its own place; `None` for an opcode
/// that no instruction has. Those from 0xc9 on are unknown too.
pub static OPCODES: [Option<OpRow>; 201] = [
    row!(0x00, Nop, Bare, 1, Nothing -> Nothing),
    row!(0x01, PushNull, Bare, 1, Nothing -> Reference),
    row!(0x02, PushInt, Bare, 1, Nothing -> Int, implied: -1),
    row!(0x03, PushInt, Bare, 1, Nothing -> Int),
    row!(0x04, PushInt, Bare, 1, Nothing -> Int, implied: 1),
    row!(0x05, PushInt, Bare, 1, Nothing -> Int, implied: 2),
    row!(0x06, PushInt, Bare, 1, Nothing -> Int, implied: 3),
    row!(0x07, PushInt, Bare, 1, Nothing -> Int, implied: 4),
    row!(0x08, PushInt, Bare, 1, Nothing -> Int, implied: 5),
    row!(0x09, PushLong, Bare, 1, Nothing -> Long),
    row!(0x0a, PushLong, Bare, 1, Nothing -> Long, implied: 1),
    row!(0x0b, Float, Bare, 1, Float -> Float, is_float: true),
    row!(0x0c, Float, Bare, 1, Float -> Float, implied: 1, is_float: true),
    row!(0x0d, Float, Bare, 1, Float -> Float, implied: 2, is_float: true),
    row!(0x0e, Float, Bare, 1, Float -> Float, is_float: true),
    row!(0x0f, Float, Bare, 1, Float -> Float, implied: 1, is_float: true),
    row!(0x10, PushInt, Byte, 2, Nothing -> Int),
    row!(0x11, PushInt, Short, 3, Nothing -> Int),
    row!(0x12, PushConstant, ByteConstant, 2, Nothing -> ByConstant, constant: ConstantUse::Loadable, throws: Throws::Constant),
    row!(0x13, PushConstant, Constant, 3, Nothing -> ByConstant, constant: ConstantUse::Loadable, throws: Throws::Constant),
    row!(0x14, PushLongConstant, Constant, 3, Nothing -> Long, constant: ConstantUse::LoadableLong),
    row!(0x15, LoadInt, Local, 2, Nothing -> Int, reads: Some(ValueKind::Int), takes_wide: true),
    row!(0x16, LoadLong, Local, 2, Nothing -> Long, reads: Some(ValueKind::Long), takes_wide: true),
    row!(0x17, Float, Local, 2, Float -> Float, is_float: true),
    row!(0x18, Float, Local, 2, Float -> Float, is_float: true),
    row!(0x19, LoadReference, Local, 2, Nothing -> Reference, reads: Some(ValueKind::Reference), takes_wide: true),
    row!(0x1a, LoadInt, Bare, 1, Nothing -> Int, reads: Some(ValueKind::Int)),
    row!(0x1b, LoadInt, Bare, 1, Nothing -> Int, implied: 1, reads: Some(ValueKind::Int)),
    row!(0x1c, LoadInt, Bare, 1, Nothing -> Int, implied: 2, reads: Some(ValueKind::Int)),
    row!(0x1d, LoadInt, Bare, 1, Nothing -> Int, implied: 3, reads: Some(ValueKind::Int)),
    row!(0x1e, LoadLong, Bare, 1, Nothing -> Long, reads: Some(ValueKind::Long)),
    row!(0x1f, LoadLong, Bare, 1, Nothing -> Long, implied: 1, reads: Some(ValueKind::Long)),
    row!(0x20, LoadLong, Bare, 1, Nothing -> Long, implied: 2, reads: Some(ValueKind::Long)),
    row!(0x21, LoadLong, Bare, 1, Nothing -> Long, implied: 3, reads: Some(ValueKind::Long)),
    row!(0x22, Float, Bare, 1, Float -> Float, is_float: true),
    row!(0x23, Float, Bare, 1, Float -> Float, implied: 1, is_float: true),
    row!(0x24, Float, Bare, 1, Float -> Float, implied: 2, is_float: true),
    row!(0x25, Float, Bare, 1, Float -> Float, implied: 3, is_float: true),
    row!(0x26, Float, Bare, 1, Float -> Float, is_float: true),
    row!(0x27, Float, Bare, 1, Float -> Float, implied: 1, is_float: true),
    row!(0x28, Float, Bare, 1, Float -> Float, implied: 2, is_float: true),
    row!(0x29, Float, Bare, 1, Float -> Float, implied: 3, is_float: true),
    row!(0x2a, LoadReference, Bare, 1, Nothing -> Reference, reads: Some(ValueKind::Reference)),
    row!(0x2b, LoadReference, Bare, 1, Nothing -> Reference, implied: 1, reads: Some(ValueKind::Reference)),
    row!(0x2c, LoadReference, Bare, 1, Nothing -> Reference, implied: 2, reads: Some(ValueKind::Reference)),
    row!(0x2d, LoadReference, Bare, 1, Nothing -> Reference, implied: 3, reads: Some(ValueKind::Reference)),
    row!(0x2e, LoadIntElement, Bare, 1, ReferenceInt -> Int, throws: Throws::ArrayAccess),
    row!(0x2f, LoadLongElement, Bare, 1, ReferenceInt -> Long, throws: Throws::ArrayAccess),
    row!(0x30, Float, Bare, 1, Float -> Float, throws: Throws::ArrayAccess, is_float: true),
    row!(0x31, Float, Bare, 1, Float -> Float, throws: Throws::ArrayAccess, is_float: true),
    row!(0x32, LoadReferenceElement, Bare, 1, ReferenceInt -> Reference, throws: Throws::ArrayAccess),
    row!(0x33, LoadByteElement, Bare, 1, ReferenceInt -> Int, throws: Throws::ArrayAccess),
    row!(0x34, LoadCharElement, Bare, 1, ReferenceInt -> Int, throws: Throws::ArrayAccess),
    row!(0x35, LoadShortElement, Bare, 1, ReferenceInt -> Int, throws: Throws::ArrayAccess),
    row!(0x36, StoreInt, Local, 2, Int -> Nothing, writes: Some(ValueKind::Int), takes_wide: true),
    row!(0x37, StoreLong, Local, 2, Long -> Nothing, writes: Some(ValueKind::Long), takes_wide: true),
    row!(0x38, Float, Local, 2, Float -> Float, is_float: true),
    row!(0x39, Float, Local, 2, Float -> Float, is_float: true),
    row!(0x3a, StoreReference, Local, 2, Reference -> Nothing, writes: Some(ValueKind::Reference), takes_wide: true),
    row!(0x3b, StoreInt, Bare, 1, Int -> Nothing, writes: Some(ValueKind::Int)),
    row!(0x3c, StoreInt, Bare, 1, Int -> Nothing, implied: 1, writes: Some(ValueKind::Int)),
    row!(0x3d, StoreInt, Bare, 1, Int -> Nothing, implied: 2, writes: Some(ValueKind::Int)),
    row!(0x3e, StoreInt, Bare, 1, Int -> Nothing, implied: 3, writes: Some(ValueKind::Int)),
    row!(0x3f, StoreLong, Bare, 1, Long -> Nothing, writes: Some(ValueKind::Long)),
    row!(0x40, StoreLong, Bare, 1, Long -> Nothing, implied: 1, writes: Some(ValueKind::Long)),
    row!(0x41, StoreLong, Bare, 1, Long -> Nothing, implied: 2, writes: Some(ValueKind::Long)),
    row!(0x42, StoreLong, Bare, 1, Long -> Nothing, implied: 3, writes: Some(ValueKind::Long)),
    row!(0x43, Float, Bare, 1, Float -> Float, is_float: true),
    row!(0x44, Float, Bare, 1, Float -> Float, implied: 1, is_float: true),
    row!(0x45, Float, Bare, 1, Float -> Float, implied: 2, is_float: true),
    row!(0x46, Float, Bare, 1, Float -> Float, implied: 3, is_float: true),
    row!(0x47, Float, Bare, 1, Float -> Float, is_float: true),
    row!(0x48, Float, Bare, 1, Float -> Float, implied: 1, is_float: true),
    row!(0x49, Float, Bare, 1, Float -> Float, implied: 2, is_float: true),
    row!(0x4a, Float, Bare, 1, Float -> Float, implied: 3, is_float: true),
    row!(0x4b, StoreReference, Bare, 1, Reference -> Nothing, writes: Some(ValueKind::Reference)),
    row!(0x4c, StoreReference, Bare, 1, Reference -> Nothing, implied: 1, writes: Some(ValueKind::Reference)),
    row!(0x4d, StoreReference, Bare, 1, Reference -> Nothing, implied: 2, writes: Some(ValueKind::Reference)),
    row!(0x4e, StoreReference, Bare, 1, Reference -> Nothing, implied: 3, writes: Some(ValueKind::Reference)),
    row!(0x4f, StoreIntElement, Bare, 1, ReferenceIntInt -> Nothing, throws: Throws::ArrayAccess),
    row!(0x50, StoreLongElement, Bare, 1, ReferenceIntLong -> Nothing, throws: Throws::ArrayAccess),
    row!(0x51, Float, Bare, 1, Float -> Float, throws: Throws::ArrayAccess, is_float: true),
    row!(0x52, Float, Bare, 1, Float -> Float, throws: Throws::ArrayAccess, is_float: true),
    row!(0x53, StoreReferenceElement, Bare, 1, ReferenceIntReference -> Nothing, throws: Throws::ArrayStore),
    row!(0x54, StoreByteElement, Bare, 1, ReferenceIntInt -> Nothing, throws: Throws::ArrayAccess),
    row!(0x55, StoreCharElement, Bare, 1, ReferenceIntInt -> Nothing, throws: Throws::ArrayAccess),
    row!(0x56, StoreShortElement, Bare, 1, ReferenceIntInt -> Nothing, throws: Throws::ArrayAccess),
    row!(0x57, Pop, Bare, 1, Slots(1) -> Nothing),
    row!(0x58, Pop2, Bare, 1, Slots(2) -> Nothing),
    row!(0x59, Dup, Bare, 1, Slots(1) -> Slots(2)),
    row!(0x5a, DupX1, Bare, 1, Slots(2) -> Slots(3)),
    row!(0x5b, DupX2, Bare, 1, Slots(3) -> Slots(4)),
    row!(0x5c, Dup2, Bare, 1, Slots(2) -> Slots(4)),
    row!(0x5d, Dup2X1, Bare, 1, Slots(3) -> Slots(5)),
    row!(0x5e, Dup2X2, Bare, 1, Slots(4) -> Slots(6)),
    row!(0x5f, Swap, Bare, 1, Slots(2) -> Slots(2)),
    row!(0x60, AddInt, Bare, 1, IntInt -> Int),
    row!(0x61, AddLong, Bare, 1, LongLong -> Long),
    row!(0x62, Float, Bare, 1, Float -> Float, is_float: true),
    row!(0x63, Float, Bare, 1, Float -> Float, is_float: true),
    row!(0x64, SubtractInt, Bare, 1, IntInt -> Int),
    row!(0x65, SubtractLong, Bare, 1, LongLong -> Long),
    row!(0x66, Float, Bare, 1, Float -> Float, is_float: true),
    row!(0x67, Float, Bare, 1, Float -> Float, is_float: true),
    row!(0x68, MultiplyInt, Bare, 1, IntInt -> Int),
    row!(0x69, MultiplyLong, Bare, 1, LongLong -> Long),
    row!(0x6a, Float, Bare, 1, Float -> Float, is_float: true),
    row!(0x6b, Float, Bare, 1, Float -> Float, is_float: true),
    row!(0x6c, DivideInt, Bare, 1, IntInt -> Int, throws: Throws::Division),
    row!(0x6d, DivideLong, Bare, 1, LongLong -> Long, throws: Throws::Division),
    row!(0x6e, Float, Bare, 1, Float -> Float, is_float: true),
    row!(0x6f, Float, Bare, 1, Float -> Float, is_float: true),
    row!(0x70, RemainderInt, Bare, 1, IntInt -> Int, throws: Throws::Division),
    row!(0x71, RemainderLong, Bare, 1, LongLong -> Long, throws: Throws::Division),
    row!(0x72, Float, Bare, 1, Float -> Float, is_float: true),
    row!(0x73, Float, Bare, 1, Float -> Float, is_float: true),
    row!(0x74, NegateInt, Bare, 1, Int -> Int),
    row!(0x75, NegateLong, Bare, 1, Long -> Long),
    row!(0x76, Float, Bare, 1, Float -> Float, is_float: true),
    row!(0x77, Float, Bare, 1, Float -> Float, is_float: true),
    row!(0x78, ShiftLeftInt, Bare, 1, IntInt -> Int),
    row!(0x79, ShiftLeftLong, Bare, 1, LongInt -> Long),
    row!(0x7a, ShiftRightInt, Bare, 1, IntInt -> Int),
    row!(0x7b, ShiftRightLong, Bare, 1, LongInt -> Long),
    row!(0x7c, UnsignedShiftRightInt, Bare, 1, IntInt -> Int),
    row!(0x7d, UnsignedShiftRightLong, Bare, 1, LongInt -> Long),
    row!(0x7e, AndInt, Bare, 1, IntInt -> Int),
    row!(0x7f, AndLong, Bare, 1, LongLong -> Long),
    row!(0x80, OrInt, Bare, 1, IntInt -> Int),
    row!(0x81, OrLong, Bare, 1, LongLong -> Long),
    row!(0x82, XorInt, Bare, 1, IntInt -> Int),
    row!(0x83, XorLong, Bare, 1, LongLong -> Long),
    row!(0x84, IncrementInt, LocalIncrement, 3, Nothing -> Nothing, reads: Some(ValueKind::Int), writes: Some(ValueKind::Int), takes_wide: true),
    row!(0x85, IntToLong, Bare, 1, Int -> Long),
    row!(0x86, Float, Bare, 1, Float -> Float, is_float: true),
    row!(0x87, Float, Bare, 1, Float -> Float, is_float: true),
    row!(0x88, LongToInt, Bare, 1, Long -> Int),
    row!(0x89, Float, Bare, 1, Float -> Float, is_float: true),
    row!(0x8a, Float, Bare, 1, Float -> Float, is_float: true),
    row!(0x8b, Float, Bare, 1, Float -> Float, is_float: true),
    row!(0x8c, Float, Bare, 1, Float -> Float, is_float: true),
    row!(0x8d, Float, Bare, 1, Float -> Float, is_float: true),
    row!(0x8e, Float, Bare, 1, Float -> Float, is_float: true),
    row!(0x8f, Float, Bare, 1, Float -> Float, is_float: true),
    row!(0x90, Float, Bare, 1, Float -> Float, is_float: true),
    row!(0x91, IntToByte, Bare, 1, Int -> Int),
    row!(0x92, IntToChar, Bare, 1, Int -> Int),
    row!(0x93, IntToShort, Bare, 1, Int -> Int),
    row!(0x94, CompareLong, Bare, 1, LongLong -> Int),
    row!(0x95, Float, Bare, 1, Float -> Float, is_float: true),
    row!(0x96, Float, Bare, 1, Float -> Float, is_float: true),
    row!(0x97, Float, Bare, 1, Float -> Float, is_float: true),
    row!(0x98, Float, Bare, 1, Float -> Float, is_float: true),
    row!(0x99, IfEq, Branch, 3, Int -> Nothing, flow: Flow::Branch),
    row!(0x9a, IfNe, Branch, 3, Int -> Nothing, flow: Flow::Branch),
    row!(0x9b, IfLt, Branch, 3, Int -> Nothing, flow: Flow::Branch),
    row!(0x9c, IfGe, Branch, 3, Int -> Nothing, flow: Flow::Branch),
    row!(0x9d, IfGt, Branch, 3, Int -> Nothing, flow: Flow::Branch),
    row!(0x9e, IfLe, Branch, 3, Int -> Nothing, flow: Flow::Branch),
    row!(0x9f, IfIntsEq, Branch, 3, IntInt -> Nothing, flow: Flow::Branch),
    row!(0xa0, IfIntsNe, Branch, 3, IntInt -> Nothing, flow: Flow::Branch),
    row!(0xa1, IfIntsLt, Branch, 3, IntInt -> Nothing, flow: Flow::Branch),
    row!(0xa2, IfIntsGe, Branch, 3, IntInt -> Nothing, flow: Flow::Branch),
    row!(0xa3, IfIntsGt, Branch, 3, IntInt -> Nothing, flow: Flow::Branch),
    row!(0xa4, IfIntsLe, Branch, 3, IntInt -> Nothing, flow: Flow::Branch),
    row!(0xa5, IfReferencesEq, Branch, 3, ReferenceReference -> Nothing, flow: Flow::Branch),
    row!(0xa6, IfReferencesNe, Branch, 3, ReferenceReference -> Nothing, flow: Flow::Branch),
    row!(0xa7, Goto, Branch, 3, Nothing -> Nothing, flow: Flow::Jump),
    None, // 0xa8
    None, // 0xa9
    row!(0xaa, TableSwitch, TableSwitch, 0, Int -> Nothing, flow: Flow::Switch),
    row!(0xab, LookupSwitch, LookupSwitch, 0, Int -> Nothing, flow: Flow::Switch),
    row!(0xac, ReturnInt, Bare, 1, Int -> Nothing, flow: Flow::Return),
    row!(0xad, ReturnLong, Bare, 1, Long -> Nothing, flow: Flow::Return),
    row!(0xae, Float, Bare, 1, Float -> Float, flow: Flow::Return, is_float: true),
    row!(0xaf, Float, Bare, 1, Float -> Float, flow: Flow::Return, is_float: true),
    row!(0xb0, ReturnReference, Bare, 1, Reference -> Nothing, flow: Flow::Return),
    row!(0xb1, Return, Bare, 1, Nothing -> Nothing, flow: Flow::Return),
    row!(0xb2, GetStatic, Constant, 3, Nothing -> ByConstant, constant: ConstantUse::Field, throws: Throws::Anything, initialises: true),
    row!(0xb3, PutStatic, Constant, 3, ByConstant -> Nothing, constant: ConstantUse::Field, throws: Throws::Anything, initialises: true),
    row!(0xb4, GetField, Constant, 3, Reference -> ByConstant, constant: ConstantUse::Field, throws: Throws::Field),
    row!(0xb5, PutField, Constant, 3, ReferenceByConstant -> Nothing, constant: ConstantUse::Field, throws: Throws::Field),
    row!(0xb6, InvokeVirtual, Constant, 3, ReferenceByConstant -> ByConstant, constant: ConstantUse::Method, throws: Throws::Anything),
    row!(0xb7, InvokeSpecial, Constant, 3, ReferenceByConstant -> ByConstant, constant: ConstantUse::AnyMethod, throws: Throws::Anything),
    row!(0xb8, InvokeStatic, Constant, 3, ByConstant -> ByConstant, constant: ConstantUse::AnyMethod, throws: Throws::Anything, initialises: true),
    row!(0xb9, InvokeInterface, InterfaceCall, 5, ReferenceByConstant -> ByConstant, constant: ConstantUse::InterfaceMethod, throws: Throws::Anything),
    row!(0xba, InvokeDynamic, CallSite, 5, ByConstant -> ByConstant, constant: ConstantUse::CallSite, throws: Throws::Anything),
    row!(0xbb, New, Constant, 3, Nothing -> Reference, constant: ConstantUse::Class, throws: Throws::Anything, initialises: true),
    row!(0xbc, NewArray, ElementType, 2, Int -> Reference, throws: Throws::NewArray),
    row!(0xbd, NewReferenceArray, Constant, 3, Int -> Reference, constant: ConstantUse::Class, throws: Throws::NewReferenceArray),
    row!(0xbe, ArrayLength, Bare, 1, Reference -> Int, throws: Throws::ArrayLength),
    row!(0xbf, Throw, Bare, 1, Reference -> Nothing, flow: Flow::Throw, throws: Throws::Anything),
    row!(0xc0, CheckCast, Constant, 3, Reference -> Reference, constant: ConstantUse::Class, throws: Throws::Cast),
    row!(0xc1, InstanceOf, Constant, 3, Reference -> Int, constant: ConstantUse::Class, throws: Throws::ClassTest),
    row!(0xc2, MonitorEnter, Bare, 1, Reference -> Nothing, throws: Throws::Monitor),
    row!(0xc3, MonitorExit, Bare, 1, Reference -> Nothing, throws: Throws::Monitor),
    row!(0xc4, Wide, Wide, 0, Nothing -> Nothing),
    row!(0xc5, NewMultiArray, Dimensions, 4, IntForEachDimension -> Reference, constant: ConstantUse::Class, throws: Throws::NewReferenceArray),
    row!(0xc6, IfNull, Branch, 3, Reference -> Nothing, flow: Flow::Branch),
    row!(0xc7, IfNonNull, Branch, 3, Reference -> Nothing, flow: Flow::Branch),
    row!(0xc8, Goto, WideBranch, 5, Nothing -> Nothing, flow: Flow::Jump),
];

/// The row of an opcode. `None` where no instruction has it.
#[tactic(auto, unfolding(crate::specs::Opcodes::row_of))]
pub fn op_row(op: u8) -> Option<OpRow>
    ensures { result ≡ row_of op }
{
    row_in(&OPCODES, op)
}

// Constant time: each row stands at its own opcode.
#[tactic(auto, using(crate::proofs::Rows::row_at, crate::proofs::Rows::row_past))]
fn row_in(rows: &[Option<OpRow>], op: u8) -> Option<OpRow>
    requires { IsTrue (stands_from 0 rows.now) }
    ensures { result ≡ find_row op rows.now }
{
    if (op as usize) < rows.len() {
        rows[op as usize]
    } else {
        None
    }
}

/// Each row stands at its own opcode, so no opcode has two.
pub fn opcodes_stand_once()
    ensures { IsTrue (stands_from 0 OPCODES) }
{}

/// Length, effects on locals and operand stack, constant and control flow of each row agree with its
/// operand form.
pub fn opcodes_agree_with_their_forms()
    ensures { IsTrue (every agrees OPCODES) }
{}

/// Each row that is no float use says what its operation does (JVMS 6.5): what it takes off the
/// operand stack and gives there, the local that it reads and writes, where control goes, what it
/// may throw, the constant that it names, and whether it initialises a class.
pub fn opcodes_do_as_their_operations()
    ensures takes { TakesAsTold }
    ensures gives { GivesAsTold }
    ensures reads { ReadsAsTold }
    ensures writes { WritesAsTold }
    ensures flows { FlowsAsTold }
    ensures throws { ThrowsAsTold }
    ensures names { NamesAsTold }
    ensures initialises { InitialisesAsTold }
{}

/// Each row has a form and the opcode of its operation, and implies the number or local by which its
/// opcode stands after the one that implies 0.
pub fn opcodes_are_numbered_by_their_operations()
    ensures { IsTrue (every is_numbered OPCODES) }
{}

/// Each opcode up to 200 has a row but for those of subroutines, and its row is float use exactly where the
/// opcode is one on floats or doubles.
pub fn opcodes_have_rows()
    ensures { IsTrue (is_told_from 0 OPCODES) }
{}

/// A row is float use where its operation is.
pub fn float_operations_are_float()
    ensures { IsTrue (every (λ row. same row.is_float (is_float row.operation)) OPCODES) }
{}

/// The classes that an instruction may throw are throwables of the table of external classes.
#[tactic(auto, unfolding(crate::specs::Externals::externals))]
pub fn thrown_classes_are_external()
    ensures { IsTrue (every (λ row. are_throwables (thrown row.throws)) OPCODES) }
{}
