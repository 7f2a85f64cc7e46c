//! The numbers that instructions push by themselves.

ghost use Rattle.std.specs.Prelude.{◌≡◌};
ghost use Rattle.jvm_tables.specs.Opcodes.{row_of};
ghost use Rattle.jvm_tables.specs.Pushed.{pushed};

use crate::code::Instr;
use crate::instruction::{Form, Operation};
use crate::opcodes::op_row;

/// A number with its kind.
#[derive(Clone, Copy, Debug, PartialEq, Eq, Drop)]
pub enum PushedNumber {
    Int(i32),
    Long(i64),
}

/// The number that an instruction pushes without a constant of the pool: the one that its opcode
/// implies, or its operand (JVMS 6.5, iconst_<i>, lconst_<l>, bipush, sipush). `None` for others.
pub fn pushed_number(instr: &Instr) -> Option<PushedNumber>
    ensures { result ≡ pushed (row_of instr.now.op) instr.now }
{
    let row = op_row(instr.op)?;
    let number = match row.form {
        Form::Bare => i32::from(row.implied),
        _ => instr.first,
    };
    match row.operation {
        Operation::PushInt => Some(PushedNumber::Int(number)),
        Operation::PushLong => Some(PushedNumber::Long(i64::from(number))),
        _ => None,
    }
}
