//! What the operands of an instruction say (JVMS 6.5).

ghost use Rattle.std.specs.Prelude.{◌≡◌, ◌<◌, ◌^◌, ◌||◌};
ghost use Rattle.jvm_tables.specs.Agreement.{names_local, increments};
ghost use Rattle.class_code.specs.Operands.{local_of};

use crate::constants::number_of;
use jvm_tables::{Form, Instr, OpRow};

fn names_its_local(form: Form) -> bool
    ensures { result ≡ (names_local form || increments form) }
{
    matches!(form, Form::Local | Form::LocalIncrement)
}

/// The local that an instruction reads, writes or increments, where it moves one.
pub fn local_of(row: &OpRow, instr: &Instr) -> usize
    ensures local { result ≡ local_of row.now instr.now }
    ensures small { result < 2 ^ 32 }
{
    if names_its_local(row.form) {
        number_of(instr.first)
    } else {
        number_of(i32::from(row.implied))
    }
}
