//! Answers to one question on each constant of a pool.

ghost use Rattle.std.specs.Prelude.{◌≡◌};
ghost use Rattle.class_code.specs.Flags.{flag_at, flag_of};

use crate::constants::number_of;
use jvm_tables::Instr;
use sqlite_items::Items;

/// An answer for each constant of a pool, in order.
pub type Flags = Items<bool>;

/// The answer for the constant of a number, false where there is none.
fn flag_at(flags: &Flags, number: usize) -> bool
    ensures { result ≡ flag_at flags.now number }
{
    if number == 0 {
        return false;
    }
    match flags.get(number - 1) {
        Some(flag) => *flag,
        None => false,
    }
}

/// The answer for the constant that an instruction names by its first operand, false where there is none.
pub fn flag_of(flags: &Flags, instr: &Instr) -> bool
    ensures { result ≡ flag_of flags.now instr.now }
{
    flag_at(flags, number_of(instr.first))
}
