//! Where control goes from an instruction, and where a throw may be caught (JVMS 6.5, 4.7.3).

ghost use Rattle.std.specs.Prelude.{◌≡◌};
ghost use Rattle.jvm_tables.specs.Switches.{target};
ghost use Rattle.class_code.specs.Control.{covers};

use class_model::Handler;
use jvm_tables::Instr;

/// Where a branch leads, and a switch whose key is none of its cases: modulo 2^32, so that no instruction begins there
/// where the offset leads out of the code.
pub fn target(instr: &Instr) -> usize
    ensures { result ≡ target instr.now.pc instr.now.first }
{
    instr.pc.wrapping_add_signed(instr.first) as usize
}

/// Whether the range of an exception handler has a pc.
pub fn covers(pc: usize, handler: &Handler) -> bool
    ensures { result ≡ covers pc handler.now }
{
    usize::from(handler.start) <= pc && pc < usize::from(handler.end)
}
