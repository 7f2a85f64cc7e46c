//! Attempts that give nothing.

ghost use Rattle.std.specs.Prelude.{◌≡◌, true, OnOk};
ghost use Rattle.jvm_model.specs.Plans.{end_of};
ghost use Rattle.jvm_state.specs.Moves.{Leads};
ghost use Rattle.jvm_invoke.specs.Onwards.{is_told, stopped};

use crate::machine::Machine;
use crate::unwinding::raise;
use jvm_resolve::Stop;
use jvm_state::{Ending, Members, Move};
use native_model::StepFault;

/// An attempt throws, a budget is spent, or it is stuck.
pub fn settle<P: Members>(machine: &mut Machine<P>, stop: Stop) -> Result<Move, StepFault>
    ensures settled { Leads result machine.new.state (end_of (P.oracle machine.old.program)
        (stopped machine.old.state.frames machine.old.state.shared stop)) }
    ensures told { OnOk result (is_told stop ≡ true) }
    ensures program { machine.new.program ≡ machine.old.program }
{
    match stop {
        Stop::Throws(throw) => raise(machine, &throw),
        Stop::Spends(budget) => Ok(Move::Finishes(Ending::Spent(budget))),
        Stop::Stuck => Ok(Move::Stuck),
        Stop::Memory => Err(StepFault::Memory),
    }
}
