//! How a task's body ends.

ghost use Rattle.std.specs.Prelude.{◌≡◌, IfOk};

use class_model::Name;
use jvm_heap::Units;
use native_model::Budget;
use tree_value::{CopyFault, Lines, Tree, Value};

/// How a body ends, with its log: with a value and the files of its dest, with an exception by the name of its class
/// and its message, or with a budget that is spent.
#[derive(Drop)]
pub enum Outcome {
    Returns {
        value: Value,
        dest: Tree,
        log: Lines,
    },
    Throws {
        class: Name,
        message: Option<Units>,
        log: Lines,
    },
    Spent {
        budget: Budget,
        log: Lines,
    },
}

fn copy_name(name: &Name) -> Result<Name, CopyFault>
    ensures { IfOk result (λ copy. copy ≡ name.now) }
{
    match name.copy() {
        Ok(copy) => Ok(copy),
        Err(_) => Err(CopyFault::Memory),
    }
}

fn copy_message(message: &Option<Units>) -> Result<Option<Units>, CopyFault>
    ensures { IfOk result (λ copy. copy ≡ message.now) }
{
    match message {
        Some(units) => Ok(Some(units.copy()?)),
        None => Ok(None),
    }
}

impl Outcome {
    /// An equal outcome.
    pub fn copy(&self) -> Result<Outcome, CopyFault>
        ensures { IfOk result (λ copy. copy ≡ self.now) }
    {
        match self {
            Outcome::Returns { value, dest, log } => Ok(Outcome::Returns {
                value: value.copy()?,
                dest: dest.copy()?,
                log: log.copy()?,
            }),
            Outcome::Throws {
                class,
                message,
                log,
            } => Ok(Outcome::Throws {
                class: copy_name(class)?,
                message: copy_message(message)?,
                log: log.copy()?,
            }),
            Outcome::Spent { budget, log } => Ok(Outcome::Spent {
                budget: *budget,
                log: log.copy()?,
            }),
        }
    }
}
