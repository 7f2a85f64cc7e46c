//! What an instruction names and what a handler catches, without numbers of the pool (JVMS 6.5, 4.7.3).

ghost use Rattle.std.specs.Prelude.{◌≡◌, Some, option_map, option_and_then};
ghost use Rattle.jvm_tables.specs.Agreement.{uses_constant};
ghost use Rattle.class_code.specs.Rows.{operand_by, operand_of, catch_of};
ghost use Rattle.class_code.specs.Seen.{operand, catch};

use crate::constants::constant_of;
use crate::named::{NamedView, named_of};
use crate::site::{SiteView, written_site};
use class_model::{Class, Constant, Handler, Pool};
use jvm_tables::{ConstantUse, Instr, OpRow};

/// What an instruction names: nothing, a constant, or a call site.
#[derive(Clone, Copy, Debug)]
pub enum OperandView<'a> {
    Nothing,
    Constant(NamedView<'a>),
    Site(SiteView<'a>),
}

fn operand_by<'a>(class: &'a Class, constant: &Constant) -> Option<OperandView<'a>>
    ensures { option_and_then (operand class.now.pool) result ≡ operand_by class.now constant.now }
{
    match constant {
        Constant::InvokeDynamic {
            bootstrap,
            name_type,
        } => match written_site(class, *bootstrap, *name_type) {
            Some(site) => Some(OperandView::Site(site)),
            None => None,
        },
        _ => match named_of(&class.pool, constant) {
            Some(named) => Some(OperandView::Constant(named)),
            None => None,
        },
    }
}

/// What an instruction names. `None` where its constant has no name, and where a call site is of another bootstrap
/// method than the two that are known.
pub fn operand_of<'a>(class: &'a Class, row: &OpRow, instr: &Instr) -> Option<OperandView<'a>>
    ensures { option_and_then (operand class.now.pool) result ≡ operand_of class.now row.now instr.now }
{
    if let ConstantUse::Nothing = row.constant {
        return Some(OperandView::Nothing);
    }
    match constant_of(class, instr) {
        Some(constant) => operand_by(class, constant),
        None => None,
    }
}

/// A range of the exception table. The class that it catches is `None` for all.
#[derive(Clone, Copy, Debug)]
pub struct CatchView<'a> {
    pub start: u16,
    pub end: u16,
    pub handler: u16,
    pub class: Option<&'a [u8]>,
}

/// A range of the exception table by the name of the class that it catches.
pub fn catch_of<'a>(pool: &'a Pool, handler: &Handler) -> CatchView<'a>
    ensures { catch result ≡ catch_of pool.now handler.now }
{
    CatchView {
        start: handler.start,
        end: handler.end,
        handler: handler.handler,
        class: pool.class_name(handler.catch_type),
    }
}
