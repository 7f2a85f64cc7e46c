//! Verified programs.

ghost use Rattle.std.specs.Prelude.{◌≡◌, All, IfOk, IfErr, OnOk, map};
ghost use Rattle.class_model.specs.Shape.{Shaped};
ghost use Rattle.class_index.specs.Outlines.{outline};
ghost use Rattle.class_verify.specs.Programs.{HasOwnNames, IsVerified, IsFirstUnfit};
ghost use Rattle.class_verify.specs.Verified.{Fits};

use crate::fault::VerifyFault;
use crate::verification::verify;
use class_index::{Index, IndexFault};
use class_model::{Class, Program};
use std::alloc::Global;
use std::marker::Model;
use thiserror::Error;

/// A program whose every class fits, with its index.
#[derive(Drop)]
pub struct ProgramOk {
    program: Program,
    index: Index,
}

impl Model for ProgramOk {
    ghost use Rattle.std.specs.Prelude.{◌≡◌, List, map};
    ghost use Rattle.std.specs.Coded.{coded_list};
    ghost use Rattle.class_model.specs.declared.class_file.Class.{Class};
    ghost use Rattle.class_model.specs.contracts.class_file.Class as class_type;
    ghost use Rattle.class_model.specs.Shape.{Shaped};
    ghost use Rattle.class_index.specs.Outlines.{outline};
    ghost use Rattle.class_verify.specs.Programs.{IsVerified};

    ghost Value = { List Class };

    ghost coded = { coded_list class_type.the_row.coded };

    ghost view = { λ p. p.program };

    ghost invariant = { λ p. IsVerified p.program × (p.index ≡ map outline p.program) };
}

/// Why a program is not verified.
#[derive(Debug, Drop, Error)]
pub enum CheckFault {
    #[error("{0}")]
    Index(IndexFault),
    #[error("{0}")]
    Verify(VerifyFault),
}

/// Refuses the first class in list order that doesn't fit.
fn verify_all(alloc: Global, index: &Index, classes: &[Class]) -> Result<(), VerifyFault>
    requires { All Shaped classes.now }
    ensures ok { OnOk result (All Fits classes.now) }
    ensures fault { IfErr result (λ fault. IsFirstUnfit classes.now fault) }
{
    for class in classes {
        if let Err(fault) = verify(alloc, index, class) {
            return Err(fault);
        }
    }
    Ok(())
}

impl ProgramOk {
    ghost use Rattle.class_verify.specs.CheckFaults.{IsCheckFaultOf};

    /// The program with its index, if every class fits. The faults of the index come first, then those of the classes
    /// in list order.
    pub fn of(alloc: Global, program: Program) -> Result<ProgramOk, CheckFault>
        requires { HasOwnNames program }
        ensures ok { IfOk result (λ verified. verified ≡ program) }
        ensures fault { IfErr result (λ fault. IsCheckFaultOf program fault) }
    {
        let index = match Index::of(alloc, &program) {
            Ok(index) => index,
            Err(fault) => return Err(CheckFault::Index(fault)),
        };
        match verify_all(alloc, &index, program.classes()) {
            Ok(()) => Ok(ProgramOk { program, index }),
            Err(fault) => Err(CheckFault::Verify(fault)),
        }
    }

    /// Its program.
    pub fn program(&self) -> &Program
        ensures program { result.now ≡ self.now }
        ensures verified { IsVerified self.now }
    {
        &self.program
    }

    /// The index of its program.
    pub fn index(&self) -> &Index
        ensures { result.now ≡ map outline self.now }
    {
        &self.index
    }
}
