//! Loading the class files of a build.

ghost use Rattle.std.specs.Prelude.{◌≡◌, ◌&&◌, ◌<◌, ◌^◌, List, All, IfOk, IfErr, OnOk, MatchResult, length, Ok};
ghost use Rattle.class_model.specs.Shape.{Shaped};
ghost use Rattle.class_text.specs.Classes.{class_of};
ghost use Rattle.class_model.specs.declared.class_file.Class.{Class};
ghost use Rattle.class_verify.specs.CheckFaults.{IsCheckFaultOf};
ghost use Rattle.class_verify.specs.Programs.{IsVerified};
ghost use Rattle.class_read.specs.Twice.{IsEachOnce, IsNameFault};
ghost use Rattle.class_read.specs.ClassFiles.{is_class_path, class_files, AreClassesOf};
ghost use Rattle.class_read.specs.Limits.{IsWithinLimits};
ghost use Rattle.class_read.specs.Loading.{IsBadAt, IsSetFaultOf, IsLoadFaultOf};

use crate::class_file::read_class;
use crate::limits::passed_limit;
use crate::load_fault::LoadFault;
use crate::names::program_of;
use class_index::IndexFault;
use class_model::{Class, Program, ProgramFault};
use class_verify::{CheckFault, ProgramOk, VerifyFault};
use const_pool::ClassFault;
use std::alloc::Global;
use tree_value::{Bytes, Path, Tree};

/// Whether the file at the path is a class file of the build.
pub fn is_class_path(path: &[u8]) -> bool
    ensures { result ≡ is_class_path path.now }
{
    path.starts_with(b"classes/") && path.ends_with(b".class")
}

/// The class of a class file.
fn class_at(alloc: Global, file: &(Path, Bytes)) -> Result<Class, LoadFault>
    requires { length file.now.1 < 2 ^ 32 }
    ensures read { IfOk result (λ class. class_of file.now.1 ≡ Ok class) }
    ensures shaped { IfOk result Shaped }
    ensures fault { IfErr result (λ fault. IsBadAt file.now.0 file.now.1 fault) }
{
    match read_class(alloc, file.1.as_slice()) {
        Ok(class) => Ok(class),
        Err(ClassFault::Memory) => Err(LoadFault::Memory),
        Err(fault) => Err(LoadFault::BadClass(file.0.copy()?, fault)),
    }
}

fn is_class_file(file: &(Path, Bytes)) -> bool
    ensures { result ≡ is_class_path file.now.0 }
{
    is_class_path(file.0.as_slice())
}

/// The classes of the class files among files.
fn classes_in(alloc: Global, files: &[(Path, Bytes)]) -> Result<Vec<Class>, LoadFault>
    requires { All (λ file. length file.1 < 2 ^ 32) (class_files files.now) }
    ensures read { IfOk result (λ classes. AreClassesOf files.now classes.items) }
    ensures shaped { IfOk result (λ classes. All Shaped classes.items) }
    ensures fault { IfErr result (λ fault. IsLoadFaultOf files.now fault) }
{
    let mut classes = Vec::new(alloc);
    for file in files {
        if is_class_file(file) {
            match class_at(alloc, file) {
                Ok(class) => classes.push(class)?,
                Err(fault) => return Err(fault),
            }
        }
    }
    Ok(classes)
}

fn of_names(fault: ProgramFault) -> LoadFault
    ensures { (classes : List Class) → IsNameFault classes fault → IsSetFaultOf classes result }
{
    match fault {
        ProgramFault::DuplicateClass(name) => LoadFault::DuplicateClass(name),
        ProgramFault::Memory => LoadFault::Memory,
    }
}

fn of_check(fault: CheckFault) -> LoadFault
    ensures { (classes : List Class) → IsEachOnce classes → IsWithinLimits classes
        → IsCheckFaultOf classes fault → IsSetFaultOf classes result }
{
    match fault {
        CheckFault::Index(IndexFault::Memory) => LoadFault::Memory,
        CheckFault::Verify(VerifyFault::Memory) => LoadFault::Memory,
        fault => LoadFault::Check(fault),
    }
}

/// The program of classes that were read.
fn verified(alloc: Global, classes: Vec<Class>) -> Result<ProgramOk, LoadFault>
    requires { All Shaped classes.items }
    ensures ok { IfOk result (λ program. program ≡ classes.items) }
    ensures within { OnOk result (IsWithinLimits classes.items) }
    ensures fault { IfErr result (λ fault. IsSetFaultOf classes.items fault) }
{
    let program = match program_of(alloc, classes) {
        Ok(program) => program,
        Err(fault) => return Err(of_names(fault)),
    };
    if let Some(limit) = passed_limit(program.classes()) {
        return Err(LoadFault::TooMany(limit));
    }
    match ProgramOk::of(alloc, program) {
        Ok(program) => Ok(program),
        Err(fault) => Err(of_check(fault)),
    }
}

/// The verified program of a build: the classes of the files below `classes/` that end in `.class`, in the order of
/// their paths. Other files are not looked at, and a path need not fit the name of its class. The refusals come in this
/// order: the first file that is no class, the least name that comes twice, more classes than a build may have, more
/// methods with code, a hierarchy that is not whole, the first class that doesn't fit.
pub fn load_set(alloc: Global, files: &Tree) -> Result<ProgramOk, LoadFault>
    requires { All (λ file. length file.1 < 2 ^ 32) (class_files files.now) }
    ensures ok { IfOk result (λ program. AreClassesOf files.now program) }
    ensures verified { IfOk result IsVerified }
    ensures within { IfOk result IsWithinLimits }
    ensures fault { IfErr result (λ fault. IsLoadFaultOf files.now fault) }
    // Verified classes within the limits are accepted.
    ensures only { (classes : List Class) → AreClassesOf files.now classes → IsVerified classes
        → IsWithinLimits classes
        → MatchResult result (λ program. program ≡ classes) (λ fault. fault ≡ LoadFault.Memory) }
{
    match classes_in(alloc, files.as_slice()) {
        Ok(classes) => verified(alloc, classes),
        Err(fault) => Err(fault),
    }
}
