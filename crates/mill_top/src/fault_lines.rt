//! The lines of refused builds.

ghost use Rattle.std.specs.Prelude.{◌≡◌, ◌++◌, ◌∷◌, [], IfOk, OnOk};
ghost use Rattle.std.specs.Fmt.{decimal};
ghost use Rattle.line_text.specs.Lines.{line_of_name, line_of_path};
ghost use Rattle.mill_top.specs.BuildFaults.{method_line, misfit_line, class_line, limit_name, index_line, verify_line, check_line, load_line, build_line};

use crate::build_fault::BuildFault;
use class_index::IndexFault;
use class_model::{MethodId, Name};
use class_read::{ClassFault, Limit, LoadFault};
use class_verify::{CheckFault, VerifyFault};
use line_text::{push_name, push_path};
use std::alloc::{AllocError, Global};
use tree_value::Path;

fn push_number(
    text: &mut Vec<u8>,
    alloc: Global,
    front: &[u8],
    number: u32,
) -> Result<(), AllocError>
    ensures { OnOk result (text.new.items ≡ text.old.items ++ (front.now ++ decimal number)) }
{
    text.extend_from_slice(front)?;
    text.extend_from_slice(number.to_string(alloc)?.as_bytes())
}

fn push_named(text: &mut Vec<u8>, front: &[u8], name: &Name) -> Result<(), AllocError>
    ensures { OnOk result
        (text.new.items ≡ text.old.items ++ (front.now ++ line_of_name name.now)) }
{
    text.extend_from_slice(front)?;
    push_name(text, name)
}

#[tactic(auto, unfolding(crate::specs::BuildFaults::method_line))]
fn push_method(text: &mut Vec<u8>, method: &MethodId) -> Result<(), AllocError>
    ensures { OnOk result (text.new.items ≡ text.old.items ++ method_line method.now) }
{
    push_name(text, &method.class)?;
    push_named(text, b".", &method.name)?;
    push_name(text, &method.descriptor)
}

fn push_class_line(text: &mut Vec<u8>, alloc: Global, fault: ClassFault) -> Result<(), AllocError>
    ensures { OnOk result (text.new.items ≡ text.old.items ++ class_line fault) }
{
    match fault {
        ClassFault::BadMagic => text.extend_from_slice(b"bad magic"),
        ClassFault::BadMajor(version) => {
            push_number(text, alloc, b"bad major ", u32::from(version))
        }
        ClassFault::CutShort(at) => push_number(text, alloc, b"cut short at ", at),
        ClassFault::BadTag(at, tag) => {
            push_number(text, alloc, b"bad tag ", u32::from(tag))?;
            push_number(text, alloc, b" at ", at)
        }
        ClassFault::BadUtf8(at) => push_number(text, alloc, b"bad text at ", at),
        ClassFault::BadIndex(at) => push_number(text, alloc, b"bad index at ", at),
        ClassFault::BadAttribute(at) => push_number(text, alloc, b"bad attribute at ", at),
        ClassFault::SecondAttribute(at) => push_number(text, alloc, b"second attribute at ", at),
        ClassFault::CodeMissing(at) => push_number(text, alloc, b"code missing at ", at),
        ClassFault::BytesLeft(at) => push_number(text, alloc, b"bytes left at ", at),
        ClassFault::Memory => text.extend_from_slice(b"memory"),
    }
}

fn limit_name(limit: Limit) -> &'static [u8]
    ensures { result.now ≡ limit_name limit }
{
    match limit {
        Limit::Classes => b"classes",
        Limit::Methods => b"methods",
    }
}

fn push_limit(text: &mut Vec<u8>, alloc: Global, limit: Limit) -> Result<(), AllocError>
    ensures { OnOk result (text.new.items ≡ text.old.items ++ load_line (LoadFault.TooMany limit)) }
{
    text.extend_from_slice(b"too many ")?;
    text.extend_from_slice(limit_name(limit))?;
    text.extend_from_slice(b": ")?;
    text.extend_from_slice(limit.most().to_string(alloc)?.as_bytes())
}

fn push_index_line(text: &mut Vec<u8>, fault: &IndexFault) -> Result<(), AllocError>
    ensures { OnOk result (text.new.items ≡ text.old.items ++ index_line fault.now) }
{
    match fault {
        IndexFault::MissingSuper(name) => push_named(text, b"missing super ", name),
        IndexFault::CyclicSuper(name) => push_named(text, b"cyclic super ", name),
        IndexFault::Memory => text.extend_from_slice(b"memory"),
    }
}

// A method, and what is wrong at the pc.
fn push_misfit(
    text: &mut Vec<u8>,
    alloc: Global,
    method: &MethodId,
    what: &[u8],
    pc: u32,
) -> Result<(), AllocError>
    ensures { OnOk result (text.new.items ≡ text.old.items ++ misfit_line method.now what.now pc) }
{
    push_method(text, method)?;
    push_number(text, alloc, what, pc)
}

fn push_verify_line(
    text: &mut Vec<u8>,
    alloc: Global,
    fault: &VerifyFault,
) -> Result<(), AllocError>
    ensures { OnOk result (text.new.items ≡ text.old.items ++ verify_line fault.now) }
{
    match fault {
        VerifyFault::FloatUsed(method) => {
            push_method(text, method)?;
            text.extend_from_slice(b": float used")
        }
        VerifyFault::BadCode(method, pc) => {
            push_misfit(text, alloc, method, b": bad code at ", *pc)
        }
        VerifyFault::BadJump(method, pc) => {
            push_misfit(text, alloc, method, b": bad jump at ", *pc)
        }
        VerifyFault::UnknownBootstrap(method, pc) => {
            push_misfit(text, alloc, method, b": unknown bootstrap at ", *pc)
        }
        VerifyFault::BadFrame(method, pc) => {
            push_misfit(text, alloc, method, b": bad frame at ", *pc)
        }
        VerifyFault::Memory => text.extend_from_slice(b"memory"),
    }
}

fn push_check_line(text: &mut Vec<u8>, alloc: Global, fault: &CheckFault) -> Result<(), AllocError>
    ensures { OnOk result (text.new.items ≡ text.old.items ++ check_line fault.now) }
{
    match fault {
        CheckFault::Index(fault) => push_index_line(text, fault),
        CheckFault::Verify(fault) => push_verify_line(text, alloc, fault),
    }
}

fn push_load_line(text: &mut Vec<u8>, alloc: Global, fault: &LoadFault) -> Result<(), AllocError>
    ensures { OnOk result (text.new.items ≡ text.old.items ++ load_line fault.now) }
{
    match fault {
        LoadFault::BadClass(path, fault) => {
            push_path(text, path)?;
            text.extend_from_slice(b": ")?;
            push_class_line(text, alloc, *fault)
        }
        LoadFault::DuplicateClass(name) => push_named(text, b"duplicate class ", name),
        LoadFault::TooMany(limit) => push_limit(text, alloc, *limit),
        LoadFault::Check(fault) => push_check_line(text, alloc, fault),
        LoadFault::Memory => text.extend_from_slice(b"memory"),
    }
}

fn load_line(alloc: Global, fault: &LoadFault) -> Result<Vec<u8>, AllocError>
    ensures { IfOk result (λ text. text.items ≡ build_line (BuildFault.Load fault.now)) }
{
    let mut text = Vec::from_slice(alloc, b"build: ")?;
    push_load_line(&mut text, alloc, fault)?;
    Ok(text)
}

fn not_built(alloc: Global, path: &Path) -> Result<Vec<u8>, AllocError>
    ensures { IfOk result (λ text. text.items ≡ build_line (BuildFault.NotBuilt path.now)) }
{
    let mut text = Vec::from_slice(alloc, b"not built: ")?;
    push_path(&mut text, path)?;
    Ok(text)
}

fn with_task(alloc: Global, front: &[u8], task: u8) -> Result<Vec<u8>, AllocError>
    ensures { IfOk result (λ text. text.items ≡ front.now ++ task ∷ []) }
{
    let mut text = Vec::from_slice(alloc, front)?;
    text.push(task)?;
    Ok(text)
}

fn unknown_input(alloc: Global, input: u8, task: u8) -> Result<Vec<u8>, AllocError>
    ensures { IfOk result (λ text. text.items ≡ build_line (BuildFault.UnknownInput input task)) }
{
    let mut text = with_task(alloc, b"build: unknown input ", input)?;
    text.extend_from_slice(b" of ")?;
    text.push(task)?;
    Ok(text)
}

impl BuildFault {
    /// The line that the build's refusal is told by, without a line feed.
    pub fn line(&self, alloc: Global) -> Result<Vec<u8>, AllocError>
        ensures { IfOk result (λ text. text.items ≡ build_line self.now) }
    {
        match self {
            BuildFault::TooLong(path) | BuildFault::NotBuilt(path) => not_built(alloc, path),
            BuildFault::Load(fault) => load_line(alloc, fault),
            BuildFault::DuplicateTask(task) => with_task(alloc, b"build: duplicate task ", *task),
            BuildFault::UnknownInput { input, task } => unknown_input(alloc, *input, *task),
            BuildFault::Cycle(task) => with_task(alloc, b"build: cycle through ", *task),
            BuildFault::Memory => Vec::from_slice(alloc, b"memory"),
        }
    }
}
