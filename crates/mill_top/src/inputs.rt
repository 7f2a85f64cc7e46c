//! The input hash of a task.

ghost use Rattle.std.specs.Prelude.{◌≡◌, ◌++◌, ◌∷◌, [], Some, IfOk, OnOk, ◌<◌, ◌^◌, length, flat_map, option_to_list};
ghost use Rattle.sha2.specs.Sha256.{sha256};
ghost use Rattle.tree_value.specs.Nets.{net};
ghost use Rattle.mill_top.specs.Graphs.{task_in, task_name};
ghost use Rattle.mill_top.specs.Inputs.{nets, whole_row, method_of, method_text, value_text, value_fields, input_text, input_hash, IsDigested};

use crate::recorded::Record;
use crate::task_file::TaskFile;
use class_read::is_class_path;
use sha2::{Digest as _, Sha256};
use std::alloc::{AllocError, Global};
use tree_value::{Digest, Value};
use value_text::digest_value;

#[tactic(auto, unfolding(tree_value::specs::Nets::net))]
fn push_net(text: &mut Vec<u8>, alloc: Global, field: &[u8]) -> Result<(), AllocError>
    ensures { OnOk result (text.new.items ≡ text.old.items ++ net field.now) }
{
    let len = field.len().to_string(alloc)?;
    text.extend_from_slice(len.as_bytes())?;
    text.extend_from_slice(b":")?;
    text.extend_from_slice(field)?;
    text.extend_from_slice(b",")?;
    Ok(())
}

#[tactic(auto, unfolding(crate::specs::Inputs::whole_row))]
fn whole_row(alloc: Global, inputs: &Record) -> Result<Vec<u8>, AllocError>
    ensures { IfOk result (λ text. text.items ≡ whole_row inputs.now) }
{
    let mut text = Vec::new(alloc);
    push_net(&mut text, alloc, b"W")?;
    for file in inputs.files.as_slice() {
        if is_class_path(file.0.as_slice()) {
            push_net(&mut text, alloc, file.0.as_slice())?;
            push_net(&mut text, alloc, file.1.as_slice())?;
        }
    }
    Ok(text)
}

// The class, the name and the descriptor of the file's method.
fn push_method(text: &mut Vec<u8>, alloc: Global, file: TaskFile) -> Result<(), AllocError>
    ensures { OnOk result (text.new.items ≡ text.old.items ++ nets (method_of file)) }
{
    push_net(text, alloc, &[file.class])?;
    push_net(text, alloc, &[file.task])?;
    push_net(text, alloc, file.body.descriptor())
}

#[tactic(auto, unfolding(crate::specs::Inputs::method_text))]
fn method_text(alloc: Global, inputs: &Record, file: TaskFile) -> Result<Vec<u8>, AllocError>
    requires { task_in inputs.now.files (task_name file) ≡ Some file }
    ensures { IfOk result (λ text. text.items ≡ method_text inputs.now (task_name file)) }
{
    let row = whole_row(alloc, inputs)?;
    let mut text = Vec::new(alloc);
    push_net(&mut text, alloc, b"method1")?;
    push_method(&mut text, alloc, file)?;
    push_net(&mut text, alloc, row.as_slice())?;
    Ok(text)
}

// A text in memory has a length of 64 bits.
fn prove_fits(text: &[u8])
    ensures { length text.now < 2 ^ 64 }
{
    let _len = text.len();
}

// The digest of the method's text.
fn method_hash(alloc: Global, inputs: &Record, file: TaskFile) -> Result<[u8; 32], AllocError>
    requires { task_in inputs.now.files (task_name file) ≡ Some file }
    ensures hash { IfOk result (λ hash. hash ≡ sha256 (method_text inputs.now (task_name file))) }
    ensures fits { OnOk result (length (method_text inputs.now (task_name file)) < 2 ^ 64) }
{
    let text = method_text(alloc, inputs, file)?;
    prove_fits(text.as_slice());
    Ok(Sha256::digest(text.as_slice()))
}

// The digest of the value's stored text.
#[tactic(auto, unfolding(crate::specs::Inputs::value_text))]
fn value_hash(alloc: Global, value: i32) -> Result<Digest, AllocError>
    ensures { IfOk result (λ hash. hash ≡ sha256 (value_text value)) }
{
    match digest_value(alloc, &Value::Int(value)) {
        Ok(hash) => Ok(hash),
        Err(_) => Err(AllocError),
    }
}

// The values of the inputs, of which there is one at most.
fn push_values(text: &mut Vec<u8>, alloc: Global, given: Option<i32>) -> Result<(), AllocError>
    ensures { OnOk result (text.new.items
        ≡ text.old.items ++ nets (flat_map value_fields (option_to_list given))) }
{
    match given {
        Some(value) => {
            let hash = hex::encode(alloc, value_hash(alloc, value)?.to_array())?;
            push_net(text, alloc, b"v")?;
            push_net(text, alloc, hash.as_bytes())
        }
        None => Ok(()),
    }
}

#[tactic(auto, unfolding(crate::specs::Inputs::input_text))]
fn input_text(
    alloc: Global,
    inputs: &Record,
    file: TaskFile,
    given: Option<i32>,
) -> Result<Vec<u8>, AllocError>
    requires { task_in inputs.now.files (task_name file) ≡ Some file }
    ensures text { IfOk result (λ text. text.items
        ≡ input_text inputs.now (task_name file) (option_to_list given)) }
    ensures method { OnOk result (length (method_text inputs.now (task_name file)) < 2 ^ 64) }
{
    let method = method_hash(alloc, inputs, file)?;
    let hash = hex::encode(alloc, method)?;
    let mut text = Vec::new(alloc);
    push_net(&mut text, alloc, b"input1")?;
    push_net(&mut text, alloc, &[file.task])?;
    push_net(&mut text, alloc, b"cached")?;
    push_net(&mut text, alloc, b"10000000")?;
    push_net(&mut text, alloc, hash.as_bytes())?;
    push_values(&mut text, alloc, given)?;
    Ok(text)
}

/// The input hash of the file's task, given the value of its input, if it has one.
#[tactic(auto, unfolding(crate::specs::Inputs::input_hash))]
pub fn input_hash(
    alloc: Global,
    inputs: &Record,
    file: TaskFile,
    given: Option<i32>,
) -> Result<Digest, AllocError>
    requires { task_in inputs.now.files (task_name file) ≡ Some file }
    ensures hash { IfOk result (λ hash. hash
        ≡ input_hash inputs.now (task_name file) (option_to_list given)) }
    ensures digested { OnOk result (IsDigested inputs.now (task_name file) (option_to_list given)) }
{
    let text = input_text(alloc, inputs, file, given)?;
    prove_fits(text.as_slice());
    Ok(Digest::of(Sha256::digest(text.as_slice())))
}
