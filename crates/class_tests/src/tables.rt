//! The rows of external classes and of natives (docs/FORMATS.md).

use jvm_tables::{
    Callback, EXTERNALS, ExternalMethod, ExternalRow, NATIVES, NativeRow, external, external_at,
    native_at, native_row,
};
use questions::Unanswered;
use std::alloc::{AllocError, Global};

fn method_text(alloc: Global, method: Option<ExternalMethod>) -> Result<String, AllocError> {
    match method {
        None => "-".to_string(alloc),
        Some(method) => {
            let (class, name, descriptor) = (method.class, method.name, method.descriptor);
            format!(in alloc; "{class}.{name}{descriptor}")
        }
    }
}

/// The interfaces, each with a space before it.
fn interfaces_text(alloc: Global, interfaces: &[&str]) -> Result<String, AllocError> {
    let mut text = String::new(alloc);
    for interface in interfaces {
        text.push_str(" ")?;
        text.push_str(interface)?;
    }
    Ok(text)
}

fn flags_text(row: &ExternalRow) -> &'static str {
    match (row.is_interface, row.is_abstract, row.is_extensible) {
        (false, false, false) => "final",
        (false, false, true) => "open",
        (false, true, false) => "abstract",
        (false, true, true) => "abstract open",
        (true, true, false) => "interface",
        _ => "unexpected",
    }
}

/// The class that stands at a place of the table.
fn class_at(at: u32) -> &'static str {
    match external_at(at) {
        None => "none",
        Some(row) => row.class,
    }
}

/// The class at the row's place, its super class and interfaces, what it is, and its abstract method.
fn external_text(alloc: Global, row: &ExternalRow) -> Result<String, AllocError> {
    let class = class_at(row.at);
    let super_class = row.super_class.unwrap_or("-");
    let interfaces = interfaces_text(alloc, row.interfaces)?;
    let flags = flags_text(row);
    let method = method_text(alloc, row.abstract_method)?;
    format!(in alloc; "{class} below {super_class}{interfaces}, {flags}, {method}")
}

fn external_answer(alloc: Global, class: &str) -> Result<String, AllocError> {
    match external(class.as_bytes()) {
        None => "none".to_string(alloc),
        Some(row) => external_text(alloc, &row),
    }
}

fn callback_method(callback: Option<Callback>) -> Option<ExternalMethod> {
    match callback {
        None => None,
        Some(callback) => Some(callback.method()),
    }
}

/// Name and descriptor of the native at the row's place, whether it is static, and what it calls back.
fn native_text(alloc: Global, row: &NativeRow) -> Result<String, AllocError> {
    let Some(there) = native_at(row.at) else {
        return "none at its place".to_string(alloc);
    };
    let (name, descriptor) = (there.name, there.descriptor);
    let is_static = if row.is_static { "static " } else { "" };
    let method = method_text(alloc, callback_method(row.calls_back))?;
    format!(in alloc; "{is_static}{name}{descriptor} calls {method}")
}

fn native_answer(
    alloc: Global,
    class: &str,
    name: &str,
    descriptor: &str,
) -> Result<String, AllocError> {
    match native_row(class.as_bytes(), name.as_bytes(), descriptor.as_bytes()) {
        None => "none".to_string(alloc),
        Some(row) => native_text(alloc, &row),
    }
}

/// How many rows a table has: the places 0, 1 and so on that hold one.
fn count_answer(alloc: Global, table: &str) -> Result<String, Unanswered> {
    let (count, last, behind) = match table {
        "externals" => (
            EXTERNALS.len(),
            external_at(60).is_some(),
            external_at(61).is_some(),
        ),
        "natives" => (
            NATIVES.len(),
            native_at(117).is_some(),
            native_at(118).is_some(),
        ),
        _ => return Err(Unanswered::BadQuestion),
    };
    Ok(format!(in alloc; "{count} {last} {behind}")?)
}

pub fn answer_to(alloc: Global, words: &[&str]) -> Result<String, Unanswered> {
    match words {
        ["external", class] => Ok(external_answer(alloc, class)?),
        ["native", class, name, descriptor] => {
            Ok(native_answer(alloc, class, name, descriptor)?)
        }
        ["rows", table] => count_answer(alloc, table),
        _ => Err(Unanswered::BadQuestion),
    }
}
