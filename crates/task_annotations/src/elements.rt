//! What the elements of a Task annotation say.

ghost use Rattle.std.specs.Prelude.{◌≡◌, IfOk, None, Some, [], codes, is_some, map, unwrap_or, option_copied, option_map};
ghost use Rattle.std.specs.List.{list_all};
ghost use Rattle.std.specs.String.{string_bytes};
ghost use Rattle.task_model.specs.declared.task_row.Kind.TheVariants.{Cached};
ghost use Rattle.task_annotations.specs.declared.declared_kind.DeclaredKind.TheVariants.{Supported};
ghost use Rattle.task_annotations.specs.Annotations.{value_of};
ghost use Rattle.task_annotations.specs.Declarations.{name_value, kind_value, is_budget, budget_value, names_of, names_value, path_value, read_or, elements_in};
ghost use Rattle.task_annotations.specs.Reading.{all_now, elements_read};

use crate::annotations::{array_in, int_in, text_in, value_of};
use crate::declared_kind::DeclaredKind;
use crate::spelled::utf8_of;
use class_model::{Element, Pair, Pool};
use std::alloc::{AllocError, Global};
use task_model::{Kind, is_task_name};

/// The instructions that a task may run if its annotation doesn't say.
pub const DEFAULT_BUDGET: u32 = 10_000_000;

/// The most instructions that a task may run.
pub const GREATEST_BUDGET: u32 = 1_000_000_000;

/// What the elements of a Task annotation say. The path is a text that is to be one.
#[derive(Drop)]
pub(crate) struct Elements<'a> {
    pub name: &'a [u8],
    pub kind: DeclaredKind,
    pub inputs: Vec<&'a [u8]>,
    pub path: Option<String>,
    pub budget: u32,
}

fn name_value<'a>(pool: &'a Pool, value: &Element) -> Option<&'a [u8]>
    ensures { option_copied result ≡ name_value pool.now value.now }
{
    let text = text_in(pool, value)?;
    if is_task_name(text) { Some(text) } else { None }
}

fn kind_value(pool: &Pool, value: &Element) -> Option<DeclaredKind>
    ensures { result ≡ kind_value pool.now value.now }
{
    DeclaredKind::named(text_in(pool, value)?)
}

fn is_budget(bits: u32) -> bool
    ensures { result ≡ is_budget bits }
{
    1 <= bits && bits <= GREATEST_BUDGET
}

fn budget_value(pool: &Pool, value: &Element) -> Option<u32>
    ensures { result ≡ budget_value pool.now value.now }
{
    let bits = int_in(pool, value)?;
    if is_budget(bits) { Some(bits) } else { None }
}

fn is_name(pool: &Pool, value: &Element) -> bool
    ensures { result ≡ is_some (name_value pool.now value.now) }
{
    name_value(pool, value).is_some()
}

fn are_names(pool: &Pool, values: &[Element]) -> bool
    ensures { result ≡ list_all (λ v. is_some (name_value pool.now v)) values.now }
{
    values.iter().all(|value| is_name(pool, value))
}

fn name_or_empty<'a>(pool: &'a Pool, value: &Element) -> &'a [u8]
    ensures { result.now ≡ unwrap_or (name_value pool.now value.now) [] }
{
    match name_value(pool, value) {
        Some(name) => name,
        None => &[],
    }
}

fn each_name<'a>(
    alloc: Global,
    pool: &'a Pool,
    values: &[Element],
) -> Result<Vec<&'a [u8]>, AllocError>
    ensures { IfOk result (λ names. all_now names.items
        ≡ map (λ v. unwrap_or (name_value pool.now v) []) values.now) }
{
    let mut names = Vec::new(alloc);
    for value in values {
        names.push(name_or_empty(pool, value))?;
    }
    Ok(names)
}

fn names_of<'a>(
    alloc: Global,
    pool: &'a Pool,
    values: &[Element],
) -> Result<Option<Vec<&'a [u8]>>, AllocError>
    ensures { IfOk result (λ found. option_map (λ names. all_now names.items) found
        ≡ names_of pool.now values.now) }
{
    if !are_names(pool, values) {
        return Ok(None);
    }
    Ok(Some(each_name(alloc, pool, values)?))
}

fn names_value<'a>(
    alloc: Global,
    pool: &'a Pool,
    value: &Element,
) -> Result<Option<Vec<&'a [u8]>>, AllocError>
    ensures { IfOk result (λ found. option_map (λ names. all_now names.items) found
        ≡ names_value pool.now value.now) }
{
    match array_in(value) {
        None => Ok(None),
        Some(values) => names_of(alloc, pool, values),
    }
}

fn path_value(
    alloc: Global,
    pool: &Pool,
    value: &Element,
) -> Result<Option<Option<String>>, AllocError>
    ensures { IfOk result (λ found. option_map (option_map string_bytes) found
        ≡ path_value pool.now value.now) }
{
    let Some(text) = text_in(pool, value) else {
        return Ok(None);
    };
    match utf8_of(alloc, text)? {
        None => Ok(None),
        Some(path) => Ok(Some(Some(path))),
    }
}

fn name_in<'a>(pool: &'a Pool, pairs: &[Pair]) -> Option<&'a [u8]>
    ensures { option_copied result
        ≡ read_or None (name_value pool.now) (value_of pool.now (codes "name") pairs.now) }
{
    match value_of(pool, b"name", pairs) {
        None => None,
        Some(value) => name_value(pool, value),
    }
}

fn kind_in(pool: &Pool, pairs: &[Pair]) -> Option<DeclaredKind>
    ensures { result
        ≡ read_or (Some (Supported Cached)) (kind_value pool.now) (value_of pool.now (codes "kind") pairs.now) }
{
    match value_of(pool, b"kind", pairs) {
        None => Some(DeclaredKind::Supported(Kind::Cached)),
        Some(value) => kind_value(pool, value),
    }
}

fn inputs_in<'a>(
    alloc: Global,
    pool: &'a Pool,
    pairs: &[Pair],
) -> Result<Option<Vec<&'a [u8]>>, AllocError>
    ensures { IfOk result (λ found. option_map (λ names. all_now names.items) found
        ≡ read_or (Some []) (names_value pool.now) (value_of pool.now (codes "inputs") pairs.now)) }
{
    match value_of(pool, b"inputs", pairs) {
        None => Ok(Some(Vec::new(alloc))),
        Some(value) => names_value(alloc, pool, value),
    }
}

fn path_in(alloc: Global, pool: &Pool, pairs: &[Pair]) -> Result<Option<Option<String>>, AllocError>
    ensures { IfOk result (λ found. option_map (option_map string_bytes) found
        ≡ read_or (Some None) (path_value pool.now) (value_of pool.now (codes "path") pairs.now)) }
{
    match value_of(pool, b"path", pairs) {
        None => Ok(Some(None)),
        Some(value) => path_value(alloc, pool, value),
    }
}

fn budget_in(pool: &Pool, pairs: &[Pair]) -> Option<u32>
    ensures { result
        ≡ read_or (Some 10000000) (budget_value pool.now) (value_of pool.now (codes "budget") pairs.now) }
{
    match value_of(pool, b"budget", pairs) {
        None => Some(DEFAULT_BUDGET),
        Some(value) => budget_value(pool, value),
    }
}

/// What the pairs of a Task annotation say; `None` where one is missing or is not what it is to be.
#[tactic(auto, unfolding(crate::specs::Declarations::elements_in))]
pub(crate) fn elements_in<'a>(
    alloc: Global,
    pool: &'a Pool,
    pairs: &[Pair],
) -> Result<Option<Elements<'a>>, AllocError>
    ensures { IfOk result (λ found. option_map elements_read found ≡ elements_in pool.now pairs.now) }
{
    let Some(name) = name_in(pool, pairs) else {
        return Ok(None);
    };
    let Some(kind) = kind_in(pool, pairs) else {
        return Ok(None);
    };
    let Some(inputs) = inputs_in(alloc, pool, pairs)? else {
        return Ok(None);
    };
    let Some(path) = path_in(alloc, pool, pairs)? else {
        return Ok(None);
    };
    let Some(budget) = budget_in(pool, pairs) else {
        return Ok(None);
    };
    Ok(Some(Elements {
        name,
        kind,
        inputs,
        path,
        budget,
    }))
}
