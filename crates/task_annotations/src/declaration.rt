//! What a method and its Task annotation declare.

ghost use Rattle.std.specs.Prelude.{◌≡◌, ◌<◌, ◌^◌, IfOk, IsOkUnless, length, is_some, option_copied, option_map};
ghost use Rattle.std.specs.String.{string_bytes};
ghost use Rattle.task_graph.specs.declared.fault.GraphFault.TheVariants.{Memory};
ghost use Rattle.task_annotations.specs.Annotations.{annotations_in};
ghost use Rattle.task_annotations.specs.Declarations.{is_list, is_reference, obeys, obeying, declared_by, declaration_by, may_be_task, declaration_of, Declares};
ghost use Rattle.task_annotations.specs.Reading.{elements_read, signature_read, draft_read, declaration_read, IsPathRead, IsSettled};

use crate::annotations::{annotations_in, are_known_once, count_of_task, first_of_task};
use crate::declared_kind::DeclaredKind;
use crate::elements::{Elements, elements_in};
use crate::signature::{Signature, signature_of};
use class_model::{Member, Note, Pair, Pool, is_bare, is_static};
use std::alloc::{AllocError, Global};
use task_graph::GraphFault;
use task_model::Kind;
use tree_value::{Path, PathFault, ValueType};

/// A declaration whose path is a text that is to be one.
#[derive(Drop)]
pub(crate) struct Draft<'a> {
    elements: Elements<'a>,
    parameters: Vec<Option<ValueType>>,
    returned: ValueType,
}

/// What a method declares as a task: the name, the inputs in declared order, and `None` for a parameter of a type that
/// no value has.
#[derive(Drop)]
pub struct Declaration<'a> {
    pub name: &'a [u8],
    pub kind: DeclaredKind,
    pub inputs: Vec<&'a [u8]>,
    pub path: Option<Path>,
    pub budget: u32,
    pub parameters: Vec<Option<ValueType>>,
    pub returned: ValueType,
}

fn is_list(parameter: Option<&Option<ValueType>>) -> bool
    ensures { result ≡ is_list (option_copied parameter.entry) }
{
    match parameter {
        Some(Some(ValueType::List)) => true,
        _ => false,
    }
}

fn is_reference(returned: ValueType) -> bool
    ensures { result ≡ is_reference returned }
{
    matches!(returned, ValueType::Ref)
}

fn has_path(elements: &Elements<'_>) -> bool
    ensures { result ≡ is_some (elements_read elements.now).path }
{
    match &elements.path {
        None => false,
        Some(_) => true,
    }
}

fn count_inputs(elements: &Elements<'_>) -> usize
    ensures count { result ≡ length (elements_read elements.now).inputs }
    ensures few { result < 2 ^ 63 }
{
    elements.inputs.len()
}

/// Whether a task of a kind obeys its rules.
fn obeys(
    kind: Kind,
    elements: &Elements<'_>,
    parameters: &[Option<ValueType>],
    returned: ValueType,
) -> bool
    ensures { result ≡ obeys kind (elements_read elements.now) parameters.now returned }
{
    let inputs = count_inputs(elements);
    match kind {
        Kind::Cached => !has_path(elements) && parameters.len() == inputs,
        Kind::Anonymous => !has_path(elements) && parameters.len() == inputs,
        Kind::Source => {
            has_path(elements) && inputs == 0 && parameters.len() == 0 && is_reference(returned)
        }
        Kind::Input => !has_path(elements) && inputs == 0 && parameters.len() == 0,
        Kind::Command => {
            !has_path(elements) && parameters.len() == inputs + 1 && is_list(parameters.get(inputs))
        }
    }
}

fn obeying<'a>(
    elements: Elements<'a>,
    parameters: Vec<Option<ValueType>>,
    returned: ValueType,
) -> Option<Draft<'a>>
    ensures { option_map draft_read result
        ≡ obeying (elements_read elements.entry) parameters.items returned }
{
    if !obeys(elements.kind.followed(), &elements, &parameters, returned) {
        return None;
    }
    Some(Draft {
        elements,
        parameters,
        returned,
    })
}

fn declared_by<'a>(elements: Elements<'a>, signature: Signature) -> Option<Draft<'a>>
    ensures { option_map draft_read result
        ≡ declared_by (elements_read elements.entry) (signature_read signature.parameters.items signature.result) }
{
    let Signature { parameters, result } = signature;
    match result {
        None => None,
        Some(returned) => obeying(elements, parameters, returned),
    }
}

/// What the pairs of an annotation and the descriptor of its method declare, but for the path.
#[tactic(auto, unfolding(crate::specs::Declarations::declaration_by))]
fn draft_by<'a>(
    alloc: Global,
    pool: &'a Pool,
    descriptor: &[u8],
    pairs: &[Pair],
) -> Result<Option<Draft<'a>>, AllocError>
    ensures { IfOk result (λ found. option_map draft_read found
        ≡ declaration_by pool.now descriptor.now pairs.now) }
{
    if !are_known_once(pool, pairs) {
        return Ok(None);
    }
    let Some(elements) = elements_in(alloc, pool, pairs)? else {
        return Ok(None);
    };
    let Some(signature) = signature_of(alloc, descriptor)? else {
        return Ok(None);
    };
    Ok(declared_by(elements, signature))
}

fn may_be_task(pool: &Pool, method: &Member, notes: &[Note]) -> bool
    requires { notes.now ≡ annotations_in method.now.attributes }
    ensures { result ≡ may_be_task pool.now method.now }
{
    is_static(method.flags) && !is_bare(method.flags) && count_of_task(pool, notes) == 1
}

#[tactic(auto, unfolding(crate::specs::Declarations::declaration_of))]
fn draft_of<'a>(
    alloc: Global,
    pool: &'a Pool,
    method: &Member,
) -> Result<Option<Draft<'a>>, AllocError>
    ensures { IfOk result (λ found. option_map draft_read found ≡ declaration_of pool.now method.now) }
{
    let notes = annotations_in(method.attributes.as_slice());
    if !may_be_task(pool, method, notes) {
        return Ok(None);
    }
    match first_of_task(pool, notes) {
        None => Ok(None),
        Some(note) => draft_by(
            alloc,
            pool,
            pool.text_or_empty(method.descriptor),
            note.pairs.as_slice(),
        ),
    }
}

/// The path of a text that is one.
fn path_of(alloc: Global, text: Option<String>) -> Result<Option<Option<Path>>, GraphFault>
    ensures memory { IsOkUnless result GraphFault.Memory }
    ensures path { IfOk result (λ found. IsPathRead (option_map string_bytes text) found) }
{
    let Some(text) = text else {
        return Ok(Some(None));
    };
    match Path::of(alloc, text.as_bytes()) {
        Ok(path) => Ok(Some(Some(path))),
        Err(PathFault::BadPath) => Ok(None),
        Err(PathFault::Memory) => Err(GraphFault::Memory),
    }
}

fn settle<'a>(alloc: Global, draft: Draft<'a>) -> Result<Option<Declaration<'a>>, GraphFault>
    ensures memory { IsOkUnless result GraphFault.Memory }
    ensures settled { IfOk result (λ found. IsSettled (draft_read draft.entry) (option_map declaration_read found)) }
{
    let Draft {
        elements,
        parameters,
        returned,
    } = draft;
    let Elements {
        name,
        kind,
        inputs,
        path,
        budget,
    } = elements;
    match path_of(alloc, path)? {
        None => Ok(None),
        Some(path) => Ok(Some(Declaration {
            name,
            kind,
            inputs,
            path,
            budget,
            parameters,
            returned,
        })),
    }
}

/// What a method declares; `None` where it or its annotation breaks a rule by itself.
pub fn declaration_of<'a>(
    alloc: Global,
    pool: &'a Pool,
    method: &Member,
) -> Result<Option<Declaration<'a>>, GraphFault>
    ensures memory { IsOkUnless result GraphFault.Memory }
    ensures declared { IfOk result (λ found. Declares pool.now method.now (option_map declaration_read found)) }
{
    match draft_of(alloc, pool, method)? {
        None => Ok(None),
        Some(draft) => settle(alloc, draft),
    }
}
