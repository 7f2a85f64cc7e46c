//! The tasks that methods declare.

ghost use Rattle.std.specs.Prelude.{◌≡◌, ◌≢◌, ◌++◌, ◌∷◌, [], All, Some, IfOk, IfErr, OnOk, map, option_copied};
ghost use Rattle.task_graph.specs.declared.fault.GraphFault.TheVariants.{Memory};
ghost use Rattle.class_model.specs.Shape.{Shaped, IsMethod};
ghost use Rattle.task_annotations.specs.Reading.{site_read, sites_read, declaration_read};
ghost use Rattle.program_graph.specs.Tasks.{unsupported, DeclaresBy, IsAccepted, IsRefusal, IsFirstRefused};
ghost use Rattle.program_graph.specs.Reading.{task_read, tasks_read};

use crate::texts::{method_id, text_of};
use std::alloc::{AllocError, Global};
use task_annotations::{Declaration, DeclaredKind, Site, declaration_of};
use task_graph::GraphFault;

/// A method and what it declares.
#[derive(Drop)]
pub(crate) struct Task<'a> {
    pub site: Site<'a>,
    pub declaration: Declaration<'a>,
}

/// The word of a kind that is not supported.
fn unsupported(kind: DeclaredKind) -> Option<&'static [u8]>
    ensures { option_copied result ≡ unsupported kind }
{
    match kind {
        DeclaredKind::Supported(_) => None,
        DeclaredKind::Worker => Some(b"worker"),
        DeclaredKind::Persistent => Some(b"persistent"),
    }
}

/// The task of a method, if its kind is supported.
fn accept<'a>(
    alloc: Global,
    site: Site<'a>,
    declaration: Declaration<'a>,
) -> Result<Task<'a>, GraphFault>
    requires { DeclaresBy (site_read site) (Some (declaration_read declaration)) }
    ensures accepted { IfOk result (λ t. IsAccepted (task_read t)) }
    ensures site { IfOk result (λ t. t.site ≡ site.entry) }
    ensures fault { IfErr result (λ fault. fault ≢ Memory → IsRefusal (site_read site.entry) fault) }
{
    match unsupported(declaration.kind) {
        None => Ok(Task { site, declaration }),
        Some(kind) => {
            let task = text_of(alloc, declaration.name)?;
            let kind = text_of(alloc, kind)?;
            Err(GraphFault::UnsupportedKind { task, kind })
        }
    }
}

/// The task of a method.
fn task_of<'a>(alloc: Global, site: Site<'a>) -> Result<Task<'a>, GraphFault>
    requires class { Shaped site.class.now }
    requires method { IsMethod site.class.now.pool site.method.now }
    ensures accepted { IfOk result (λ t. IsAccepted (task_read t)) }
    ensures site { IfOk result (λ t. t.site ≡ site.entry) }
    ensures fault { IfErr result (λ fault. fault ≢ Memory → IsRefusal (site_read site.entry) fault) }
{
    match declaration_of(alloc, &site.class.pool, site.method)? {
        None => Err(GraphFault::BadTask(method_id(alloc, site)?)),
        Some(declaration) => accept(alloc, site, declaration),
    }
}

fn push_task<'a>(tasks: &mut Vec<Task<'a>>, task: Task<'a>) -> Result<(), AllocError>
    ensures { OnOk result (tasks.new.items ≡ tasks.old.items ++ (task.entry ∷ [])) }
{
    tasks.push(task)?;
    Ok(())
}

/// The tasks of methods, or the first refusal.
pub(crate) fn tasks_of<'a>(alloc: Global, sites: &[Site<'a>]) -> Result<Vec<Task<'a>>, GraphFault>
    requires { All (λ s. Shaped s.class × IsMethod s.class.pool s.method) (sites_read sites.now) }
    ensures accepted { IfOk result (λ tasks. All IsAccepted (tasks_read tasks.items)) }
    ensures sites { IfOk result (λ tasks. map (λ t. t.site) (tasks_read tasks.items) ≡ sites_read sites.now) }
    ensures fault { IfErr result (λ fault. fault ≢ Memory → IsFirstRefused (sites_read sites.now) fault) }
{
    let mut tasks = Vec::new(alloc);
    for at in 0..sites.len() {
        match task_of(alloc, sites[at]) {
            Ok(task) => push_task(&mut tasks, task)?,
            Err(fault) => return Err(fault),
        }
    }
    Ok(tasks)
}
