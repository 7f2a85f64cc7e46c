//! The methods of classes that are to be tasks.

ghost use Rattle.std.specs.Prelude.{◌≡◌, ◌++◌, ◌<◌, ◌≤◌, ◌^◌, All, IfOk, OnOk, length};
ghost use Rattle.std.specs.List.{list_any};
ghost use Rattle.task_annotations.specs.Sites.{is_task, sites_from, sites_of, is_long, has_long, has_many_inputs, limit_passed};
ghost use Rattle.task_annotations.specs.Reading.{site_read, sites_read};

use crate::annotations::{annotations_in, array_in, is_of_task, is_pair_of};
use class_model::{Class, ClassId, Member, MemberId, Note, Pair, Pool};
use std::alloc::{AllocError, Global};
use task_graph::Limit;

/// The most tasks of a build.
pub const MAX_TASKS: usize = 4096;

/// The most inputs of a task.
pub const MAX_INPUTS: usize = 64;

/// A method with a Task annotation.
#[derive(Clone, Copy)]
pub struct Site<'a> {
    pub class: &'a Class,
    pub method: &'a Member,
    pub member: MemberId,
}

fn is_task(pool: &Pool, method: &Member) -> bool
    ensures { result ≡ is_task pool.now method.now }
{
    let notes = annotations_in(method.attributes.as_slice());
    notes.iter().any(|note| is_of_task(pool, note))
}

/// Puts the methods of a class that are to be tasks behind the others.
fn push_sites<'a>(sites: &mut Vec<Site<'a>>, class: &'a Class, at: u32) -> Result<(), AllocError>
    requires { length class.now.methods < 2 ^ 32 }
    ensures { OnOk result (sites_read sites.new.items
        ≡ sites_read sites.old.items ++ sites_from class.now at 0 class.now.methods) }
{
    let methods = class.methods.as_slice();
    for place in 0..methods.len() {
        let method = &methods[place];
        if is_task(&class.pool, method) {
            let member = MemberId {
                class: ClassId::Own(at),
                at: place as u32,
            };
            sites.push(Site {
                class,
                method,
                member,
            })?;
        }
    }
    Ok(())
}

/// The methods that are to be tasks, in the order of classes and of their methods.
#[tactic(auto, unfolding(crate::specs::Sites::sites_of))]
pub fn sites_of<'a>(alloc: Global, classes: &'a [Class]) -> Result<Vec<Site<'a>>, AllocError>
    requires few { length classes.now < 2 ^ 32 }
    requires methods { All (λ c. length c.methods < 2 ^ 32) classes.now }
    ensures { IfOk result (λ sites. sites_read sites.items ≡ sites_of classes.now) }
{
    let mut sites = Vec::new(alloc);
    for at in 0..classes.len() {
        push_sites(&mut sites, &classes[at], at as u32)?;
    }
    Ok(sites)
}

fn is_long(pool: &Pool, pair: &Pair) -> bool
    ensures { result ≡ is_long pool.now pair.now }
{
    if !is_pair_of(pool, b"inputs", pair) {
        return false;
    }
    match array_in(&pair.value) {
        None => false,
        Some(values) => values.len() > MAX_INPUTS,
    }
}

fn some_long(pool: &Pool, pairs: &[Pair]) -> bool
    ensures { result ≡ list_any (is_long pool.now) pairs.now }
{
    pairs.iter().any(|pair| is_long(pool, pair))
}

fn has_long(pool: &Pool, note: &Note) -> bool
    ensures { result ≡ has_long pool.now note.now }
{
    if !is_of_task(pool, note) {
        return false;
    }
    some_long(pool, note.pairs.as_slice())
}

fn has_many_inputs(site: Site<'_>) -> bool
    ensures { result ≡ has_many_inputs (site_read site.entry) }
{
    let notes = annotations_in(site.method.attributes.as_slice());
    notes.iter().any(|note| has_long(&site.class.pool, note))
}

fn some_has_many(sites: &[Site<'_>]) -> bool
    ensures { result ≡ list_any has_many_inputs (sites_read sites.now) }
{
    for site in sites {
        if has_many_inputs(*site) {
            return true;
        }
    }
    false
}

/// The limit that is passed.
pub fn limit_passed(sites: &[Site<'_>]) -> Option<Limit>
    ensures { result ≡ limit_passed (sites_read sites.now) }
{
    if sites.len() > MAX_TASKS {
        return Some(Limit::Tasks);
    }
    if some_has_many(sites) {
        Some(Limit::Inputs)
    } else {
        None
    }
}
