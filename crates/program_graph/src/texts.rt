//! The texts that refusals and rows hold.

ghost use Rattle.std.specs.Prelude.{◌≡◌, IfOk, IsOkUnless, IsUtf8};
ghost use Rattle.task_graph.specs.declared.fault.GraphFault.TheVariants.{Memory};
ghost use Rattle.class_model.specs.Shape.{Shaped, IsMethod};
ghost use Rattle.class_verify.specs.Verified.{IsNamed};

use class_model::{MethodId, Name};
use std::alloc::{AllocError, Global};
use task_annotations::Site;
use task_graph::GraphFault;
use tree_value::Text;

/// The text of bytes that are one.
pub(crate) fn text_of(alloc: Global, bytes: &[u8]) -> Result<Text, GraphFault>
    requires { IsUtf8 bytes.now }
    ensures text { IfOk result (λ text. text ≡ bytes.now) }
    ensures memory { IsOkUnless result GraphFault.Memory }
{
    match Text::of(alloc, bytes) {
        Ok(text) => Ok(text),
        Err(_) => Err(GraphFault::Memory),
    }
}

/// The texts of a method.
pub(crate) fn method_id(alloc: Global, site: Site<'_>) -> Result<MethodId, AllocError>
    requires class { Shaped site.class.now }
    requires method { IsMethod site.class.now.pool site.method.now }
    ensures { IfOk result (λ id. IsNamed site.entry.class.now site.entry.method.now id) }
{
    let pool = &site.class.pool;
    let name = Name::of_valid(alloc, pool.text_or_empty(site.method.name))?;
    let descriptor = Name::of_valid(alloc, pool.text_or_empty(site.method.descriptor))?;
    let class = Name::of_valid(alloc, site.class.name())?;
    Ok(MethodId {
        class,
        name,
        descriptor,
    })
}
