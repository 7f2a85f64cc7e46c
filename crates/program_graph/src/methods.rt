//! Methods in their order.

ghost use Rattle.std.specs.Prelude.{◌≡◌, IfOk, OnOk, All, IsPermutation};
ghost use Rattle.class_model.specs.Shape.{Shaped, IsMethod};
ghost use Rattle.task_annotations.specs.Reading.{site_read, sites_read};
ghost use Rattle.program_graph.specs.Methods.{by_class, by_name, by_descriptor, site_cmp, AreInOrder};

use std::alloc::AllocError;
use std::cmp::Ordering;
use task_annotations::Site;

fn by_class(one: Site<'_>, other: Site<'_>) -> Ordering
    ensures { result ≡ by_class (site_read one.entry) (site_read other.entry) }
{
    one.class.name().cmp(other.class.name())
}

fn by_name(one: Site<'_>, other: Site<'_>) -> Ordering
    ensures { result ≡ by_name (site_read one.entry) (site_read other.entry) }
{
    let name = one.class.pool.text_or_empty(one.method.name);
    name.cmp(other.class.pool.text_or_empty(other.method.name))
}

fn by_descriptor(one: Site<'_>, other: Site<'_>) -> Ordering
    ensures { result ≡ by_descriptor (site_read one.entry) (site_read other.entry) }
{
    let descriptor = one.class.pool.text_or_empty(one.method.descriptor);
    descriptor.cmp(other.class.pool.text_or_empty(other.method.descriptor))
}

/// By class, then by name, then by descriptor.
fn site_cmp(one: Site<'_>, other: Site<'_>) -> Ordering
    ensures { result ≡ site_cmp (site_read one.entry) (site_read other.entry) }
{
    by_class(one, other)
        .then(by_name(one, other))
        .then(by_descriptor(one, other))
}

/// Puts methods in their order.
pub(crate) fn sort_sites(sites: &mut Vec<Site<'_>>) -> Result<(), AllocError>
    ensures { OnOk result (AreInOrder (sites_read sites.old.items) (sites_read sites.new.items)) }
{
    sites.sort_by(|one, other| site_cmp(*one, *other))
}
