//! Lists to which an item may be added.

ghost use Rattle.std.specs.Prelude.{◌≡◌, ◌++◌, OnOk};
ghost use Rattle.std.specs.Option.{option_to_list};

use sqlite_items::Items;
use std::alloc::AllocError;

/// Adds an item, if there is one.
pub(crate) fn push_some<T: Drop>(items: &mut Items<T>, item: Option<T>) -> Result<(), AllocError>
    ensures { OnOk result (items.new ≡ items.old ++ option_to_list item) }
{
    match item {
        Some(item) => items.push(item),
        None => Ok(()),
    }
}
