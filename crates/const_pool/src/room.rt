//! Room for items that are read behind their count.

ghost use Rattle.std.specs.Prelude.{◌≡◌, ◌<◌, [], IfOk};

use sqlite_items::Items;
use std::alloc::{AllocError, Global};

/// An empty list with room for so many items, but for no more than so many bytes can spell, of which each item takes
/// some: a count that the bytes don't keep asks for no memory.
pub fn items_with_room<T>(
    alloc: Global,
    count: u16,
    bytes: usize,
    least: usize,
) -> Result<Items<T>, AllocError>
    requires { 0 < least }
    ensures { IfOk result (λ items. items ≡ []) }
{
    let most = usize::from(count).min(bytes / least);
    Ok(Items::from_vec(Vec::with_capacity(alloc, most)?))
}
