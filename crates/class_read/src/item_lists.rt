//! Lists of items, each of which is read by itself.

ghost use Rattle.class_text.specs.Readers.{Reader, many_at, counted_at};
ghost use Rattle.const_pool.specs.Faults.{GivesFront};

use crate::numbers::u2_in;
use const_pool::ClassFault;
use sqlite_items::Items;
use std::alloc::Global;

/// How an item of a list is read.
pub(crate) trait ReadItem {
    type Item: Drop;

    ghost one: { Self → Reader Self.Item };

    /// The item at the front of bytes that go on to an end.
    fn read<'a>(&self, end: u32, bytes: &'a [u8]) -> Result<(Self::Item, &'a [u8]), ClassFault>
        ensures { GivesFront result (one self.now end bytes.now) };
}

/// So many items.
pub(crate) fn many_in<'a, R: ReadItem>(
    alloc: Global,
    reader: &R,
    count: u16,
    end: u32,
    bytes: &'a [u8],
) -> Result<(Items<R::Item>, &'a [u8]), ClassFault>
    ensures { GivesFront result (many_at (R.one reader.now) count end bytes.now) }
{
    let mut items = Items::new(alloc);
    let mut rest = bytes;
    for i in 0..count {
        match reader.read(end, rest) {
            Ok((item, more)) => {
                items.push(item)?;
                rest = more;
            }
            Err(fault) => return Err(fault),
        }
    }
    Ok((items, rest))
}

/// Items behind their count.
#[tactic(auto, unfolding(class_text::specs::Readers::counted_after))]
pub(crate) fn counted_in<'a, R: ReadItem>(
    alloc: Global,
    reader: &R,
    end: u32,
    bytes: &'a [u8],
) -> Result<(Items<R::Item>, &'a [u8]), ClassFault>
    ensures { GivesFront result (counted_at (R.one reader.now) end bytes.now) }
{
    let (count, rest) = u2_in(end, bytes)?;
    many_in(alloc, reader, count, end, rest)
}
