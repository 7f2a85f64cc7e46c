//! Lists of items, each of which is written by itself.

ghost use Rattle.std.specs.Prelude.{◌≡◌, ◌++◌, ◌<◌, ◌^◌, ℕ, List, Option, length, None, OnOk, IfErr, nat_lt};
ghost use Rattle.std.specs.List.{flat_map, AllByRecursion};
ghost use Rattle.class_model.specs.Annotations.{IsCounted};
ghost use Rattle.class_model.specs.Spelling as spelling;
ghost use Rattle.const_pool.specs.declared.write_fault.WriteFault.{WriteFault};
ghost use Rattle.const_pool.specs.declared.write_fault.WriteFault.TheVariants as faults;
ghost use Rattle.class_write.specs.Order.{unless, first_from, counted, Refuses};

use const_pool::{Part, WriteFault, put_u2};

/// The greatest count that fits its field.
const GREATEST_COUNT: usize = 65535;

/// How an item of a list is written.
pub(crate) trait WriteItem {
    type Item;

    /// The bytes of an item.
    ghost text: { Self → Self.Item → List ℕ };

    /// What an item has to be, so that it has a text.
    ghost is_shaped: { Self → Self.Item → Type 0 };

    /// Why the item of a number has none.
    ghost misfit: { Self → ℕ → Self.Item → Option WriteFault };

    /// Writes the item of a number at the end.
    fn write(&self, out: &mut Vec<u8>, number: u32, item: &Self::Item) -> Result<(), WriteFault>
        ensures ok { OnOk result (out.new.items ≡ out.old.items ++ text self.now item.now) }
        ensures shaped { OnOk result (is_shaped self.now item.now) }
        ensures none { OnOk result (misfit self.now number item.now ≡ None) }
        ensures fault { IfErr result (λ e. Refuses e (misfit self.now number item.now)) };
}

/// Writes items one behind the other.
pub(crate) fn write_many<W: WriteItem>(
    out: &mut Vec<u8>,
    writer: &W,
    items: &[W::Item],
) -> Result<(), WriteFault>
    requires { length items.now < 2 ^ 16 }
    ensures ok { OnOk result (out.new.items ≡ out.old.items
        ++ flat_map (W.text writer.now) items.now) }
    ensures shaped { OnOk result (AllByRecursion (W.is_shaped writer.now) items.now) }
    ensures none { OnOk result (first_from (W.misfit writer.now) 0 items.now ≡ None) }
    ensures fault { IfErr result (λ e. Refuses e (first_from (W.misfit writer.now) 0 items.now)) }
{
    for i in 0..items.len() {
        writer.write(out, i as u32, &items[i])?;
    }
    Ok(())
}

/// Writes the count of the items of a part at the end, where it fits its field.
#[tactic(auto, using(crate::proofs::Faults::faults))]
pub(crate) fn put_count(out: &mut Vec<u8>, part: Part, count: usize) -> Result<(), WriteFault>
    ensures ok { OnOk result (out.new.items ≡ out.old.items ++ spelling.u2 count) }
    ensures few { OnOk result (count < 2 ^ 16) }
    ensures fault { IfErr result
        (λ e. Refuses e (unless (nat_lt count (2 ^ 16)) (faults.TooLarge part))) }
{
    if count > GREATEST_COUNT {
        return Err(WriteFault::TooLarge(part));
    }
    put_u2(out, count as u16)?;
    Ok(())
}

/// Writes the items of a part behind their count.
pub(crate) fn write_counted<W: WriteItem>(
    out: &mut Vec<u8>,
    writer: &W,
    part: Part,
    items: &[W::Item],
) -> Result<(), WriteFault>
    ensures ok { OnOk result (out.new.items ≡ out.old.items
        ++ spelling.counted (W.text writer.now) items.now) }
    ensures shaped { OnOk result (IsCounted (W.is_shaped writer.now) items.now) }
    ensures none { OnOk result (counted part (W.misfit writer.now) items.now ≡ None) }
    ensures fault { IfErr result (λ e. Refuses e (counted part (W.misfit writer.now) items.now)) }
{
    put_count(out, part, items.len())?;
    write_many(out, writer, items)?;
    Ok(())
}
