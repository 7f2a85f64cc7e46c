//! Taking names away.

ghost use Rattle.std.specs.Prelude.{◌≡◌, ◌∷◌, [], OnOk, OnErr};
ghost use Rattle.out_store.specs.Changes.{takes_out, LeftByRemoves};
ghost use Rattle.out_store.specs.Faults.{HasCause};

use crate::fault::OutFault;
use io_traits::Store;
use tree_value::Path;

/// Takes two names away, one after the other.
pub(crate) fn remove_two<S: Store>(
    store: &mut S,
    first: &Path,
    second: &Path,
) -> Result<(), OutFault>
    ensures ok { OnOk result (S.content store.new ≡ takes_out (first.now ∷ second.now ∷ []) (S.content store.old)) }
    ensures err { OnErr result (LeftByRemoves (first.now ∷ second.now ∷ []) (S.content store.old) (S.content store.new)) }
    ensures cause { HasCause (S.faults store.old) (S.faults store.new) result }
    ensures kept { S.kept store.new ≡ S.kept store.old }
    ensures plan { S.plan store.new ≡ S.plan store.old }
{
    store.remove(first)?;
    store.remove(second)?;
    Ok(())
}

/// Takes the names away, one after the other.
pub(crate) fn remove_all<S: Store>(store: &mut S, names: &[Path]) -> Result<(), OutFault>
    ensures ok { OnOk result (S.content store.new ≡ takes_out names.now (S.content store.old)) }
    ensures err { OnErr result (LeftByRemoves names.now (S.content store.old) (S.content store.new)) }
    ensures cause { HasCause (S.faults store.old) (S.faults store.new) result }
    ensures kept { S.kept store.new ≡ S.kept store.old }
    ensures plan { S.plan store.new ≡ S.plan store.old }
{
    for name in names {
        store.remove(name)?;
    }
    Ok(())
}
