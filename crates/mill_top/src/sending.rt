//! Writing to a sink.

ghost use Rattle.std.specs.Prelude.{◌≡◌, OnOk, OnErr, IsErrOf};
ghost use Rattle.io_traits.specs.Causes.{HasCause};
ghost use Rattle.io_traits.specs.Streams.{Got};
ghost use Rattle.mill_top.specs.Replies.{GotFront};

use io_traits::{IoFault, Sink};

/// Writes all the bytes. After a failure a front part of them is out.
pub fn send<K: Sink>(sink: &mut K, bytes: &[u8]) -> Result<(), IoFault>
    ensures ok { OnOk result (Got (K.got sink.old) (K.got sink.new) bytes.now) }
    ensures err { OnErr result (GotFront (K.got sink.old) (K.got sink.new) bytes.now) }
    ensures never_memory { ¬ IsErrOf result IoFault.Memory }
    ensures cause { HasCause (K.faults sink.old) (K.faults sink.new) result }
    ensures kept { K.kept sink.new ≡ K.kept sink.old }
    ensures plan { K.plan sink.new ≡ K.plan sink.old }
{
    let mut at = 0;
    while at < bytes.len() {
        let (_, rest) = bytes.split_at(at);
        at += sink.write(rest)?;
    }
    Ok(())
}
