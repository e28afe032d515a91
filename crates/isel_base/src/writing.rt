//! All bytes of a text, written in as many pieces as the sink takes. At the head of the loop the first
//! `done` bytes were appended.

ghost use Rattle.std.specs.Prelude.{◌≡◌, ◌≤◌, ◌++◌, OnOk, OnErr, option_map};
ghost use Rattle.isel_base.specs.Outside.{Rose, HasPrefix};

use crate::traits::{Failed, Sink};

/// Appends all bytes to a sink, in as many pieces as it takes. An `Err` says that the sink failed
/// after a part of the bytes. It takes no memory.
pub fn put_all<S: Sink>(sink: &mut S, bytes: &[u8]) -> Result<(), Failed>
    ensures ok { OnOk result (S.written sink.new ≡ option_map (λ w. w ++ bytes.now) (S.written sink.old)) }
    ensures failed { OnErr result (HasPrefix (S.written sink.old) bytes.now (S.written sink.new)) }
    ensures cause { OnErr result (Rose (S.faults sink.old) (S.faults sink.new)) }
    ensures counts { S.faults sink.old ≤ S.faults sink.new }
{
    let mut done = 0;
    while done < bytes.len() {
        let count = sink.put(&bytes[done..])?;
        if count == 0 {
            return Err(Failed);
        }
        done += count;
    }
    Ok(())
}
