// Pieces of any length.
ghost use Rattle.sig_io.specs.Draft.{Puts};

use sig_io::{Draft, Sink};

/// Puts bytes of any number.
pub(crate) fn put_long<O: Sink>(draft: &mut Draft, out: &mut O, bytes: &[u8])
    ensures { Puts O.taken O.faults draft.old draft.new out.old out.new bytes.now }
{
    let mut at = 0;
    while at < bytes.len() {
        let end = bytes.len().min(at + 4096);
        draft.put(out, &bytes[at..end]);
        at = end;
    }
}
