// Bytes of any number.
ghost use Rattle.std.specs.Prelude.{◌≤◌, length};
ghost use Rattle.sig_io.specs.Draft.{Puts};

use sig_io::{Draft, Sink};

// The most bytes that a draft takes at once.
const PIECE: usize = 4096;

/// Puts bytes of any number at the end of a draft.
pub fn put_long<O: Sink>(draft: &mut Draft, sink: &mut O, bytes: &[u8])
    ensures { Puts O.taken O.faults draft.old draft.new sink.old sink.new bytes.now }
{
    let mut at = 0;
    while at < bytes.len() {
        let end = bytes.len().min(at + PIECE);
        draft.put(sink, &bytes[at..end]);
        at = end;
    }
}
