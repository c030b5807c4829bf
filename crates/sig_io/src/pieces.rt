// A text in pieces, given to a sink without memory.
ghost use Rattle.std.specs.Prelude.{◌≡◌, ◌≤◌, ℕ, length, take, OnOk, OnErr, IfSome};
ghost use Rattle.std.specs.List.{flat_map};
ghost use Rattle.std.specs.Io.KnownBytes.{append_known};
ghost use Rattle.sig_io.specs.Draft.{IsCut};
ghost use Rattle.sig_io.specs.Outside.{HasCause};

use crate::draft::put_at;
use crate::{Failed, Sink, put_all};

// The most bytes of a text that is gathered, so that it is given to the sink at once.
const SIZE: usize = 4096;

// Puts the pieces one after the other at the front of a buffer, where it has room for all, and answers where they end.
fn gather(pieces: &[&[u8]], buffer: &mut [u8]) -> Option<usize>
    ensures text { IfSome result (λ end. take end buffer.new ≡ flat_map (λ piece. piece.now) pieces.now) }
    ensures room { IfSome result (λ end. end ≤ length buffer.new) }
{
    let mut end = 0;
    for piece in pieces {
        if piece.len() > buffer.len() - end {
            return None;
        }
        put_at(buffer, end, piece);
        end += piece.len();
    }
    Some(end)
}

// Gives the sink the pieces, each by itself, up to a fault.
fn put_apart<O: Sink>(sink: &mut O, pieces: &[&[u8]]) -> Result<(), Failed>
    ensures ok { OnOk result (O.taken sink.new ≡ append_known (O.taken sink.old) (flat_map (λ piece. piece.now) pieces.now)) }
    ensures fault { OnErr result ((n : ℕ) × IsCut (O.taken sink.old) (O.taken sink.new) n (flat_map (λ piece. piece.now) pieces.now)) }
    ensures cause { HasCause (O.faults sink.old) (O.faults sink.new) result }
{
    for piece in pieces {
        match put_all(sink, piece) {
            Ok(()) => {}
            Err(_fault) => return Err(Failed),
        }
    }
    Ok(())
}

/// Gives the sink these pieces, one after the other, up to a fault. Pieces of at most 4,096 bytes together are given to it as one.
/// It takes no memory.
pub fn put_each<O: Sink>(sink: &mut O, pieces: &[&[u8]]) -> Result<(), Failed>
    ensures ok { OnOk result (O.taken sink.new ≡ append_known (O.taken sink.old) (flat_map (λ piece. piece.now) pieces.now)) }
    ensures fault { OnErr result ((n : ℕ) × IsCut (O.taken sink.old) (O.taken sink.new) n (flat_map (λ piece. piece.now) pieces.now)) }
    ensures cause { HasCause (O.faults sink.old) (O.faults sink.new) result }
{
    let mut buffer = [0; SIZE];
    let Some(end) = gather(pieces, &mut buffer) else {
        return put_apart(sink, pieces);
    };
    match put_all(sink, &buffer[..end]) {
        Ok(()) => Ok(()),
        Err(_fault) => Err(Failed),
    }
}
