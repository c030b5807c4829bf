// Whole files and whole texts.
ghost use Rattle.std.specs.Prelude.{◌≡◌, ℕ, ◌+◌, ◌<◌, ◌≤◌, length, take, Option, IfOk, OnOk, IfErr, vec_len, Err};
ghost use Rattle.std.specs.Option.{ForSome};
ghost use Rattle.std.specs.Io.KnownBytes.{append_known};
ghost use Rattle.sig_io.specs.Outside.{HasCause, ReadsOn, Rose};
ghost use Rattle.sig_io.specs.declared.whole.ReadRefusal.TheVariants.{Memory};

use crate::{Files, Sink};
use std::alloc::{AllocError, Global};
use thiserror::Error;

/// A text that a sink didn't take whole, since a write failed.
#[derive(Clone, Copy, Debug, PartialEq, Eq)]
pub struct PutFault {
    /// How many of the text's first bytes were taken.
    pub taken: usize,
}

/// Why a file was not read whole.
#[derive(Clone, Copy, Debug, PartialEq, Eq, Error)]
pub enum ReadRefusal {
    /// Memory for its bytes was wanted and could not be had.
    #[error("memory was wanted")]
    Memory,
    /// A read failed.
    #[error("the file could not be read")]
    Fault,
    /// It has more bytes than the limit; so many were seen, which is one more than the limit.
    #[error("the file has more bytes than its limit")]
    TooLong(usize),
}

impl From<AllocError> for ReadRefusal {
    ghost from_gives = { λ _ e. e ≡ Memory };

    fn from(_: AllocError) -> Self {
        ReadRefusal::Memory
    }
}

/// Gives the sink all the bytes, in as many pieces as it takes them. It takes no memory.
///
/// It fails only where a write failed, and then tells how many bytes went out before.
pub fn put_all<O: Sink>(sink: &mut O, bytes: &[u8]) -> Result<(), PutFault>
    ensures ok { OnOk result (O.taken sink.new ≡ append_known (O.taken sink.old) bytes.now) }
    ensures fault { IfErr result
        (λ f. (f.taken < length bytes.now) × (O.taken sink.new ≡ append_known (O.taken sink.old) (take f.taken bytes.now))) }
    ensures cause { HasCause (O.faults sink.old) (O.faults sink.new) result }
{
    let mut taken = 0;
    while taken < bytes.len() {
        let (_, rest) = bytes.split_at(taken);
        match sink.write_some(rest) {
            Ok(n) => taken += n,
            Err(_) => return Err(PutFault { taken }),
        }
    }
    Ok(())
}

const CHUNK: usize = 4096;

// Reads on at the end of what has been read, at most `room` bytes.
fn read_more<F: Files>(
    files: &mut F,
    name: &str,
    bytes: &mut Vec<u8>,
    room: usize,
) -> Result<usize, ReadRefusal>
    requires { 0 < room }
    ensures count { IfOk result (λ n. n ≤ room) }
    ensures len { IfOk result (λ n. vec_len bytes.new ≡ vec_len bytes.old + n) }
    ensures bytes { ForSome (F.told files.old)
        (λ file. IfOk result (λ n. ReadsOn (file name.now) bytes.old.items n bytes.new.items)) }
    ensures contents_stay { F.told files.new ≡ F.told files.old }
    ensures later { F.faults files.old ≤ F.faults files.new }
    ensures cause { result ≡ Err ReadRefusal.Fault → Rose (F.faults files.old) (F.faults files.new) }
    ensures fits { (n : ℕ) → result ≡ Err (ReadRefusal.TooLong n) → ⊥ }
{
    let mut chunk = [0u8; CHUNK];
    let most = CHUNK.min(room);
    let place = bytes.len();
    match files.read_at(name, place as u64, &mut chunk[..most]) {
        Ok(n) => {
            bytes.extend_from_slice(&chunk[..n])?;
            Ok(n)
        }
        Err(_) => Err(ReadRefusal::Fault),
    }
}

/// Reads a file of at most `limit` bytes, from its beginning to its end.
///
/// It answers `Fault` only where a read failed, and `TooLong` where the file has more bytes than the limit.
pub fn read_whole<F: Files>(
    alloc: Global,
    files: &mut F,
    name: &str,
    limit: usize,
) -> Result<Vec<u8>, ReadRefusal>
    requires { limit < usize.MAX }
    ensures bytes { ForSome (F.told files.old) (λ file. IfOk result (λ v. v.items ≡ file name.now)) }
    ensures within { IfOk result (λ v. vec_len v ≤ limit) }
    ensures too_long { ForSome (F.told files.old)
        (λ file. (n : ℕ) → result ≡ Err (ReadRefusal.TooLong n) → limit < length (file name.now)) }
    ensures seen { (n : ℕ) → result ≡ Err (ReadRefusal.TooLong n) → n ≡ limit + 1 }
    ensures contents_stay { F.told files.new ≡ F.told files.old }
    ensures later { F.faults files.old ≤ F.faults files.new }
    ensures cause { result ≡ Err ReadRefusal.Fault → Rose (F.faults files.old) (F.faults files.new) }
{
    let mut bytes = Vec::new(alloc);
    while bytes.len() <= limit {
        let room = limit + 1 - bytes.len();
        let n = read_more(files, name, &mut bytes, room)?;
        if n == 0 {
            return Ok(bytes);
        }
    }
    Err(ReadRefusal::TooLong(bytes.len()))
}
