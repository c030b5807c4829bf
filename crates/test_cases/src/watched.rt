// Files and sinks of a test's own, which watch how they are called, and runs whose calls fail in turn.
ghost use Rattle.std.specs.Prelude.{◌≡◌, ◌<◌, ℕ, [], false, true, None, Ok, IfOk};

use crate::cases::{Case, files};
use sig_io::{Failed, Files, MemFiles, MemSink, Sink};
use std::alloc::Global;
use std::test::Fail;

/// Files in memory that don't tell what they hold. They note the first byte of each name that is asked for, once while the same
/// is asked for on and on, and a `!` for each call that fails; a name after a `!` is noted anew.
#[derive(Drop)]
pub struct WatchedFiles {
    /// The files.
    pub files: MemFiles,
    /// What was noted.
    pub asked: Vec<u8>,
}

impl Files for WatchedFiles {
    ghost told = { λ m. None };

    ghost faults = { λ m. ⟦<MemFiles as Files>⟧.faults m.files };

    fn read_at(&mut self, name: &str, place: u64, buf: &mut [u8]) -> Result<usize, Failed> {
        let first = name.as_bytes().first().copied();
        if let Some(byte) = first
            && self.asked.last().copied() != first
        {
            let _ = self.asked.push(byte);
        }
        let read = self.files.read_at(name, place, buf);
        if read.is_err() {
            let _ = self.asked.push(b'!');
        }
        read
    }
}

/// A sink that takes at most seven bytes a call, doesn't tell what it took, and counts the calls after one that failed.
#[derive(Drop)]
pub struct WatchedSink {
    /// The sink.
    pub sink: MemSink,
    /// Whether a call failed.
    pub failed: bool,
    /// How many calls came after that.
    pub late: u32,
}

impl Sink for WatchedSink {
    ghost taken = { λ s. None };

    ghost faults = { λ s. ⟦<MemSink as Sink>⟧.faults s.sink };

    fn write_some(&mut self, piece: &[u8]) -> Result<usize, Failed> {
        if self.failed {
            self.late = self.late.saturating_add(1);
        }
        let (front, _) = piece.split_at(piece.len().min(7));
        let taken = self.sink.write_some(front);
        self.failed = self.failed || taken.is_err();
        taken
    }
}

/// Whose call fails.
#[derive(Clone, Copy)]
pub enum Side {
    /// A read of a file.
    Read,
    /// A write to the output.
    Write,
}

/// The files of a case, which give one byte a call, and its output, of which the call of that number fails on this side.
pub fn failing(
    alloc: Global,
    case: &Case<'_>,
    side: Side,
    call: u64,
) -> Result<(WatchedFiles, WatchedSink), Fail>
    ensures { IfOk result (λ made. (made.0.asked.items ≡ []) × (made.1.failed ≡ false) × (made.1.late ≡ 0)) }
{
    let calls = vec![in alloc; call]?;
    let (reads, writes) = match side {
        Side::Read => (calls, Vec::new(alloc)),
        Side::Write => (Vec::new(alloc), calls),
    };
    let files = WatchedFiles {
        files: MemFiles::new(files(alloc, case)?, reads, 1),
        asked: Vec::new(alloc),
    };
    let out = WatchedSink {
        sink: MemSink::new(alloc, case.room, writes)?,
        failed: false,
        late: 0,
    };
    Ok((files, out))
}

// More calls than a run of a test makes.
const MOST: u64 = 2000;

/// How many calls fail one after the other until a run is done before the next one: whether it is, is told of the number of the
/// call that fails.
pub fn failing_calls<F: Fn(u64) -> Result<bool, Fail>>(is_done_before: F) -> Result<u64, Fail>
    requires { F.IsAlwaysCallable is_done_before }
    ensures done { IfOk result (λ calls. F.post is_done_before calls (Ok true)) }
    ensures failed { IfOk result (λ calls. (call : ℕ) → call < calls → F.post is_done_before call (Ok false)) }
{
    for call in 0..MOST {
        if is_done_before(call)? {
            return Ok(call);
        }
    }
    Err(Fail::new("never ends"))
}
