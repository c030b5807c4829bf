// The files and the output of a call, which watch how they are called.
ghost use Rattle.std.specs.Prelude.{◌≤◌, None};

use itoa::Buffer;
use sig_io::{DiskFiles, Failed, Files, MemFiles, MemSink, Sink};
use std::alloc::AllocError;
use std::sync::atomic::{AtomicU64, Ordering};

/// The files of a case, and those of the system where a name is none of them. They note each name that is asked for, with a blank
/// before it, once while the same is asked for on and on, and a `!` for each read that fails; and they count the reads of one file.
#[derive(Drop)]
pub struct CaseFiles<'a> {
    pub own: MemFiles,
    pub disk: DiskFiles<'a, HostRuntime>,
    pub asked: String,
    pub counted: &'a str,
    pub reads: &'a AtomicU64,
}

// Notes a name, unless it is the last one.
fn note_name(asked: &mut String, name: &str) -> Result<(), AllocError> {
    if let Some(before) = asked.as_str().strip_suffix(name)
        && before.ends_with(" ")
    {
        return Ok(());
    }
    asked.push_str(" ")?;
    asked.push_str(name)
}

impl<'a> Files for CaseFiles<'a> {
    ghost told = { λ m. None };

    ghost faults = { λ m. ⟦<DiskFiles<'a, HostRuntime> as Files>⟧.faults m.disk };

    fn read_at(&mut self, name: &str, place: u64, buf: &mut [u8]) -> Result<usize, Failed> {
        let _ = note_name(&mut self.asked, name);
        if name == self.counted {
            self.reads.fetch_add(1, Ordering::SeqCst);
        }
        if let Ok(count) = self.own.read_at(name, place, buf) {
            return Ok(count);
        }
        let read = self.disk.read_at(name, place, buf);
        if read.is_err() {
            let _ = self.asked.push('!');
        }
        read
    }
}

/// A sink that takes at most so many bytes a write. It counts its writes, sees whether one comes after one that failed, and notes
/// of each the reads of one file before it and the text, where it is to.
#[derive(Drop)]
pub struct CaseSink<'a> {
    pub sink: MemSink,
    pub most: usize,
    pub writes: u64,
    pub has_failed: bool,
    pub is_late: bool,
    pub is_noted: bool,
    pub calls: Vec<u8>,
    pub reads: &'a AtomicU64,
}

/// Notes so many reads, and a text.
pub fn note_call(calls: &mut Vec<u8>, reads: u64, text: &[u8]) -> Result<(), AllocError> {
    calls.extend_from_slice(Buffer::new().format(reads).as_bytes())?;
    calls.push(b' ')?;
    calls.extend_from_slice(text)
}

impl<'a> Sink for CaseSink<'a> {
    ghost taken = { λ s. None };

    ghost faults = { λ s. ⟦<MemSink as Sink>⟧.faults s.sink };

    fn write_some(&mut self, piece: &[u8]) -> Result<usize, Failed> {
        let (front, _) = piece.split_at(piece.len().min(self.most.max(1)));
        if self.is_noted {
            let _ = note_call(&mut self.calls, self.reads.load(Ordering::SeqCst), front);
        }
        self.writes = self.writes.saturating_add(1);
        self.is_late = self.is_late || self.has_failed;
        let taken = self.sink.write_some(front);
        self.has_failed = self.has_failed || taken.is_err();
        taken
    }
}
