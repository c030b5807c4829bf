// Files and sinks in memory, whose calls fail where they are told to.
ghost use Rattle.sig_io.specs.Outside.{HasCause, IsRead};
ghost use Rattle.sig_io.specs.Memory.{Fails, contents_of, file_of};
ghost use Rattle.std.specs.Prelude.{◌≡◌, ◌⊎◌, ◌++◌, ◌+◌, ◌-◌, ◌^◌, ◌<◌, ◌≤◌, min, [], length, take, Some, None, Contains, IfOk, OnOk, OnErr, MatchOption, vec_len, vec_capacity};

use crate::{Failed, Files, Sink};
use sig_types::Memory;
use std::alloc::Global;

/// The bytes of the first file of that name.
pub fn find<'a>(files: &'a [(String, Vec<u8>)], name: &str) -> Option<&'a [u8]>
    ensures { MatchOption result (file_of files.now name.now ≡ None) (λ bytes. file_of files.now name.now ≡ Some bytes.now) }
{
    for (own, bytes) in files {
        if own.as_str() == name {
            return Some(bytes.as_slice());
        }
    }
    None
}

/// Copies from that place on at most `most` bytes, and as many as fit.
pub fn copy_from(bytes: &[u8], place: u64, most: usize, buf: &mut [u8]) -> usize
    requires most { 1 ≤ most }
    requires room { 0 < length buf.old }
    ensures count { result ≤ length buf.new }
    ensures most { result ≤ most }
    ensures bytes { IsRead bytes.now place result buf.new }
{
    if place >= bytes.len() as u64 {
        return 0;
    }
    let (_, rest) = bytes.split_at(place as usize);
    let n = rest.len().min(most).min(buf.len());
    buf[..n].copy_from_slice(&rest[..n]);
    n
}

/// Files in memory. A name given twice has its first bytes, and a read gives at most `most` bytes. Calls are numbered
/// from 0: those with the numbers in `failing` fail, and so does one of a name that isn't there.
#[derive(Drop)]
pub struct MemFiles {
    files: Vec<(String, Vec<u8>)>,
    failing: Vec<u64>,
    most: usize,
    calls: u64,
    faults: u64,
    ghost at_least: { 1 ≤ most },
}

impl MemFiles {
    ghost use Rattle.sig_io.specs.Memory.{contents_of};
    ghost use Rattle.sig_io.specs.InMemory.{failing_reads, files_in, most_given, reads_called};

    /// Files of these names and bytes; no call has been made.
    pub fn new(files: Vec<(String, Vec<u8>)>, failing: Vec<u64>, most: usize) -> MemFiles
        requires { 1 ≤ most }
        ensures told { ⟦<MemFiles as Files>⟧.told result ≡ Some (contents_of files.items) }
        ensures faults { ⟦<MemFiles as Files>⟧.faults result ≡ 0 }
        ensures files { files_in result ≡ files.items }
        ensures first { reads_called result ≡ 0 }
        ensures kept { (failing_reads result ≡ failing.items) × (most_given result ≡ most) }
    {
        MemFiles {
            files,
            failing,
            most,
            calls: 0,
            faults: 0,
        }
    }
}

impl Files for MemFiles {
    ghost use Rattle.sig_io.specs.Memory.{contents_of};
    ghost use Rattle.sig_io.specs.InMemory.{failed_reads, failing_reads, files_in, most_given, reads_called};

    ghost told = { λ m. Some (contents_of m.files.items) };

    ghost faults = { λ m. m.faults };

    fn read_at(&mut self, name: &str, place: u64, buf: &mut [u8]) -> Result<usize, Failed>
        requires { 0 < length buf.old }
        ensures count { IfOk result (λ n. n ≤ length buf.new) }
        ensures bytes { IfOk result (λ n. IsRead (contents_of (files_in self.old) name.now) place n buf.new) }
        ensures contents_stay { files_in self.new ≡ files_in self.old }
        ensures cause { HasCause (failed_reads self.old) (failed_reads self.new) result }
        ensures fails { OnErr result
            (Fails (failing_reads self.old) (reads_called self.old) (file_of (files_in self.old) name.now)) }
        ensures serves { OnOk result
            (Fails (failing_reads self.old) (reads_called self.old) (file_of (files_in self.old) name.now) → ⊥) }
        ensures most { IfOk result (λ n. n ≤ most_given self.old) }
        ensures next { reads_called self.new ≡ min (reads_called self.old + 1) (2 ^ 64 - 1) }
        ensures kept { (failing_reads self.new ≡ failing_reads self.old) × (most_given self.new ≡ most_given self.old) }
        ensures faults { OnOk result (failed_reads self.new ≡ failed_reads self.old) }
    {
        let call = self.calls;
        self.calls = self.calls.saturating_add(1);
        if !self.failing.contains(&call) {
            if let Some(bytes) = find(&self.files, name) {
                return Ok(copy_from(bytes, place, self.most, buf));
            }
        }
        self.faults = self.faults.saturating_add(1);
        Err(Failed)
    }
}

/// A sink in memory with room for so many bytes. Calls are numbered from 0: those with the numbers in `failing` fail,
/// and so does one that finds no room.
#[derive(Drop)]
pub struct MemSink {
    bytes: Vec<u8>,
    room: usize,
    failing: Vec<u64>,
    calls: u64,
    faults: u64,
    ghost within: { vec_len bytes ≤ room },
    ghost held: { room ≤ vec_capacity bytes },
}

impl MemSink {
    ghost use Rattle.sig_io.specs.InMemory.{failing_writes, room_of, writes_called};

    /// An empty sink; the memory for all its bytes is taken here.
    pub fn new(alloc: Global, room: usize, failing: Vec<u64>) -> Result<MemSink, Memory>
        ensures empty { IfOk result (λ s. ⟦<MemSink as Sink>⟧.taken s ≡ Some []) }
        ensures faults { IfOk result (λ s. ⟦<MemSink as Sink>⟧.faults s ≡ 0) }
        ensures first { IfOk result (λ s. writes_called s ≡ 0) }
        ensures kept { IfOk result (λ s. (failing_writes s ≡ failing.items) × (room_of s ≡ room)) }
    {
        match Vec::with_capacity(alloc, room) {
            Ok(bytes) => Ok(MemSink {
                bytes,
                room,
                failing,
                calls: 0,
                faults: 0,
            }),
            Err(_) => Err(Memory),
        }
    }

    /// What was taken.
    pub fn bytes(&self) -> &[u8]
        ensures { ⟦<MemSink as Sink>⟧.taken self.now ≡ Some result.now }
    {
        self.bytes.as_slice()
    }
}

impl Sink for MemSink {
    ghost use Rattle.sig_io.specs.InMemory.{bytes_in, failed_writes, failing_writes, room_of, writes_called};

    ghost taken = { λ s. Some s.bytes.items };

    ghost faults = { λ s. s.faults };

    fn write_some(&mut self, piece: &[u8]) -> Result<usize, Failed>
        requires { 0 < length piece.now }
        ensures count { IfOk result (λ n. n ≡ min (length piece.now) (room_of self.old - length (bytes_in self.old))) }
        ensures at_least { IfOk result (λ n. 1 ≤ n) }
        ensures bytes { IfOk result (λ n. bytes_in self.new ≡ bytes_in self.old ++ take n piece.now) }
        ensures none { OnErr result (bytes_in self.new ≡ bytes_in self.old) }
        ensures cause { HasCause (failed_writes self.old) (failed_writes self.new) result }
        ensures fails { OnErr result
            (Contains (failing_writes self.old) (writes_called self.old) ⊎ length (bytes_in self.old) ≡ room_of self.old) }
        ensures takes { OnOk result (Contains (failing_writes self.old) (writes_called self.old) → ⊥) }
        ensures next { writes_called self.new ≡ min (writes_called self.old + 1) (2 ^ 64 - 1) }
        ensures kept { (failing_writes self.new ≡ failing_writes self.old) × (room_of self.new ≡ room_of self.old) }
        ensures faults { OnOk result (failed_writes self.new ≡ failed_writes self.old) }
    {
        let call = self.calls;
        self.calls = self.calls.saturating_add(1);
        let n = piece.len().min(self.room - self.bytes.len());
        if n > 0 && !self.failing.contains(&call) {
            let (front, _) = piece.split_at(n);
            if self.bytes.extend_from_slice(front).is_ok() {
                return Ok(n);
            }
        }
        self.faults = self.faults.saturating_add(1);
        Err(Failed)
    }
}
