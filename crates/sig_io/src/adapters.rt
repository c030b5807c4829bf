// The files, the standard output and the standard error of the system.
ghost use Rattle.std.specs.Prelude.{◌≡◌, ◌<◌, ◌≤◌, None, IfOk, OnOk, length};
ghost use Rattle.sig_io.specs.Outside.{HasCause};

use crate::{Failed, Files, Sink};
use std::io::{ErrorKind, Read, Seek, SeekFrom, Write};
use std::{fs, io, rt};

// The system takes no name of more bytes.
const LONGEST_NAME: usize = 4096;

// The most times that a read or a write is asked for, where signals interrupt it.
const TURNS: u32 = 1000;

// Reads, and asks again where a signal interrupts the read.
fn read_again<F: Read>(file: &mut F, buf: &mut [u8]) -> io::Result<usize>
    ensures { IfOk result (λ n. n ≤ length buf.new) }
{
    for _ in 0..TURNS {
        match file.read(buf) {
            Ok(n) => return Ok(n),
            Err(error) if error.kind() == ErrorKind::Interrupted => {}
            Err(error) => return Err(error),
        }
    }
    Err(io::Error::from(ErrorKind::Interrupted))
}

// An open file with its name, and the place at which it stands.
#[derive(Drop)]
struct OpenFile<F> {
    name: [u8; LONGEST_NAME],
    len: usize,
    file: F,
    place: u64,
    ghost named: { len ≤ length name },
}

impl<F: Read + Seek> OpenFile<F> {
    // Whether the file was opened by this name.
    fn is(&self, name: &str) -> bool {
        &self.name[..self.len] == name.as_bytes()
    }

    // Reads at a place.
    fn read_at(&mut self, place: u64, buf: &mut [u8]) -> io::Result<usize>
        ensures { IfOk result (λ n. n ≤ length buf.new) }
    {
        if place != self.place {
            self.file.seek(SeekFrom::Start(place))?;
        }
        let n = read_again(&mut self.file, buf)?;
        self.place = place.saturating_add(n as u64);
        Ok(n)
    }
}

// Opens a file, which then stands at its beginning.
fn open<R: rt::Files>(runtime: &R, name: &str) -> io::Result<OpenFile<R::File>> {
    let len = name.len();
    if len > LONGEST_NAME {
        return Err(io::Error::from(ErrorKind::InvalidInput));
    }
    let file = fs::open(runtime, name)?;
    let mut kept = [0; LONGEST_NAME];
    kept[..len].copy_from_slice(name.as_bytes());
    Ok(OpenFile {
        name: kept,
        len,
        file,
        place: 0,
    })
}

/// The files of the system. It tells nothing of what they hold. The file that was read last stays open, so that a file
/// is opened once, however many pieces it is read in.
#[derive(Drop)]
pub struct DiskFiles<'a, R: rt::Files> {
    runtime: &'a R,
    last: Option<OpenFile<R::File>>,
    faults: u64,
}

impl<'a, R: rt::Files> DiskFiles<'a, R> {
    /// The files that this runtime reaches; no call has failed yet.
    pub fn new(runtime: &'a R) -> DiskFiles<'a, R>
        ensures faults { ⟦<DiskFiles<'a, R> as Files>⟧.faults result ≡ 0 }
    {
        DiskFiles {
            runtime,
            last: None,
            faults: 0,
        }
    }
}

// The file that was read last, where it has that name, or else that file newly opened.
fn reopened<R: rt::Files>(
    runtime: &R,
    last: Option<OpenFile<R::File>>,
    name: &str,
) -> io::Result<OpenFile<R::File>> {
    if let Some(file) = last {
        if file.is(name) {
            return Ok(file);
        }
    }
    open(runtime, name)
}

// Reads at a place, and answers with the file too.
fn read_file<R: rt::Files>(
    runtime: &R,
    last: Option<OpenFile<R::File>>,
    name: &str,
    place: u64,
    buf: &mut [u8],
) -> io::Result<(OpenFile<R::File>, usize)>
    ensures { IfOk result (λ r. r.1 ≤ length buf.new) }
{
    let mut file = reopened(runtime, last, name)?;
    let n = file.read_at(place, buf)?;
    Ok((file, n))
}

impl<R: rt::Files> Files for DiskFiles<'_, R> {
    ghost told = { λ _. None };

    ghost faults = { λ d. d.faults };

    fn read_at(&mut self, name: &str, place: u64, buf: &mut [u8]) -> Result<usize, Failed>
        requires { 0 < length buf.old }
        ensures count { IfOk result (λ n. n ≤ length buf.new) }
        ensures cause { HasCause self.old.faults self.new.faults result }
        ensures faults { OnOk result (self.new.faults ≡ self.old.faults) }
    {
        match read_file(self.runtime, self.last.take(), name, place, buf) {
            Ok((file, n)) => {
                self.last = Some(file);
                Ok(n)
            }
            Err(_) => {
                self.faults = self.faults.saturating_add(1);
                Err(Failed)
            }
        }
    }
}

// Gives the system a piece, and asks again where a signal interrupts the write. A write that takes nothing has failed.
fn write_piece<R: Print>(to: &R, piece: &[u8]) -> Result<usize, Failed>
    ensures at_least { IfOk result (λ n. 1 ≤ n) }
    ensures count { IfOk result (λ n. n ≤ length piece.now) }
{
    for _ in 0..TURNS {
        match to.write_some(piece) {
            Ok(n) if n > 0 => return Ok(n),
            Err(error) if error.kind() == ErrorKind::Interrupted => {}
            _ => return Err(Failed),
        }
    }
    Err(Failed)
}

/// A handle of the system that takes bytes. It tells nothing of the bytes that it took.
#[derive(Drop)]
pub struct PrintSink<'a, R> {
    handle: &'a R,
    faults: u64,
}

/// The standard output.
pub type OutSink<'a, R> = PrintSink<'a, R>;

/// The standard error.
pub type ErrSink<'a, R> = PrintSink<'a, R>;

impl<'a, R: Print> PrintSink<'a, R> {
    /// A sink by its handle; no call has failed yet.
    pub fn new(handle: &'a R) -> PrintSink<'a, R>
        ensures faults { ⟦<PrintSink<'a, R> as Sink>⟧.faults result ≡ 0 }
    {
        PrintSink { handle, faults: 0 }
    }
}

impl<R: Print> Sink for PrintSink<'_, R> {
    ghost taken = { λ _. None };

    ghost faults = { λ s. s.faults };

    fn write_some(&mut self, piece: &[u8]) -> Result<usize, Failed>
        requires { 0 < length piece.now }
        ensures at_least { IfOk result (λ n. 1 ≤ n) }
        ensures count { IfOk result (λ n. n ≤ length piece.now) }
        ensures cause { HasCause self.old.faults self.new.faults result }
        ensures faults { OnOk result (self.new.faults ≡ self.old.faults) }
    {
        match write_piece(self.handle, piece) {
            Ok(n) => Ok(n),
            Err(failed) => {
                self.faults = self.faults.saturating_add(1);
                Err(failed)
            }
        }
    }
}
