// The lines of one file, read through a window that is taken once.
ghost use Rattle.std.specs.Prelude.{◌≡◌, ℕ, ◌+◌, ◌-◌, ◌<◌, ◌≤◌, ◌^◌, ◌==◌, List, [], true, None, Some, length, take, drop, is_some, OnErr, IfOk, IfSome, position, vec_len, Err};
ghost use Rattle.std.specs.Option.{ForSome};
ghost use Rattle.line_reader.specs.Fill.{FillsBuffer};
ghost use Rattle.sig_io.specs.Outside.{HasCause, Rose};

use memchr::{memchr, memrchr};
use sig_io::{Failed, Files};
use sig_types::Memory;
use std::alloc::Global;

/// Why a line is not read.
#[derive(Clone, Copy)]
pub enum LineRefusal {
    /// The file could not be read.
    Fault,
    /// The line has more bytes than the longest that is read.
    TooLong,
}

// How many bytes are searched at once where a line begins.
const NEAR: usize = 32;

// How many bytes are held at once, besides those of the longest line.
const WINDOW: usize = 65536;

/// A reader before some line. The bytes that come next are those of the buffer between `start` and `end`, and then those of
/// the file from `place` on.
#[derive(Drop)]
pub struct LineReader {
    name: String,
    buffer: Vec<u8>,
    longest: usize,
    start: usize,
    end: usize,
    place: u64,
    line_start: usize,
    line_end: usize,
    ended: bool,
    // where the last line feed stands of the bytes that were taken, if they had one
    feed: usize,
    ghost at_most: { longest ≤ 2 ^ 32 },
    ghost window: { vec_len buffer ≡ longest + 65536 },
    ghost ordered: { start ≤ end },
    ghost fits: { end ≤ longest + 65536 },
    ghost behind: { end - start ≤ place },
    ghost line_ordered: { line_start ≤ line_end },
    ghost line_fits: { line_end ≤ longest + 65536 },
}

// Moves the bytes from `start` to `end` to the front.
fn shift(buffer: &mut [u8], start: usize, end: usize)
    requires order { start ≤ end }
    requires fits { end ≤ length buffer.old }
    ensures { take (end - start) buffer.new ≡ take (end - start) (drop start buffer.old) }
{
    for i in 0..end - start {
        buffer[i] = buffer[start + i];
    }
}

// Moves the bytes from `start` to `end` to the front, and puts more bytes of the file after them; none at the file's end.
fn fill<F: Files>(
    files: &mut F,
    name: &str,
    place: u64,
    buffer: &mut [u8],
    start: usize,
    end: usize,
) -> Result<usize, Failed>
    requires order { start ≤ end }
    requires fits { end ≤ length buffer.old }
    requires room { end - start < length buffer.old }
    ensures bytes { ForSome (F.told files.old)
        (λ file. FillsBuffer (file name.now) place start end buffer.old buffer.new result) }
    ensures front { take (end - start) buffer.new ≡ take (end - start) (drop start buffer.old) }
    ensures count { IfOk result (λ n. end - start + n ≤ length buffer.new) }
    ensures contents_stay { F.told files.new ≡ F.told files.old }
    ensures cause { HasCause (F.faults files.old) (F.faults files.new) result }
{
    shift(buffer, start, end);
    files.read_at(name, place, &mut buffer[end - start..])
}

// Where the first line feed stands among the next 32 bytes, if there are so many.
fn near_newline(bytes: &[u8]) -> Option<usize>
    ensures { IfSome result (λ place. position (λ b. b == 10) bytes.now ≡ Some place) }
{
    if bytes.len() < NEAR {
        return None;
    }
    memchr(b'\n', &bytes[..NEAR])
}

// Where the first line feed stands. Most lines are empty or short, and are asked for first.
fn find_newline(bytes: &[u8]) -> Option<usize>
    ensures { result ≡ position (λ b. b == 10) bytes.now }
{
    if let [b'\n', ..] = bytes {
        return Some(0);
    }
    if let Some(place) = near_newline(bytes) {
        return Some(place);
    }
    bytes.iter().position(|b| *b == b'\n')
}

impl LineReader {
    ghost use Rattle.line_reader.specs.Unread.{GivesLine, KeepsUnread, is_ready, ReadsLine, TooLongIsRight, buffered_bytes, bytes_given, line_of, longest_of, name_in, unread_bytes, was_ended};

    /// A reader before the first line of that file, of whose lines none may be longer. It takes all the memory that reading
    /// needs.
    pub fn make(alloc: Global, name: &str, longest: usize) -> Result<LineReader, Memory>
        requires { longest ≤ 2 ^ 32 }
        ensures name { IfOk result (λ r. name_in r ≡ name.now) }
        ensures begins { IfOk result (λ r. (bytes : List ℕ) → unread_bytes r bytes ≡ bytes) }
        ensures given { IfOk result (λ r. bytes_given r ≡ 0) }
        ensures longest { IfOk result (λ r. longest_of r ≡ longest) }
    {
        let Ok(name) = String::from_str(alloc, name) else {
            return Err(Memory);
        };
        let Ok(buffer) = vec![in alloc; 0u8; longest + WINDOW] else {
            return Err(Memory);
        };
        Ok(LineReader {
            name,
            buffer,
            longest,
            start: 0,
            end: 0,
            place: 0,
            line_start: 0,
            line_end: 0,
            ended: false,
            feed: 0,
        })
    }

    /// Whether the next line is read without asking the files: a whole line is held, or more bytes than a line may have.
    pub fn is_ready(&self) -> bool
        ensures { result ≡ is_ready self.now }
    {
        self.end - self.start > self.longest
            || self.holds_feed()
            || find_newline(&self.buffer[self.start..self.end]).is_some()
    }

    // Whether the line feed that was taken last is still held, which spares a search in each line of a full window.
    fn holds_feed(&self) -> bool
        ensures { result ≡ true → is_some (position (λ b. b == 10) (buffered_bytes self.now)) ≡ true }
    {
        self.start <= self.feed && self.feed < self.end && self.buffer[self.feed] == b'\n'
    }

    // Takes more bytes of the file into the buffer; none at the file's end.
    fn refill<F: Files>(&mut self, files: &mut F) -> Result<usize, Failed>
        requires room { self.old.end - self.old.start ≤ self.old.longest }
        requires at_most { self.old.place < 2 ^ 63 }
        ensures rest { ForSome (F.told files.old)
            (λ file. IfOk result (KeepsUnread self.old self.new (file (name_in self.old)))) }
        ensures grows { IfOk result (λ n. self.new.end - self.new.start ≡ (self.old.end - self.old.start) + n) }
        ensures none { IfOk result (λ n. n ≡ 0 → buffered_bytes self.new ≡ buffered_bytes self.old) }
        ensures place { IfOk result (λ n. self.new.place ≡ self.old.place + n) }
        ensures name { name_in self.new ≡ name_in self.old }
        ensures longest { longest_of self.new ≡ longest_of self.old }
        ensures contents_stay { F.told files.new ≡ F.told files.old }
        ensures later { F.faults files.old ≤ F.faults files.new }
        ensures cause { OnErr result (Rose (F.faults files.old) (F.faults files.new)) }
    {
        let taken = fill(
            files,
            self.name.as_str(),
            self.place,
            &mut self.buffer,
            self.start,
            self.end,
        )?;
        self.end -= self.start;
        self.start = 0;
        self.end += taken;
        self.place += taken as u64;
        self.feed = memrchr(b'\n', &self.buffer[..self.end]).unwrap_or(self.end);
        Ok(taken)
    }

    /// Reads the next line; false at the file's end. It takes no memory.
    ///
    /// It answers `Fault` only where a read failed, and after a refusal nothing is told of what is left.
    #[inline(always)]
    pub fn next_line<F: Files>(&mut self, files: &mut F) -> Result<bool, LineRefusal>
        requires { bytes_given self.old < 2 ^ 61 }
        ensures read { ForSome (F.told files.old) (λ file. ReadsLine (file (name_in self.old)) self.old self.new result) }
        ensures too_long { ForSome (F.told files.old) (λ file. TooLongIsRight (file (name_in self.old)) self.old result) }
        ensures given { GivesLine self.old self.new result }
        ensures ready { is_ready self.old ≡ true → files.new ≡ files.old }
        ensures name { name_in self.new ≡ name_in self.old }
        ensures longest { longest_of self.new ≡ longest_of self.old }
        ensures contents_stay { F.told files.new ≡ F.told files.old }
        ensures later { F.faults files.old ≤ F.faults files.new }
        ensures cause { result ≡ Err LineRefusal.Fault → Rose (F.faults files.old) (F.faults files.new) }
    {
        loop {
            if let Some(length) = find_newline(&self.buffer[self.start..self.end]) {
                return self.take_line(length);
            }
            if self.end - self.start > self.longest {
                return Err(LineRefusal::TooLong);
            }
            match self.refill(files) {
                Err(Failed) => return Err(LineRefusal::Fault),
                Ok(0) => return self.take_rest(),
                Ok(_) => {}
            }
        }
    }

    // The line ends at the line feed that stands `length` bytes after the start.
    fn take_line(&mut self, length: usize) -> Result<bool, LineRefusal>
        requires { position (λ b. b == 10) (buffered_bytes self.old) ≡ Some length }
        ensures read { (bytes : List ℕ) → ReadsLine bytes self.old self.new result }
        ensures too_long { (bytes : List ℕ) → TooLongIsRight bytes self.old result }
        ensures no_fault { result ≡ Err LineRefusal.Fault → ⊥ }
        ensures given { GivesLine self.old self.new result }
        ensures name { name_in self.new ≡ name_in self.old }
        ensures longest { longest_of self.new ≡ longest_of self.old }
    {
        self.line_start = self.start;
        self.line_end = self.start + length;
        self.ended = true;
        self.start += length + 1;
        if length > self.longest {
            Err(LineRefusal::TooLong)
        } else {
            Ok(true)
        }
    }

    // The last line, which has no line feed; none where no byte is left.
    fn take_rest(&mut self) -> Result<bool, LineRefusal>
        requires { position (λ b. b == 10) (buffered_bytes self.old) ≡ None }
        ensures read { (bytes : List ℕ) → drop self.old.place bytes ≡ [] → ReadsLine bytes self.old self.new result }
        ensures too_long { (bytes : List ℕ) → drop self.old.place bytes ≡ [] → TooLongIsRight bytes self.old result }
        ensures no_fault { result ≡ Err LineRefusal.Fault → ⊥ }
        ensures given { GivesLine self.old self.new result }
        ensures name { name_in self.new ≡ name_in self.old }
        ensures longest { longest_of self.new ≡ longest_of self.old }
    {
        if self.start == self.end {
            return Ok(false);
        }
        self.line_start = self.start;
        self.line_end = self.end;
        self.ended = false;
        self.start = self.end;
        if self.line_end - self.line_start > self.longest {
            Err(LineRefusal::TooLong)
        } else {
            Ok(true)
        }
    }

    /// The line that was read last, without a line feed.
    pub fn line(&self) -> &[u8]
        ensures { result.now ≡ line_of self.now }
    {
        &self.buffer[self.line_start..self.line_end]
    }

    /// Whether a line feed ended the line that was read last.
    pub fn ended(&self) -> bool
        ensures { result ≡ was_ended self.now }
    {
        self.ended
    }
}
