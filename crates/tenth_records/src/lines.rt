// The lines of a record: at most 262,144 bytes, without a carriage return before a line feed.
ghost use Rattle.std.specs.Prelude.{◌≡◌, ◌<◌, ◌≤◌, ◌^◌, ℕ, List, true, length, IfOk, Ok, Err, if◌then◌else◌};
ghost use Rattle.std.specs.Option.{ForSome};
ghost use Rattle.std.specs.Str.Lines.{strip_carriage_return};
ghost use Rattle.sig_io.specs.Outside.{Rose};
ghost use Rattle.line_reader.specs.Unread.{longest_of};

use line_reader::{LineReader, LineRefusal};
use sig_io::Files;
use sig_types::Memory;
use std::alloc::Global;

// The most bytes of a line, without its line end.
const LONGEST: usize = 262_144;

// A line with a carriage return at its end.
const RETURNED: usize = 262_145;

/// A reader before some line.
#[derive(Drop)]
pub(crate) struct RecordLines {
    reader: LineReader,
    ghost longest: { longest_of reader ≡ 262145 },
}

// The line without the carriage return at its end, where a line feed ended it.
fn text_of(line: &[u8], ended: bool) -> &[u8]
    ensures { result.now ≡ (if ended then strip_carriage_return line.now else line.now) }
{
    match line.last() {
        Some(b'\r') if ended => &line[..line.len() - 1],
        _ => line,
    }
}

impl RecordLines {
    ghost use Rattle.tenth_records.specs.Unread.{GivesLine, ReadsLine, TooLongIsRight, bytes_given, line_of, name_in, unread_bytes};

    /// A reader before the first line of that file. It takes all the memory that reading needs.
    pub(crate) fn make(alloc: Global, name: &str) -> Result<RecordLines, Memory>
        ensures name { IfOk result (λ r. name_in r ≡ name.now) }
        ensures begins { IfOk result (λ r. (bytes : List ℕ) → unread_bytes r bytes ≡ bytes) }
        ensures given { IfOk result (λ r. bytes_given r ≡ 0) }
    {
        match LineReader::make(alloc, name, RETURNED) {
            Ok(reader) => Ok(RecordLines { reader }),
            Err(memory) => Err(memory),
        }
    }

    /// Reads the next line; false at the file's end.
    pub(crate) fn next_line<F: Files>(&mut self, files: &mut F) -> Result<bool, LineRefusal>
        requires { bytes_given self.old < 2 ^ 61 }
        ensures read { ForSome (F.told files.old) (λ file. ReadsLine (file (name_in self.old)) self.old self.new result) }
        ensures too_long { ForSome (F.told files.old) (λ file. TooLongIsRight (file (name_in self.old)) self.old result) }
        ensures short { result ≡ Ok true → length (line_of self.new) ≤ 262144 }
        ensures given { GivesLine self.old self.new result }
        ensures name { name_in self.new ≡ name_in self.old }
        ensures contents_stay { F.told files.new ≡ F.told files.old }
        ensures later { F.faults files.old ≤ F.faults files.new }
        ensures cause { result ≡ Err LineRefusal.Fault → Rose (F.faults files.old) (F.faults files.new) }
    {
        match self.reader.next_line(files) {
            Ok(true) => {}
            Ok(false) => return Ok(false),
            Err(refusal) => return Err(refusal),
        }
        if self.line().len() > LONGEST {
            return Err(LineRefusal::TooLong);
        }
        Ok(true)
    }

    /// The line that was read last.
    pub(crate) fn line(&self) -> &[u8]
        ensures { result.now ≡ line_of self.now }
    {
        text_of(self.reader.line(), self.reader.ended())
    }
}
