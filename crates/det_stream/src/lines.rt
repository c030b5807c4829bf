// The lines of a detector file, one after the other.
ghost use Rattle.std.specs.Prelude.{◌≡◌, ◌≤◌, ◌*◌, ◌+◌, ℕ, List, [], true, Ok, Err, IfOk, is_ok};
ghost use Rattle.std.specs.Option.{ForSome};
ghost use Rattle.sig_io.specs.Outside.{Rose};
ghost use Rattle.det_stream.specs.Totals.{HasAtMost, RearsWithinFronts};
ghost use Rattle.det_stream.specs.Unread.{bytes_given};

use crate::line::{read_line, too_long};
use crate::reader::TextReader;
use crate::refusal::{StreamRefusal, StreamWhy};
use crate::totals::Totals;
use line_reader::LineRefusal;
use sig_io::Files;
use sig_types::{Frame, Memory, Second};
use std::alloc::Global;

/// A reader of a detector file, before one of its lines: line k gives the frame of second k. It keeps one buffer, the
/// counts so far and the frame that it gave last.
#[derive(Drop)]
pub struct Lines {
    reader: TextReader,
    totals: Totals,
    frame: Frame,
    second: u32,
    live: bool,
    ghost at_most: { second ≤ 604800 },
    ghost read_at_most: { live ≡ true → bytes_given reader ≤ 1026 * second },
    ghost totals_at_most: { live ≡ true → HasAtMost (99 * second) totals },
    ghost within_fronts: { live ≡ true → RearsWithinFronts totals },
}

impl Lines {
    ghost use Rattle.det_stream.specs.Answers.{AnswersNext, Gave, GaveOneMore, Reads, frame_in, is_live, is_ready, name_of, second_of};

    /// A reader before line 1 of that file. It takes all the memory that reading needs.
    #[tactic(auto, unfolding(crate::specs::Answers::name_of, crate::specs::Answers::is_live, crate::specs::Answers::second_of))]
    pub fn make(alloc: Global, name: &str) -> Result<Lines, Memory>
        ensures name { IfOk result (λ r. name_of r ≡ name.now) }
        ensures live { IfOk result (λ r. is_live r ≡ true) }
        ensures second { IfOk result (λ r. second_of r ≡ 0) }
        ensures gave { IfOk result (λ r. Gave r []) }
        ensures reads { IfOk result (λ r. (bytes : List ℕ) → Reads r bytes []) }
    {
        let reader = match TextReader::make(alloc, name) {
            Ok(reader) => reader,
            Err(memory) => return Err(memory),
        };
        Ok(Lines {
            reader,
            totals: Totals::zero(),
            frame: Frame::empty(),
            second: 0,
            live: true,
        })
    }

    // The next line is refused.
    fn refusal(&self, why: StreamWhy) -> StreamRefusal
        ensures { result ≡ StreamRefusal.At (self.now.second + 1) why }
    {
        StreamRefusal::At {
            line: self.second + 1,
            why,
        }
    }

    /// Reads the next line: true where it is a frame, and false where the file has been read to its end. It takes no
    /// memory.
    ///
    /// It answers `Fault` only where a read failed. After a refusal the reader isn't live, and can't be asked again.
    #[tactic(auto, unfolding(crate::specs::Answers::name_of, crate::specs::Answers::is_live, crate::specs::Answers::second_of, crate::specs::Answers::frame_in, crate::specs::Answers::is_ready))]
    pub fn next_frame<F: Files>(&mut self, files: &mut F) -> Result<bool, StreamRefusal>
        requires { is_live self.old ≡ true }
        ensures gave { result ≡ Ok true → GaveOneMore self.old self.new }
        ensures next { ForSome (F.told files.old) (λ file. AnswersNext (file (name_of self.old)) self.old self.new result) }
        ensures second { result ≡ Ok true → second_of self.new ≡ second_of self.old + 1 }
        ensures at_most { result ≡ Ok true → second_of self.new ≤ 604800 }
        ensures live { is_live self.new ≡ is_ok result }
        ensures ready { is_ready self.old ≡ true → files.new ≡ files.old }
        ensures no_memory { result ≡ Err StreamRefusal.Memory → ⊥ }
        ensures name { name_of self.new ≡ name_of self.old }
        ensures contents_stay { F.told files.new ≡ F.told files.old }
        ensures later { F.faults files.old ≤ F.faults files.new }
        ensures cause { result ≡ Err StreamRefusal.Fault → Rose (F.faults files.old) (F.faults files.new) }
    {
        match self.reader.next_line(files) {
            Ok(true) => {}
            Ok(false) => return Ok(false),
            Err(LineRefusal::Fault) => {
                self.live = false;
                return Err(StreamRefusal::Fault);
            }
            Err(LineRefusal::TooLong) => {
                self.live = false;
                return Err(self.refusal(too_long(self.second)));
            }
        }
        let judged = read_line(
            self.second,
            self.reader.line(),
            &mut self.totals,
            &mut self.frame,
        );
        if let Err(why) = judged {
            self.live = false;
            return Err(self.refusal(why));
        }
        self.second += 1;
        Ok(true)
    }

    /// Whether the next call of `next_frame` asks the files for nothing, so that it waits for no one: a whole line is held, or more
    /// bytes than a line may have.
    #[tactic(auto, unfolding(crate::specs::Answers::is_ready))]
    pub fn is_ready(&self) -> bool
        ensures { result ≡ is_ready self.now }
    {
        self.reader.is_ready()
    }

    /// The frame that the last call of `next_frame` gave.
    #[tactic(auto, unfolding(crate::specs::Answers::frame_in))]
    pub fn frame(&self) -> &Frame
        ensures { result.now ≡ frame_in self.now }
    {
        &self.frame
    }

    /// The number of lines that were given, which is that frame's second.
    #[tactic(auto, unfolding(crate::specs::Answers::second_of))]
    pub fn second(&self) -> Second
        ensures { result.0 ≡ second_of self.now }
    {
        Second(self.second)
    }

    /// Whether no call of `next_frame` has refused.
    #[tactic(auto, unfolding(crate::specs::Answers::is_live))]
    pub fn live(&self) -> bool
        ensures { result ≡ is_live self.now }
    {
        self.live
    }
}
