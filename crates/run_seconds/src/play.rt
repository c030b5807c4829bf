// The loop over the lines of a detector file.
ghost use Rattle.std.specs.Prelude.{◌≡◌, ◌≤◌, ◌+◌, [], ◌++◌, ℕ, List, true, false, Option, Ok, Err, IfErr, IsTrue, ◌⊎◌, is_ok};
ghost use Rattle.std.specs.Option.{ForSome};
ghost use Rattle.sig_io.specs.Draft.{FailsOnly, IsDraft, Puts};
ghost use Rattle.sig_io.specs.Outside.{Rose};
ghost use Rattle.sig_types.specs.Counts.{Counts};
ghost use Rattle.controller.specs.Past.{Past};
ghost use Rattle.controller.specs.Controls.{StandsFor, code_of, logic_of, site_of};
ghost use Rattle.det_stream.specs.Answers.{AnswersNext, Gave, GaveOneMore, Reads, is_live, is_ready, name_of, second_of};
ghost use Rattle.det_stream.specs.Stream.{Stream, stream_of};
ghost use Rattle.run_seconds.specs.Told.{told_from, IsPlayed, IsStop, IsWritten};

use crate::teller::Teller;
use controller::Controller;
use det_stream::{Lines, StreamRefusal, StreamWhy};
use sig_io::{Draft, Files, Sink};

/// Why a detector file is played no further.
#[derive(Clone, Copy)]
pub enum Stop {
    /// It could not be read.
    ReadFault,
    /// What is told could not be written.
    WriteFault,
    /// A line, counted from 1, is no frame.
    Refused { line: u32, why: StreamWhy },
}

// Lets what was made go out before the detector file is asked for bytes, which may wait for whoever writes it.
fn send_before_wait<O: Sink>(lines: &Lines, draft: &mut Draft, out: &mut O)
    ensures puts { Puts O.taken O.faults draft.old draft.new out.old out.new [] }
    ensures sent { is_ready lines.now ≡ false → draft.new.failed ≡ false → draft.new.bytes ≡ [] }
{
    if !lines.is_ready() {
        draft.send(out);
    }
}

// Reads the next line. Nothing that was made is held where the detector file is asked for bytes, which may wait.
#[inline(always)]
fn next_frame<F: Files>(
    lines: &mut Lines,
    files: &mut F,
    _draft: &Draft,
) -> Result<bool, StreamRefusal>
    requires live { is_live lines.old ≡ true }
    requires sent { is_ready lines.old ≡ false → _draft.now.failed ≡ false → _draft.now.bytes ≡ [] }
    ensures gave { result ≡ Ok true → GaveOneMore lines.old lines.new }
    ensures next { ForSome (F.told files.old) (λ file. AnswersNext (file (name_of lines.old)) lines.old lines.new result) }
    ensures second { result ≡ Ok true → second_of lines.new ≡ second_of lines.old + 1 }
    ensures at_most { result ≡ Ok true → second_of lines.new ≤ 604800 }
    ensures live { is_live lines.new ≡ is_ok result }
    ensures no_memory { result ≡ Err StreamRefusal.Memory → ⊥ }
    ensures name { name_of lines.new ≡ name_of lines.old }
    ensures contents_stay { F.told files.new ≡ F.told files.old }
    ensures later { F.faults files.old ≤ F.faults files.new }
    ensures cause { result ≡ Err StreamRefusal.Fault → Rose (F.faults files.old) (F.faults files.new) }
{
    lines.next_frame(files)
}

// Makes a second for each line of a detector file and tells of it, up to the end of the file, a refused line, a fault of the
// file or a fault of the sink. What is held goes out before the detector file is asked for more bytes.
fn play<T: Teller, F: Files, O: Sink>(
    teller: &mut T,
    controller: &mut Controller,
    lines: &mut Lines,
    files: &mut F,
    draft: &mut Draft,
    out: &mut O,
) -> Result<(), Stop>
    requires begun { (first : Past) × StandsFor controller.old first × (first.frames ≡ [])
        × T.knows teller.old (code_of controller.old) (site_of controller.old) first [] }
    requires live { is_live lines.old ≡ true }
    requires none_given { second_of lines.old ≡ 0 }
    requires gave { Gave lines.old [] }
    requires unread { (bytes : List ℕ) → Reads lines.old bytes [] }
    ensures played { (first : Past) → StandsFor controller.old first → first.frames ≡ [] →
        T.knows teller.old (code_of controller.old) (site_of controller.old) first [] → (frames : List Counts)
        × Puts O.taken O.faults draft.old draft.new out.old out.new
        (told_from (T.telling teller.old (code_of controller.old) (site_of controller.old)) (logic_of controller.old) (site_of controller.old) first frames)
        × T.knows teller.new (code_of controller.old) (site_of controller.old) first frames
        × ForSome (F.told files.old) (λ file. IsPlayed result (stream_of (file (name_of lines.old))) frames) }
    ensures stops { IfErr result (λ stop. IsStop draft.new.failed stop) }
    ensures contents_stay { F.told files.new ≡ F.told files.old }
    ensures later { F.faults files.old ≤ F.faults files.new }
    ensures read { result ≡ Err Stop.ReadFault → Rose (F.faults files.old) (F.faults files.new) }
    ensures cause { FailsOnly (O.faults out.old) (O.faults out.new) draft.old.failed draft.new.failed }
{
    loop {
        send_before_wait(lines, draft, out);
        if draft.failed() {
            return Err(Stop::WriteFault);
        }
        match next_frame(lines, files, draft) {
            Ok(true) => {}
            Ok(false) => return Ok(()),
            Err(StreamRefusal::Memory) => unreachable!(),
            Err(StreamRefusal::Fault) => return Err(Stop::ReadFault),
            Err(StreamRefusal::At { line, why }) => return Err(Stop::Refused { line, why }),
        }
        teller.tell(controller, lines.frame(), draft, out);
    }
}

// Gives the sink the rest of what is told, where the seconds ended so.
fn finish<O: Sink>(draft: Draft, end: Result<(), Stop>, out: &mut O) -> Result<(), Stop>
    requires { IfErr end (λ stop. IsStop draft.failed stop) }
    ensures written { (start : Option (List ℕ)) (text : List ℕ) → IsDraft start (O.taken out.old) draft text →
        IsWritten result text start (O.taken out.new) }
    ensures played { (stream : Stream) (frames : List Counts) → IsPlayed end stream frames → IsPlayed result stream frames }
    ensures read { result ≡ Err Stop.ReadFault → end ≡ Err Stop.ReadFault }
    ensures later { O.faults out.old ≤ O.faults out.new }
    ensures write { result ≡ Err Stop.WriteFault → IsTrue draft.failed ⊎ Rose (O.faults out.old) (O.faults out.new) }
{
    if draft.failed() {
        return Err(Stop::WriteFault);
    }
    match draft.finish(out) {
        Ok(()) => end,
        Err(_fault) => Err(Stop::WriteFault),
    }
}

/// Makes a second for each line of a detector file and tells of it, behind what a draft holds, up to the end of the file, a
/// refused line, a fault of the file or a fault of the sink. What is held goes out before the detector file is asked for more
/// bytes, and at the end. It takes no memory.
pub fn tell_all<T: Teller, F: Files, O: Sink>(
    teller: &mut T,
    controller: &mut Controller,
    lines: &mut Lines,
    files: &mut F,
    mut draft: Draft,
    out: &mut O,
) -> Result<(), Stop>
    requires begun { (first : Past) × StandsFor controller.old first × (first.frames ≡ [])
        × T.knows teller.old (code_of controller.old) (site_of controller.old) first [] }
    requires live { is_live lines.old ≡ true }
    requires none_given { second_of lines.old ≡ 0 }
    requires gave { Gave lines.old [] }
    requires unread { (bytes : List ℕ) → Reads lines.old bytes [] }
    ensures told { (first : Past) → StandsFor controller.old first → first.frames ≡ [] →
        T.knows teller.old (code_of controller.old) (site_of controller.old) first [] → (frames : List Counts)
        × ((start : Option (List ℕ)) (text : List ℕ) → IsDraft start (O.taken out.old) draft text → IsWritten result
        (text ++ told_from (T.telling teller.old (code_of controller.old) (site_of controller.old)) (logic_of controller.old) (site_of controller.old) first frames)
        start (O.taken out.new))
        × T.knows teller.new (code_of controller.old) (site_of controller.old) first frames
        × ForSome (F.told files.old) (λ file. IsPlayed result (stream_of (file (name_of lines.old))) frames) }
    ensures contents_stay { F.told files.new ≡ F.told files.old }
    ensures later { F.faults files.old ≤ F.faults files.new }
    ensures writes_later { O.faults out.old ≤ O.faults out.new }
    ensures read { result ≡ Err Stop.ReadFault → Rose (F.faults files.old) (F.faults files.new) }
    ensures write { result ≡ Err Stop.WriteFault → IsTrue draft.failed ⊎ Rose (O.faults out.old) (O.faults out.new) }
{
    let end = play(teller, controller, lines, files, &mut draft, out);
    finish(draft, end, out)
}
