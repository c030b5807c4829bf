// The call `live`, and what its parts answer.
ghost use Rattle.std.specs.Prelude.{◌≡◌, ◌≤◌, IfOk, IfErr, false, length, map, string_bytes};
ghost use Rattle.std.specs.Option.{ForSome};
ghost use Rattle.sig_io.specs.Outside.{Rose};
ghost use Rattle.sig_io.specs.Seen.{seen};
ghost use Rattle.sig_types.specs.Counts.{AreFrames};
ghost use Rattle.pua_model.specs.Plan.{groups_in};
ghost use Rattle.vap_ast.specs.Syntax.{Program};
ghost use Rattle.det_stream.specs.Stream.{stream_of};
ghost use Rattle.junction_run.specs.Answers.{may_write};
ghost use Rattle.junction_run.specs.Loading.{program_at};
ghost use Rattle.junction_run.specs.Sites.{Runs, site_in};
ghost use Rattle.junction_run.specs.Stop.{status_of as status_of_stop, StopsAt, StopsWith};
ghost use Rattle.junction_run.specs.declared.status.Status.TheVariants as status;
ghost use Rattle.junction_live.specs.Answers.{LiveAnswer, LiveAnswers};
ghost use Rattle.junction_live.specs.Ended.{IsTaken, IsPlayed};
ghost use Rattle.junction_live.specs.FormWords.{form_in};
ghost use Rattle.junction_live.specs.Guarded.{IsGuardedText};

use crate::cell::make_watched_cell;
use crate::count::WatcherCount;
use crate::form::{LiveWords, live_form};
use crate::side::LiveStart;
use crate::text::write_text;
use controller::Controller;
use det_board::{Board, FeederPass, TickPass, make_board};
use det_stream::{Frames, StreamRefusal, read_all};
use junction_run::{
    LineReason, LoadStop, PlayStop, Site, Status, Stop, load_site, make_controller, status_of,
    write_stop, write_words,
};
use sig_io::{Files, Gate, Sink};
use std::alloc::Global;
use std::thread::Threads;

// Reads the whole detector file.
fn take_frames<'a, F: Files>(
    alloc: Global,
    word: &'a str,
    files: &mut F,
) -> Result<Frames, Stop<'a>>
    ensures frames { IfOk result (λ f. AreFrames f) }
    ensures taken { ForSome (F.told files.old) (λ file. IsTaken word.now (file word.now) result) }
    ensures word { IfErr result (λ stop. StopsAt word.now stop) }
    ensures no_write { StopsWith status_of_stop status.WriteFault result → ⊥ }
    ensures contents_stay { F.told files.new ≡ F.told files.old }
    ensures later { F.faults files.old ≤ F.faults files.new }
    ensures cause { StopsWith status_of_stop status.ReadFault result → Rose (F.faults files.old) (F.faults files.new) }
{
    match read_all(alloc, files, word) {
        Ok(frames) => Ok(frames),
        Err(StreamRefusal::Memory) => Err(Stop::Load(LoadStop::Memory)),
        Err(StreamRefusal::Fault) => Err(Stop::Play(PlayStop::ReadFault(word))),
        Err(StreamRefusal::At { line, why }) => {
            let reason = LineReason::Frame(why);
            Err(Stop::Play(PlayStop::RefusedLine { word, line, reason }))
        }
    }
}

// Frees a site. A value that goes out of scope is freed part by part in each way out of its function, and each part is a step of
// the function's proof; by this a way out has one step.
fn free_site(_site: Site) {}

// Frees frames and the controller that was to play them.
fn free_run(_frames: Frames, _controller: Controller) {}

// Frees a board with its passes.
fn free_passes(_board: Board, _feeders: Vec<FeederPass>, _tick: TickPass) {}

// Plays a detector file at a site, beside so many watchers. All memory is taken before the first byte is written.
fn play_site<'a, R: Threads + Sync, F: Files, O: Sink + Send, G: Gate>(
    rt: &R,
    alloc: Global,
    site: Site,
    detectors: &'a str,
    watchers: WatcherCount,
    files: &mut F,
    out: &mut O,
    gate: &G,
) -> Result<(), Stop<'a>>
    requires times { length site.times ≡ groups_in site.plan }
    requires intergreens { site.intergreens.count ≡ groups_in site.plan }
    ensures played { (program : Program) → Runs site.code program → ForSome (F.told files.old) (λ file.
        IsPlayed watchers.count detectors.now (stream_of (file detectors.now)) (program_at (site_in site) program)
        result (O.taken out.old) (O.taken out.new)) }
    ensures unwritten { IfErr result (λ stop. may_write false (status_of_stop stop) ≡ false → O.taken out.new ≡ O.taken out.old) }
    ensures guarded { IsGuardedText watchers.count (O.taken out.old) (O.taken out.new) }
    ensures word { IfErr result (λ stop. StopsAt detectors.now stop) }
    ensures contents_stay { F.told files.new ≡ F.told files.old }
    ensures later_files { F.faults files.old ≤ F.faults files.new }
    ensures later_out { O.faults out.old ≤ O.faults out.new }
    ensures read { StopsWith status_of_stop status.ReadFault result → Rose (F.faults files.old) (F.faults files.new) }
    ensures write { StopsWith status_of_stop status.WriteFault result → Rose (O.faults out.old) (O.faults out.new) }
{
    let frames = match take_frames(alloc, detectors, files) {
        Ok(frames) => frames,
        Err(stop) => {
            free_site(site);
            return Err(stop);
        }
    };
    let controller = match make_controller(alloc, site) {
        Ok(controller) => controller,
        Err(_memory) => return Err(Stop::Load(LoadStop::Memory)),
    };
    let (board, feeders, tick) = match make_board(alloc, 64) {
        Ok(made) => made,
        Err(_memory) => {
            free_run(frames, controller);
            return Err(Stop::Load(LoadStop::Memory));
        }
    };
    let cell = match make_watched_cell(alloc, controller.plan(), watchers, &frames) {
        Ok(cell) => cell,
        Err(_memory) => {
            free_run(frames, controller);
            free_passes(board, feeders, tick);
            return Err(Stop::Load(LoadStop::Memory));
        }
    };
    let start = LiveStart {
        controller,
        board,
        feeders,
        tick,
    };
    match write_text(rt, start, &frames, cell, out, gate) {
        Ok(()) => Ok(()),
        Err(_fault) => Err(Stop::Play(PlayStop::WriteFault)),
    }
}

// Loads a program at its site and plays it, and writes the note unless all was done.
fn answer_form<R: Threads + Sync, F: Files, O: Sink + Send, N: Sink, G: Gate>(
    rt: &R,
    alloc: Global,
    form: &LiveWords<'_>,
    files: &mut F,
    out: &mut O,
    notes: &mut N,
    gate: &G,
) -> Status
    requires { length form.now.names.now ≡ 4 }
    ensures answer { LiveAnswer (form_in form.now)
        (seen (F.told files.old) (F.told files.new) (F.faults files.old) (F.faults files.new))
        (seen (O.taken out.old) (O.taken out.new) (O.faults out.old) (O.faults out.new))
        (seen (N.taken notes.old) (N.taken notes.new) (N.faults notes.old) (N.faults notes.new))
        result }
    ensures no_words { result ≡ Status.Words → ⊥ }
    ensures contents_stay { F.told files.new ≡ F.told files.old }
{
    let site = match load_site(alloc, form.names, files, notes) {
        Ok(site) => site,
        Err(status) => return status,
    };
    match play_site(
        rt,
        alloc,
        site,
        form.detectors,
        form.watchers,
        files,
        out,
        gate,
    ) {
        Ok(()) => Status::Done,
        Err(stop) => {
            write_stop(&stop, notes);
            status_of(&stop)
        }
    }
}

/// Does what the words say, over these files: `out` gains the log of the played stream and then a line for each watcher, and
/// `notes` one line unless all was done.
///
/// The words are those of the command line without the program's name: `live PROGRAM PUA TIMES INTERGREENS DETECTORS`, and
/// behind them, where watchers look on, their number of 1 to 8.
/// The files are read in the order PUA, TIMES, INTERGREENS, PROGRAM, at most 1,048,576 bytes of each, and then the whole of
/// DETECTORS; each is judged before the next one is read, and all memory is taken before the header is written. A feeder for
/// each of 64 detectors plays its events line by line, while the controller takes a frame and makes a second for each line;
/// when all feeders have returned, a closing second has what no take has read. Each watcher looks 16 times meanwhile at the
/// picture that was published last. Before each event and each look its actor calls `gate.pass`. Where no thread can be had the
/// caller does the work itself.
pub fn live<R: Threads + Sync, F: Files, O: Sink + Send, N: Sink, G: Gate>(
    rt: &R,
    alloc: Global,
    words: &[String],
    files: &mut F,
    out: &mut O,
    notes: &mut N,
    gate: &G,
) -> Status
    ensures answers { LiveAnswers (map string_bytes words.now)
        (seen (F.told files.old) (F.told files.new) (F.faults files.old) (F.faults files.new))
        (seen (O.taken out.old) (O.taken out.new) (O.faults out.old) (O.faults out.new))
        (seen (N.taken notes.old) (N.taken notes.new) (N.faults notes.old) (N.faults notes.new))
        result }
    ensures unread { result ≡ Status.Words → files.new ≡ files.old }
    ensures unwritten { result ≡ Status.Words → out.new ≡ out.old }
    ensures contents_stay { F.told files.new ≡ F.told files.old }
{
    match live_form(words) {
        Some(form) => answer_form(rt, alloc, &form, files, out, notes, gate),
        None => {
            write_words(notes);
            Status::Words
        }
    }
}
