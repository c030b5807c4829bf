// The lines of stages, refusals, faults and detectors, and the whole text.
ghost use Rattle.std.specs.Prelude.{◌≡◌, ◌+◌, ◌-◌, ◌*◌, ◌/◌, ◌%◌, ◌^◌, ◌<◌, ◌≤◌, ◌++◌, ◌==◌, ◌&&◌, max, ℕ, List, [], Bool, codes, length, Some, if◌then◌else◌};
ghost use Rattle.std.specs.Fmt.{decimal};
ghost use Rattle.std.specs.List.{flat_map};
ghost use Rattle.sig_io.specs.Draft.{Puts};
ghost use Rattle.signal_log.specs.Log.{fault_text, stage_refusal_text, turn_text};
ghost use Rattle.sums_text.specs.Words.{AreTextual, came_text, command_text, counted_in, counts_text, detector_text, detectors_text, fault_line, is_named};
ghost use Rattle.sums_text.specs.Words.{headway_text, lines_text, pair_text, place_name, place_text, refusal_text, refused_text, shown_text, sums_text};

use crate::group::put_groups;
use crate::names::put_place_name;
use crate::numbers::{put_long, put_pair};
use crate::serves::put_serves;
use log_sums::{Counts, DetectorSums, Figures, LogSums, Tally};
use sig_io::{Draft, Sink};
use sig_types::{Fault, ShortName, StagePlace, StageRefusal, TurnRefusal};
use signal_log::{put_fault, put_named_turn, put_stage_refusal};

/// The first second of the longest run.
pub(crate) fn run_from(second: u32, seconds: u32) -> u32
    ensures { result ≡ second - (seconds - 1) }
{
    second.saturating_sub(seconds.saturating_sub(1))
}

// Puts how often something came, in how many seconds, and its longest run.
#[tactic(auto, unfolding(crate::specs::Words::counts_text))]
fn put_counts<O: Sink>(draft: &mut Draft, sink: &mut O, counts: &Counts)
    ensures { Puts O.taken O.faults draft.old draft.new sink.old sink.new (counts_text counts.now) }
{
    put_long(draft, sink, b" times:", counts.times.sum);
    put_pair(draft, sink, b" seconds:", counts.times.count);
    put_pair(draft, sink, b" longest_run:", counts.runs.most);
    put_pair(
        draft,
        sink,
        b" longest_run_from:",
        run_from(counts.runs.at, counts.runs.most),
    );
    draft.put(sink, b"\n");
}

// Puts the line of a stage or an interstage that there was.
#[tactic(auto, unfolding(crate::specs::Words::place_text))]
fn put_place<O: Sink>(draft: &mut Draft, sink: &mut O, tally: &Tally<StagePlace>)
    ensures { Puts O.taken O.faults draft.old draft.new sink.old sink.new (place_text tally.now) }
{
    if tally.counts.times.count == 0 {
        return;
    }
    put_place_name(draft, sink, tally.key);
    put_pair(draft, sink, b" times:", tally.counts.begun.count);
    put_pair(draft, sink, b" seconds:", tally.counts.times.count);
    draft.put(sink, b"\n");
}

// Puts the line of a refused stage command.
#[tactic(auto, unfolding(crate::specs::Words::command_text))]
fn put_command_line<O: Sink>(draft: &mut Draft, sink: &mut O, tally: &Tally<StageRefusal>)
    ensures { Puts O.taken O.faults draft.old draft.new sink.old sink.new (command_text tally.now) }
{
    if tally.counts.times.count == 0 {
        return;
    }
    draft.put(sink, b"REFUSED ");
    put_stage_refusal(tally.key, draft, sink);
    put_counts(draft, sink, &tally.counts);
}

// Puts the line of a refused turn, behind this word.
#[tactic(auto, unfolding(crate::specs::Words::refusal_text))]
fn put_turn_line<O: Sink>(
    draft: &mut Draft,
    sink: &mut O,
    word: &[u8],
    names: &[ShortName],
    tally: &Tally<TurnRefusal>,
)
    requires { length word.now ≤ 20 }
    ensures { Puts O.taken O.faults draft.old draft.new sink.old sink.new (refusal_text word.now names.now tally.now) }
{
    if tally.counts.times.count == 0 {
        return;
    }
    draft.put(sink, word);
    put_named_turn(tally.key, names, draft, sink);
    put_counts(draft, sink, &tally.counts);
}

// Puts the line of a fault.
#[tactic(auto, unfolding(crate::specs::Words::fault_line))]
fn put_fault_line<O: Sink>(draft: &mut Draft, sink: &mut O, tally: &Tally<Fault>)
    ensures { Puts O.taken O.faults draft.old draft.new sink.old sink.new (fault_line tally.now) }
{
    if tally.counts.times.count == 0 {
        return;
    }
    draft.put(sink, b"FAULT ");
    put_fault(tally.key, draft, sink);
    put_counts(draft, sink, &tally.counts);
}

/// One less.
pub(crate) fn less_one(n: u32) -> u32
    ensures { result ≡ n - 1 }
{
    n.saturating_sub(1)
}

// Puts a headway that there was.
fn put_gap<O: Sink>(draft: &mut Draft, sink: &mut O, ages: Figures)
    ensures { Puts O.taken O.faults draft.old draft.new sink.old sink.new
        (pair_text (codes " largest_headway:") (ages.most - 1) ++ pair_text (codes " headway_after:") (ages.at - (ages.most - 1))) }
{
    put_pair(draft, sink, b" largest_headway:", less_one(ages.most));
    put_pair(
        draft,
        sink,
        b" headway_after:",
        run_from(ages.at, ages.most),
    );
}

// Puts the largest headway.
#[tactic(auto, unfolding(crate::specs::Words::headway_text))]
fn put_headway<O: Sink>(draft: &mut Draft, sink: &mut O, ages: Figures)
    ensures { Puts O.taken O.faults draft.old draft.new sink.old sink.new (headway_text ages) }
{
    if ages.count == 0 {
        return;
    }
    put_gap(draft, sink, ages);
}

// Puts what stands behind the number of a detector.
fn put_detected<O: Sink>(draft: &mut Draft, sink: &mut O, sums: &DetectorSums)
    ensures { Puts O.taken O.faults draft.old draft.new sink.old sink.new
        (pair_text (codes " vehicles:") sums.now.fronts.sum ++ pair_text (codes " occupied:") sums.now.occupied.held.count
        ++ headway_text sums.now.detected.ages) }
{
    put_long(draft, sink, b" vehicles:", sums.fronts.sum);
    put_pair(draft, sink, b" occupied:", sums.occupied.held.count);
    put_headway(draft, sink, sums.detected.ages);
}

/// Whether a detector had a front or a rear so far.
pub(crate) fn is_named(sums: &DetectorSums) -> bool
    ensures { result ≡ is_named sums.now }
{
    sums.fronts_so_far != 0 || sums.rears_so_far != 0
}

// Puts the line of a detector where it is named.
#[tactic(auto, unfolding(crate::specs::Words::detector_text))]
fn put_detector<O: Sink>(
    draft: &mut Draft,
    sink: &mut O,
    number: u32,
    named: bool,
    sums: &DetectorSums,
)
    ensures { Puts O.taken O.faults draft.old draft.new sink.old sink.new (detector_text number named sums.now) }
{
    if !named {
        return;
    }
    put_pair(draft, sink, b"DETECTOR ", number);
    put_detected(draft, sink, sums);
    draft.put(sink, b"\n");
}

// Puts the lines of the stages and interstages.
fn put_places<O: Sink>(draft: &mut Draft, sink: &mut O, tallies: &[Tally<StagePlace>])
    ensures { Puts O.taken O.faults draft.old draft.new sink.old sink.new (flat_map place_text tallies.now) }
{
    for tally in tallies {
        put_place(draft, sink, tally);
    }
}

// Puts the lines of the refused stage commands.
fn put_commands<O: Sink>(draft: &mut Draft, sink: &mut O, tallies: &[Tally<StageRefusal>])
    ensures { Puts O.taken O.faults draft.old draft.new sink.old sink.new (flat_map command_text tallies.now) }
{
    for tally in tallies {
        put_command_line(draft, sink, tally);
    }
}

// Puts the lines of refused turns, behind this word.
fn put_turns<O: Sink>(
    draft: &mut Draft,
    sink: &mut O,
    word: &[u8],
    names: &[ShortName],
    tallies: &[Tally<TurnRefusal>],
)
    requires { length word.now ≤ 20 }
    ensures { Puts O.taken O.faults draft.old draft.new sink.old sink.new (flat_map (refusal_text word.now names.now) tallies.now) }
{
    for tally in tallies {
        put_turn_line(draft, sink, word, names, tally);
    }
}

// Puts the lines of the faults.
fn put_faults<O: Sink>(draft: &mut Draft, sink: &mut O, tallies: &[Tally<Fault>])
    ensures { Puts O.taken O.faults draft.old draft.new sink.old sink.new (flat_map fault_line tallies.now) }
{
    for tally in tallies {
        put_fault_line(draft, sink, tally);
    }
}

// Puts the lines of the detectors that are named in the first ones of these sums.
fn put_detectors<O: Sink>(
    draft: &mut Draft,
    sink: &mut O,
    named: &[DetectorSums; 64],
    detectors: &[DetectorSums; 64],
)
    ensures { Puts O.taken O.faults draft.old draft.new sink.old sink.new (detectors_text 1 named.now detectors.now) }
{
    for place in 0..64u8 {
        let at = usize::from(place);
        put_detector(
            draft,
            sink,
            u32::from(place) + 1,
            is_named(&named[at]),
            &detectors[at],
        );
    }
}

/// How many seconds count.
pub(crate) fn counted_in(sums: &LogSums) -> u32
    ensures { result ≡ counted_in sums.now }
{
    sums.seconds.saturating_sub(sums.from.saturating_sub(1))
}

// Puts the line of the seconds, and those of the groups where one counts.
#[tactic(auto, unfolding(crate::specs::Words::shown_text))]
fn put_shown<O: Sink>(draft: &mut Draft, sink: &mut O, names: &[ShortName], sums: &LogSums)
    requires { AreTextual (length names.now) sums.now }
    ensures { Puts O.taken O.faults draft.old draft.new sink.old sink.new (shown_text names.now sums.now) }
{
    let counted = counted_in(sums);
    put_pair(draft, sink, b"SECONDS ", counted);
    draft.put(sink, b"\n");
    if counted > 0 {
        put_groups(
            draft,
            sink,
            names,
            sums.goes_on,
            sums.seconds,
            counted,
            &sums.groups,
        );
    }
}

// Puts the lines of what was refused.
#[tactic(auto, unfolding(crate::specs::Words::refused_text))]
fn put_refused<O: Sink>(draft: &mut Draft, sink: &mut O, names: &[ShortName], sums: &LogSums)
    ensures { Puts O.taken O.faults draft.old draft.new sink.old sink.new (refused_text names.now sums.now) }
{
    put_commands(draft, sink, &sums.commands);
    put_turns(draft, sink, b"REFUSED ", names, &sums.turns);
    put_turns(draft, sink, b"RULE ", names, &sums.rules);
    put_turns(draft, sink, b"BEFORE_GREEN ", names, &sums.early);
}

/// Puts the lines of sums, with those of the detectors that are named in these, and of those that serve a group.
#[tactic(auto, unfolding(crate::specs::Words::lines_text))]
pub(crate) fn put_lines<O: Sink>(
    draft: &mut Draft,
    sink: &mut O,
    names: &[ShortName],
    named: &[DetectorSums; 64],
    sums: &LogSums,
)
    requires { AreTextual (length names.now) sums.now }
    ensures { Puts O.taken O.faults draft.old draft.new sink.old sink.new (lines_text names.now named.now sums.now) }
{
    put_shown(draft, sink, names, sums);
    put_places(draft, sink, &sums.places);
    put_refused(draft, sink, names, sums);
    put_faults(draft, sink, &sums.faults);
    put_detectors(draft, sink, named, &sums.detectors);
    put_serves(draft, sink, names, &sums.serves);
}

/// Puts the text of sums, of groups with these names: a line for each group, stage, interstage, refusal, fault and detector.
pub fn put_sums<O: Sink>(draft: &mut Draft, sink: &mut O, names: &[ShortName], sums: &LogSums)
    requires { AreTextual (length names.now) sums.now }
    ensures { Puts O.taken O.faults draft.old draft.new sink.old sink.new (sums_text names.now sums.now) }
{
    put_lines(draft, sink, names, &sums.detectors, sums);
}
