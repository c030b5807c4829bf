// The rows of stages, refusals, faults and detectors, and the whole table.
ghost use Rattle.std.specs.Prelude.{◌≡◌, ◌+◌, ◌-◌, ◌*◌, ◌/◌, ◌%◌, ◌^◌, ◌<◌, ◌≤◌, ◌++◌, ◌==◌, ◌&&◌, max, ℕ, List, [], Bool, codes, length, Some, if◌then◌else◌};
ghost use Rattle.std.specs.Fmt.{decimal};
ghost use Rattle.std.specs.List.{flat_map};
ghost use Rattle.sig_io.specs.Draft.{Puts};
ghost use Rattle.sums_text.specs.Words.{AreTextual, counted_in};
ghost use Rattle.sums_text.specs.Table.{came_rows, command_rows, counts_rows, detector_rows, detectors_rows, early_rows, fault_rows, groups_rows, head_text, headway_rows, item_text, lead_text};
ghost use Rattle.sums_text.specs.Table.{place_cells, place_rows, refused_rows, row_text, rule_rows, shown_rows, span_of, sums_rows, table_text, turn_rows};

use crate::cells::{Item, Lead, lead_of, put_row};
use crate::group_rows::put_groups_rows;
use crate::rows::{counted_in, is_named, less_one, run_from};
use crate::serve_rows::put_serves_rows;
use log_sums::{Counts, DetectorSums, Figures, LogSums, Tally};
use sig_io::{Draft, Sink};
use sig_types::{Fault, ShortName, StagePlace, StageRefusal, TurnRefusal};

// Puts how often a stage or an interstage began, and how many seconds it was there.
fn put_stay_rows<O: Sink>(draft: &mut Draft, sink: &mut O, lead: &Lead<'_>, counts: &Counts)
    ensures { Puts O.taken O.faults draft.old draft.new sink.old sink.new
        (row_text (lead_text lead.now) (codes ",times,") counts.now.begun.count
        ++ row_text (lead_text lead.now) (codes ",seconds,") counts.now.times.count) }
{
    put_row(draft, sink, lead, b",times,", u64::from(counts.begun.count));
    put_row(
        draft,
        sink,
        lead,
        b",seconds,",
        u64::from(counts.times.count),
    );
}

// Puts the rows of a stage or an interstage that there was.
#[tactic(auto, unfolding(crate::specs::Table::place_rows))]
fn put_place_rows<O: Sink>(
    draft: &mut Draft,
    sink: &mut O,
    sums: &LogSums,
    tally: &Tally<StagePlace>,
)
    ensures { Puts O.taken O.faults draft.old draft.new sink.old sink.new (place_rows (span_of sums.now) tally.now) }
{
    if tally.counts.times.count == 0 {
        return;
    }
    put_stay_rows(
        draft,
        sink,
        &lead_of(sums, Item::Place(tally.key)),
        &tally.counts,
    );
}

// Puts how often something came, in how many seconds, and its longest run.
fn put_came_rows<O: Sink>(draft: &mut Draft, sink: &mut O, lead: &Lead<'_>, counts: &Counts)
    ensures { Puts O.taken O.faults draft.old draft.new sink.old sink.new (came_rows (lead_text lead.now) counts.now) }
{
    put_row(draft, sink, lead, b",times,", counts.times.sum);
    put_row(
        draft,
        sink,
        lead,
        b",seconds,",
        u64::from(counts.times.count),
    );
    put_row(
        draft,
        sink,
        lead,
        b",longest_run,",
        u64::from(counts.runs.most),
    );
    put_row(
        draft,
        sink,
        lead,
        b",longest_run_from,",
        u64::from(run_from(counts.runs.at, counts.runs.most)),
    );
}

// Puts the same where it came.
#[tactic(auto, unfolding(crate::specs::Table::counts_rows))]
fn put_counts_rows<O: Sink>(draft: &mut Draft, sink: &mut O, lead: &Lead<'_>, counts: &Counts)
    ensures { Puts O.taken O.faults draft.old draft.new sink.old sink.new (counts_rows (lead_text lead.now) counts.now) }
{
    if counts.times.count == 0 {
        return;
    }
    put_came_rows(draft, sink, lead, counts);
}

// Puts the rows of a refused stage command.
#[tactic(auto, unfolding(crate::specs::Table::command_rows))]
fn put_command_rows<O: Sink>(
    draft: &mut Draft,
    sink: &mut O,
    sums: &LogSums,
    tally: &Tally<StageRefusal>,
)
    ensures { Puts O.taken O.faults draft.old draft.new sink.old sink.new (command_rows (span_of sums.now) tally.now) }
{
    put_counts_rows(
        draft,
        sink,
        &lead_of(sums, Item::Command(tally.key)),
        &tally.counts,
    );
}

// Puts the rows of a refused turn.
#[tactic(auto, unfolding(crate::specs::Table::turn_rows))]
fn put_turn_rows<O: Sink>(
    draft: &mut Draft,
    sink: &mut O,
    sums: &LogSums,
    names: &[ShortName],
    tally: &Tally<TurnRefusal>,
)
    ensures { Puts O.taken O.faults draft.old draft.new sink.old sink.new (turn_rows (span_of sums.now) names.now tally.now) }
{
    put_counts_rows(
        draft,
        sink,
        &lead_of(sums, Item::Turn(names, tally.key)),
        &tally.counts,
    );
}

// Puts the rows of the turns of a group that a rule refused.
#[tactic(auto, unfolding(crate::specs::Table::rule_rows))]
fn put_rule_rows<O: Sink>(
    draft: &mut Draft,
    sink: &mut O,
    sums: &LogSums,
    names: &[ShortName],
    tally: &Tally<TurnRefusal>,
)
    ensures { Puts O.taken O.faults draft.old draft.new sink.old sink.new (rule_rows (span_of sums.now) names.now tally.now) }
{
    put_counts_rows(
        draft,
        sink,
        &lead_of(sums, Item::Rule(names, tally.key)),
        &tally.counts,
    );
}

// Puts the rows of those before the group's first green.
#[tactic(auto, unfolding(crate::specs::Table::early_rows))]
fn put_early_rows<O: Sink>(
    draft: &mut Draft,
    sink: &mut O,
    sums: &LogSums,
    names: &[ShortName],
    tally: &Tally<TurnRefusal>,
)
    ensures { Puts O.taken O.faults draft.old draft.new sink.old sink.new (early_rows (span_of sums.now) names.now tally.now) }
{
    put_counts_rows(
        draft,
        sink,
        &lead_of(sums, Item::Early(names, tally.key)),
        &tally.counts,
    );
}

// Puts the rows of a fault.
#[tactic(auto, unfolding(crate::specs::Table::fault_rows))]
fn put_fault_rows<O: Sink>(draft: &mut Draft, sink: &mut O, sums: &LogSums, tally: &Tally<Fault>)
    ensures { Puts O.taken O.faults draft.old draft.new sink.old sink.new (fault_rows (span_of sums.now) tally.now) }
{
    put_counts_rows(
        draft,
        sink,
        &lead_of(sums, Item::Fault(tally.key)),
        &tally.counts,
    );
}

// Puts a headway that there was.
fn put_gap_rows<O: Sink>(draft: &mut Draft, sink: &mut O, lead: &Lead<'_>, ages: Figures)
    ensures { Puts O.taken O.faults draft.old draft.new sink.old sink.new
        (row_text (lead_text lead.now) (codes ",largest_headway,") (ages.most - 1)
        ++ row_text (lead_text lead.now) (codes ",headway_after,") (ages.at - (ages.most - 1))) }
{
    put_row(
        draft,
        sink,
        lead,
        b",largest_headway,",
        u64::from(less_one(ages.most)),
    );
    put_row(
        draft,
        sink,
        lead,
        b",headway_after,",
        u64::from(run_from(ages.at, ages.most)),
    );
}

// Puts the largest headway.
#[tactic(auto, unfolding(crate::specs::Table::headway_rows))]
fn put_headway_rows<O: Sink>(draft: &mut Draft, sink: &mut O, lead: &Lead<'_>, ages: Figures)
    ensures { Puts O.taken O.faults draft.old draft.new sink.old sink.new (headway_rows (lead_text lead.now) ages) }
{
    if ages.count == 0 {
        return;
    }
    put_gap_rows(draft, sink, lead, ages);
}

// Puts what a detector counted.
fn put_detected_rows<O: Sink>(draft: &mut Draft, sink: &mut O, lead: &Lead<'_>, sums: &DetectorSums)
    ensures { Puts O.taken O.faults draft.old draft.new sink.old sink.new
        (row_text (lead_text lead.now) (codes ",vehicles,") sums.now.fronts.sum
        ++ row_text (lead_text lead.now) (codes ",occupied,") sums.now.occupied.held.count
        ++ headway_rows (lead_text lead.now) sums.now.detected.ages) }
{
    put_row(draft, sink, lead, b",vehicles,", sums.fronts.sum);
    put_row(
        draft,
        sink,
        lead,
        b",occupied,",
        u64::from(sums.occupied.held.count),
    );
    put_headway_rows(draft, sink, lead, sums.detected.ages);
}

// Puts the rows of a detector where it is named.
#[tactic(auto, unfolding(crate::specs::Table::detector_rows))]
fn put_detector_rows<O: Sink>(
    draft: &mut Draft,
    sink: &mut O,
    lead: &Lead<'_>,
    named: bool,
    sums: &DetectorSums,
)
    ensures { Puts O.taken O.faults draft.old draft.new sink.old sink.new (detector_rows (lead_text lead.now) named sums.now) }
{
    if !named {
        return;
    }
    put_detected_rows(draft, sink, lead, sums);
}

// Puts the rows of the stages and interstages.
fn put_places_rows<O: Sink>(draft: &mut Draft, sink: &mut O, sums: &LogSums)
    ensures { Puts O.taken O.faults draft.old draft.new sink.old sink.new (flat_map (place_rows (span_of sums.now)) sums.now.places.items) }
{
    for tally in &sums.places {
        put_place_rows(draft, sink, sums, tally);
    }
}

// Puts the rows of the refused stage commands.
fn put_commands_rows<O: Sink>(draft: &mut Draft, sink: &mut O, sums: &LogSums)
    ensures { Puts O.taken O.faults draft.old draft.new sink.old sink.new (flat_map (command_rows (span_of sums.now)) sums.now.commands.items) }
{
    for tally in &sums.commands {
        put_command_rows(draft, sink, sums, tally);
    }
}

// Puts the rows of the refused turns.
fn put_turns_rows<O: Sink>(draft: &mut Draft, sink: &mut O, names: &[ShortName], sums: &LogSums)
    ensures { Puts O.taken O.faults draft.old draft.new sink.old sink.new (flat_map (turn_rows (span_of sums.now) names.now) sums.now.turns.items) }
{
    for tally in &sums.turns {
        put_turn_rows(draft, sink, sums, names, tally);
    }
}

// Puts the rows of the refused turns by group and rule.
fn put_rules_rows<O: Sink>(draft: &mut Draft, sink: &mut O, names: &[ShortName], sums: &LogSums)
    ensures { Puts O.taken O.faults draft.old draft.new sink.old sink.new (flat_map (rule_rows (span_of sums.now) names.now) sums.now.rules.items) }
{
    for tally in &sums.rules {
        put_rule_rows(draft, sink, sums, names, tally);
    }
}

// Puts the rows of the refused turns before their group's first green.
fn put_all_early_rows<O: Sink>(draft: &mut Draft, sink: &mut O, names: &[ShortName], sums: &LogSums)
    ensures { Puts O.taken O.faults draft.old draft.new sink.old sink.new (flat_map (early_rows (span_of sums.now) names.now) sums.now.early.items) }
{
    for tally in &sums.early {
        put_early_rows(draft, sink, sums, names, tally);
    }
}

// Puts the rows of the faults.
fn put_faults_rows<O: Sink>(draft: &mut Draft, sink: &mut O, sums: &LogSums)
    ensures { Puts O.taken O.faults draft.old draft.new sink.old sink.new (flat_map (fault_rows (span_of sums.now)) sums.now.faults.items) }
{
    for tally in &sums.faults {
        put_fault_rows(draft, sink, sums, tally);
    }
}

// Puts the rows of the detectors that are named in the first ones of these, behind the seconds of those sums.
fn put_detectors_rows<O: Sink>(
    draft: &mut Draft,
    sink: &mut O,
    sums: &LogSums,
    named: &[DetectorSums; 64],
    detectors: &[DetectorSums; 64],
)
    ensures { Puts O.taken O.faults draft.old draft.new sink.old sink.new (detectors_rows (span_of sums.now) 1 named.now detectors.now) }
{
    for place in 0..64u8 {
        let at = usize::from(place);
        put_detector_rows(
            draft,
            sink,
            &lead_of(sums, Item::Detector(u32::from(place) + 1)),
            is_named(&named[at]),
            &detectors[at],
        );
    }
}

// Puts the rows of the groups where a second counts.
fn put_shown_groups<O: Sink>(
    draft: &mut Draft,
    sink: &mut O,
    names: &[ShortName],
    counted: u32,
    sums: &LogSums,
)
    requires { AreTextual (length names.now) sums.now }
    ensures { Puts O.taken O.faults draft.old draft.new sink.old sink.new (if counted == 0 then []
        else groups_rows (span_of sums.now) sums.now.goes_on sums.now.seconds counted names.now sums.now.groups) }
{
    if counted > 0 {
        put_groups_rows(draft, sink, names, counted, sums, &sums.groups);
    }
}

// Puts the row of the seconds, and those of the groups where one counts.
#[tactic(auto, unfolding(crate::specs::Table::shown_rows))]
fn put_shown_rows<O: Sink>(draft: &mut Draft, sink: &mut O, names: &[ShortName], sums: &LogSums)
    requires { AreTextual (length names.now) sums.now }
    ensures { Puts O.taken O.faults draft.old draft.new sink.old sink.new (shown_rows names.now sums.now) }
{
    let counted = counted_in(sums);
    put_row(
        draft,
        sink,
        &lead_of(sums, Item::Seconds),
        b",seconds,",
        u64::from(counted),
    );
    put_shown_groups(draft, sink, names, counted, sums);
}

// Puts the rows of what was refused.
#[tactic(auto, unfolding(crate::specs::Table::refused_rows))]
fn put_refused_rows<O: Sink>(draft: &mut Draft, sink: &mut O, names: &[ShortName], sums: &LogSums)
    ensures { Puts O.taken O.faults draft.old draft.new sink.old sink.new (refused_rows names.now sums.now) }
{
    put_commands_rows(draft, sink, sums);
    put_turns_rows(draft, sink, names, sums);
    put_rules_rows(draft, sink, names, sums);
    put_all_early_rows(draft, sink, names, sums);
}

/// Puts the rows of sums, of groups with these names, with those of the detectors that are named in these, and of those that serve
/// a group.
#[tactic(auto, unfolding(crate::specs::Table::sums_rows))]
pub(crate) fn put_sums_rows<O: Sink>(
    draft: &mut Draft,
    sink: &mut O,
    names: &[ShortName],
    named: &[DetectorSums; 64],
    sums: &LogSums,
)
    requires { AreTextual (length names.now) sums.now }
    ensures { Puts O.taken O.faults draft.old draft.new sink.old sink.new (sums_rows names.now named.now sums.now) }
{
    put_shown_rows(draft, sink, names, sums);
    put_places_rows(draft, sink, sums);
    put_refused_rows(draft, sink, names, sums);
    put_faults_rows(draft, sink, sums);
    put_detectors_rows(draft, sink, sums, named, &sums.detectors);
    put_serves_rows(draft, sink, names, sums);
}

/// Puts the table of sums, of groups with these names: the names of its columns, and a row for each number.
#[tactic(auto, unfolding(crate::specs::Table::table_text))]
pub fn put_table<O: Sink>(draft: &mut Draft, sink: &mut O, names: &[ShortName], sums: &LogSums)
    requires { AreTextual (length names.now) sums.now }
    ensures { Puts O.taken O.faults draft.old draft.new sink.old sink.new (table_text names.now sums.now) }
{
    draft.put(sink, b"from,to,line,name,key,value\n");
    put_sums_rows(draft, sink, names, &sums.detectors, sums);
}
