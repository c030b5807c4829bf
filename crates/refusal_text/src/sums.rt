// How long was waited for what.
ghost use Rattle.std.specs.Prelude.{◌≡◌, ◌==◌, ◌+◌, ◌≤◌, ◌++◌, List, ℕ, Option, length, codes};
ghost use Rattle.std.specs.Fmt.{decimal};
ghost use Rattle.sig_io.specs.Draft.{Puts};
ghost use Rattle.refusal_text.specs.Order.{AreInOrder};
ghost use Rattle.refusal_text.specs.Sums.{commands_text, group_text, groups_to, owner_text, sum_text, sums_text};

use crate::refusal::Refusal;
use crate::wait::{times, waits};
use crate::words::put_name;
use pua_model::Plan;
use sig_io::{Draft, Sink};
use sig_types::{GroupNo, Rule};
use signal_log::rule_name;

// Puts the group, where there is one.
fn put_owner<O: Sink>(draft: &mut Draft, sink: &mut O, plan: &Plan, group: Option<GroupNo>)
    ensures { Puts O.taken O.faults draft.old draft.new sink.old sink.new (owner_text plan.now.names group) }
{
    match group {
        None => {}
        Some(group) => {
            put_name(draft, sink, plan, group);
            draft.put(sink, b" ");
        }
    }
}

// Puts a line of how often and how long, where it came.
#[tactic(auto, unfolding(crate::specs::Sums::sum_text))]
fn put_sum<O: Sink>(
    draft: &mut Draft,
    sink: &mut O,
    plan: &Plan,
    found: &[Refusal],
    group: Option<GroupNo>,
    rule: Rule,
)
    requires { AreInOrder found.now }
    ensures { Puts O.taken O.faults draft.old draft.new sink.old sink.new (sum_text plan.now.names found.now group rule) }
{
    let times = times(found, group, rule);
    if times == 0 {
        return;
    }
    let (runs, longest) = waits(found, group, rule);
    draft.put(sink, b"SUM ");
    put_owner(draft, sink, plan, group);
    draft.put(sink, rule_name(rule));
    draft.put(sink, b" times:");
    draft.put_long_number(sink, times as u64);
    draft.put(sink, b" runs:");
    draft.put_long_number(sink, runs);
    draft.put(sink, b" longest:");
    draft.put_long_number(sink, longest);
    draft.put(sink, b"\n");
}

// Puts the lines of a group.
#[tactic(auto, unfolding(crate::specs::Sums::group_text))]
fn put_group<O: Sink>(
    draft: &mut Draft,
    sink: &mut O,
    plan: &Plan,
    found: &[Refusal],
    group: Option<GroupNo>,
)
    requires { AreInOrder found.now }
    ensures { Puts O.taken O.faults draft.old draft.new sink.old sink.new (group_text plan.now.names found.now group) }
{
    put_sum(draft, sink, plan, found, group, Rule::Sequence);
    put_sum(draft, sink, plan, found, group, Rule::MinGreen);
    put_sum(draft, sink, plan, found, group, Rule::MinRed);
    put_sum(draft, sink, plan, found, group, Rule::Conflict);
    put_sum(draft, sink, plan, found, group, Rule::Intergreen);
}

// Puts the lines of stage commands.
#[tactic(auto, unfolding(crate::specs::Sums::commands_text))]
fn put_commands<O: Sink>(draft: &mut Draft, sink: &mut O, plan: &Plan, found: &[Refusal])
    requires { AreInOrder found.now }
    ensures { Puts O.taken O.faults draft.old draft.new sink.old sink.new (commands_text plan.now.names found.now) }
{
    put_sum(draft, sink, plan, found, None, Rule::Running);
    put_sum(draft, sink, plan, found, None, Rule::WrongStage);
    put_sum(draft, sink, plan, found, None, Rule::NoInterstage);
}

// Puts the lines of all groups.
fn put_groups<O: Sink>(draft: &mut Draft, sink: &mut O, plan: &Plan, found: &[Refusal])
    requires { AreInOrder found.now }
    ensures { Puts O.taken O.faults draft.old draft.new sink.old sink.new (groups_to plan.now.names found.now (length plan.now.names)) }
{
    for group in 0..plan.groups() {
        put_group(draft, sink, plan, found, Some(GroupNo(group)));
    }
}

/// Puts how often and how long each group was refused by each rule, and so stage commands.
#[tactic(auto, unfolding(crate::specs::Sums::sums_text))]
pub(crate) fn put_sums<O: Sink>(draft: &mut Draft, sink: &mut O, plan: &Plan, found: &[Refusal])
    requires { AreInOrder found.now }
    ensures { Puts O.taken O.faults draft.old draft.new sink.old sink.new (sums_text plan.now.names found.now) }
{
    put_groups(draft, sink, plan, found);
    put_commands(draft, sink, plan, found);
}
