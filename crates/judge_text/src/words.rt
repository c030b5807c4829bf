// The words of breaches.
ghost use Rattle.std.specs.Prelude.{◌≡◌, ◌+◌, ◌-◌, ◌≤◌, ◌++◌, ◌∷◌, [], List, ℕ, Option, length, codes};
ghost use Rattle.sig_io.specs.Draft.{Puts};
ghost use Rattle.pua_model.specs.Plan.{name_of};
ghost use Rattle.signal_log.specs.Log.{rule_name};
ghost use Rattle.judge_text.specs.Ticks.{ticks_text};
ghost use Rattle.judge_text.specs.Words.{aspect_rule, group_of, head_text, other_of, rule_of, second_of};

use crate::tick::{Tick, put_ticks};
use log_judge::Breach;
use pua_model::Plan;
use sig_io::{Draft, Sink};
use sig_types::{Aspect, GroupNo, Rule};
use signal_log::rule_name;
use site_load::name_of;

// The rule that an aspect of another length breaks.
fn aspect_rule(aspect: Aspect) -> Rule
    ensures { result ≡ aspect_rule aspect }
{
    match aspect {
        Aspect::Red => Rule::MinRed,
        Aspect::RedAmber => Rule::Sequence,
        Aspect::Green => Rule::MinGreen,
        Aspect::Amber => Rule::Sequence,
    }
}

/// The rule that is broken.
pub(crate) fn rule_of(breach: &Breach) -> Rule
    ensures { result ≡ rule_of breach.now }
{
    match breach {
        Breach::Step { .. } => Rule::Sequence,
        Breach::Short { aspect, .. } => aspect_rule(*aspect),
        Breach::Long { aspect, .. } => aspect_rule(*aspect),
        Breach::Conflict { .. } => Rule::Conflict,
        Breach::Intergreen { .. } => Rule::Intergreen,
        Breach::Hidden { .. } => Rule::Intergreen,
    }
}

/// The group that breaks it.
pub(crate) fn group_of(breach: &Breach) -> GroupNo
    ensures { result ≡ group_of breach.now }
{
    match breach {
        Breach::Step { group, .. } => *group,
        Breach::Short { group, .. } => *group,
        Breach::Long { group, .. } => *group,
        Breach::Conflict { group, .. } => *group,
        Breach::Intergreen { group, .. } => *group,
        Breach::Hidden { group, .. } => *group,
    }
}

/// The other group of a rule that speaks of two.
pub(crate) fn other_of(breach: &Breach) -> Option<GroupNo>
    ensures { result ≡ other_of breach.now }
{
    match breach {
        Breach::Step { .. } => None,
        Breach::Short { .. } => None,
        Breach::Long { .. } => None,
        Breach::Conflict { other, .. } => Some(*other),
        Breach::Intergreen { other, .. } => Some(*other),
        Breach::Hidden { other, .. } => Some(*other),
    }
}

// The place of the second in which it's complete.
fn second_of(breach: &Breach) -> u32
    ensures { result ≡ second_of breach.now }
{
    match breach {
        Breach::Step { second, .. } => *second,
        Breach::Short { second, .. } => *second,
        Breach::Long { second, .. } => *second,
        Breach::Conflict { second, .. } => *second,
        Breach::Intergreen { second, .. } => *second,
        Breach::Hidden { second, .. } => *second,
    }
}

/// Puts the name of a group.
pub(crate) fn put_name<O: Sink>(draft: &mut Draft, sink: &mut O, plan: &Plan, group: GroupNo)
    ensures { Puts O.taken O.faults draft.old draft.new sink.old sink.new (name_of plan.now.names group) }
{
    draft.put(sink, name_of(plan, group));
}

/// Puts a second as the log numbers it: that of its first picture, and a place from 0.
pub(crate) fn put_second<O: Sink>(
    draft: &mut Draft,
    sink: &mut O,
    tick: Tick,
    first: u32,
    place: u32,
)
    ensures { Puts O.taken O.faults draft.old draft.new sink.old sink.new (ticks_text tick (first + place)) }
{
    put_ticks(draft, sink, tick, u64::from(first) + u64::from(place));
}

/// Puts the seconds from an end so many seconds before second 0 to a green in this second, or so many before second 0.
pub(crate) fn put_between<O: Sink>(
    draft: &mut Draft,
    sink: &mut O,
    tick: Tick,
    second: u32,
    ended: u32,
    before: u32,
)
    ensures { Puts O.taken O.faults draft.old draft.new sink.old sink.new (ticks_text tick (second + ended - before)) }
{
    let passed = u64::from(second) + u64::from(ended);
    put_ticks(draft, sink, tick, passed.saturating_sub(u64::from(before)));
}

/// Puts the second, the rule and the group of a breach, with this between them.
pub(crate) fn put_head<O: Sink>(
    draft: &mut Draft,
    sink: &mut O,
    plan: &Plan,
    tick: Tick,
    first: u32,
    between: &[u8],
    breach: &Breach,
)
    requires { length between.now ≤ 32 }
    ensures { Puts O.taken O.faults draft.old draft.new sink.old sink.new (head_text plan.now.names tick first between.now breach.now) }
{
    put_second(draft, sink, tick, first, second_of(breach));
    draft.put(sink, between);
    draft.put(sink, rule_name(rule_of(breach)));
    draft.put(sink, between);
    put_name(draft, sink, plan, group_of(breach));
}
