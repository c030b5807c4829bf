// How often each rule was broken.
ghost use Rattle.std.specs.Prelude.{◌≡◌, ◌==◌, ◌+◌, ◌≤◌, ◌++◌, ◌&&◌, List, ℕ, Option, length, codes, count_by};
ghost use Rattle.sig_io.specs.Draft.{Puts};
ghost use Rattle.judge_text.specs.Sums.{alone_to, is_of, other_text, others_to, pairs_to, same_other, sum_text, sums_text, times};

use crate::words::{group_of, other_of, put_name, rule_of};
use log_judge::Breach;
use pua_model::Plan;
use sig_io::{Draft, Sink};
use sig_types::{GroupNo, Rule};
use signal_log::rule_name;

// Whether both are the same other group, or none.
fn same_other(a: Option<GroupNo>, b: Option<GroupNo>) -> bool
    ensures { result ≡ same_other a b }
{
    match (a, b) {
        (None, None) => true,
        (None, Some(_)) => false,
        (Some(_), None) => false,
        (Some(a), Some(b)) => a.0 == b.0,
    }
}

// Whether a breach is of this rule, this group and this other one.
fn is_of(breach: &Breach, rule: Rule, group: GroupNo, other: Option<GroupNo>) -> bool
    ensures { result ≡ is_of rule group other breach.now }
{
    rule_of(breach).number() == rule.number()
        && (group_of(breach).0 == group.0 && same_other(other_of(breach), other))
}

// How often they broke it.
fn times(found: &[Breach], rule: Rule, group: GroupNo, other: Option<GroupNo>) -> usize
    ensures { result ≡ times found.now rule group other }
{
    found
        .iter()
        .filter(|breach| is_of(breach, rule, group, other))
        .count()
}

// Puts the other group, where there is one.
fn put_other<O: Sink>(draft: &mut Draft, sink: &mut O, plan: &Plan, other: Option<GroupNo>)
    ensures { Puts O.taken O.faults draft.old draft.new sink.old sink.new (other_text plan.now.names other) }
{
    match other {
        None => {}
        Some(other) => {
            draft.put(sink, b" ");
            put_name(draft, sink, plan, other);
        }
    }
}

// Puts a line of how often, where it came.
#[tactic(auto, unfolding(crate::specs::Sums::sum_text))]
fn put_sum<O: Sink>(
    draft: &mut Draft,
    sink: &mut O,
    plan: &Plan,
    found: &[Breach],
    rule: Rule,
    group: GroupNo,
    other: Option<GroupNo>,
)
    ensures { Puts O.taken O.faults draft.old draft.new sink.old sink.new (sum_text plan.now.names found.now rule group other) }
{
    let times = times(found, rule, group, other);
    if times == 0 {
        return;
    }
    draft.put(sink, b"SUM ");
    draft.put(sink, rule_name(rule));
    draft.put(sink, b" ");
    put_name(draft, sink, plan, group);
    put_other(draft, sink, plan, other);
    draft.put(sink, b" times:");
    draft.put_long_number(sink, times as u64);
    draft.put(sink, b"\n");
}

// Puts the lines of a rule that speaks of one group.
fn put_alone<O: Sink>(draft: &mut Draft, sink: &mut O, plan: &Plan, found: &[Breach], rule: Rule)
    ensures { Puts O.taken O.faults draft.old draft.new sink.old sink.new (alone_to plan.now.names found.now rule (length plan.now.names)) }
{
    for group in 0..plan.groups() {
        put_sum(draft, sink, plan, found, rule, GroupNo(group), None);
    }
}

// Puts the lines of a rule that speaks of two groups, for one of them.
fn put_others<O: Sink>(
    draft: &mut Draft,
    sink: &mut O,
    plan: &Plan,
    found: &[Breach],
    rule: Rule,
    group: GroupNo,
)
    ensures { Puts O.taken O.faults draft.old draft.new sink.old sink.new (others_to plan.now.names found.now rule group (length plan.now.names)) }
{
    for other in 0..plan.groups() {
        put_sum(draft, sink, plan, found, rule, group, Some(GroupNo(other)));
    }
}

// Puts the lines of a rule that speaks of two groups.
fn put_pairs<O: Sink>(draft: &mut Draft, sink: &mut O, plan: &Plan, found: &[Breach], rule: Rule)
    ensures { Puts O.taken O.faults draft.old draft.new sink.old sink.new (pairs_to plan.now.names found.now rule (length plan.now.names)) }
{
    for group in 0..plan.groups() {
        put_others(draft, sink, plan, found, rule, GroupNo(group));
    }
}

/// Puts how often each rule was broken, by each group or each two groups.
#[tactic(auto, unfolding(crate::specs::Sums::sums_text))]
pub fn put_sums<O: Sink>(draft: &mut Draft, sink: &mut O, plan: &Plan, found: &[Breach])
    ensures { Puts O.taken O.faults draft.old draft.new sink.old sink.new (sums_text plan.now.names found.now) }
{
    put_alone(draft, sink, plan, found, Rule::Sequence);
    put_alone(draft, sink, plan, found, Rule::MinGreen);
    put_alone(draft, sink, plan, found, Rule::MinRed);
    put_pairs(draft, sink, plan, found, Rule::Conflict);
    put_pairs(draft, sink, plan, found, Rule::Intergreen);
}
