// What refusals speak of.
ghost use Rattle.std.specs.Prelude.{◌≡◌, ◌+◌, ◌≤◌, ◌++◌, List, ℕ, Option, length, codes};
ghost use Rattle.std.specs.Fmt.{decimal};
ghost use Rattle.sig_io.specs.Draft.{Puts};
ghost use Rattle.pua_model.specs.Plan.{name_of};
ghost use Rattle.refusal_text.specs.Words.{asked_name, command_text, group_of, rule_of, second_of};

use crate::refusal::Refusal;
use log_judge::Asked;
use pua_model::Plan;
use sig_io::{Draft, Sink};
use sig_types::{GroupNo, Rule, StageRefusal};
use site_load::name_of;

/// The place of its second.
pub(crate) fn second_of(refusal: &Refusal) -> u32
    ensures { result ≡ second_of refusal.now }
{
    match refusal {
        Refusal::Command { second, .. } => *second,
        Refusal::Turn { second, .. } => *second,
    }
}

/// The rule that it names.
pub(crate) fn rule_of(refusal: &Refusal) -> Rule
    ensures { result ≡ rule_of refusal.now }
{
    match refusal {
        Refusal::Command { refused, .. } => refused.rule,
        Refusal::Turn { turn, .. } => turn.rule,
    }
}

/// The group whose turn was refused.
pub(crate) fn group_of(refusal: &Refusal) -> Option<GroupNo>
    ensures { result ≡ group_of refusal.now }
{
    match refusal {
        Refusal::Command { .. } => None,
        Refusal::Turn { turn, .. } => Some(turn.group),
    }
}

/// The turn that was asked for.
pub(crate) fn asked_name(asked: Asked) -> &'static [u8]
    ensures name { result.now ≡ asked_name asked }
    ensures short { length result.now ≤ 16 }
{
    match asked {
        Asked::Start => b"start",
        Asked::End => b"end",
    }
}

/// Puts a stage command.
pub(crate) fn put_command<O: Sink>(draft: &mut Draft, sink: &mut O, refused: StageRefusal)
    ensures { Puts O.taken O.faults draft.old draft.new sink.old sink.new (command_text refused) }
{
    draft.put(sink, b"I");
    draft.put_number(sink, u32::from(refused.from.0));
    draft.put(sink, b"-");
    draft.put_number(sink, u32::from(refused.to.0));
}

/// Puts the name of a group.
pub(crate) fn put_name<O: Sink>(draft: &mut Draft, sink: &mut O, plan: &Plan, group: GroupNo)
    ensures { Puts O.taken O.faults draft.old draft.new sink.old sink.new (name_of plan.now.names group) }
{
    draft.put(sink, name_of(plan, group));
}

/// Puts a second as the log numbers it: that of place 0, and a place.
pub(crate) fn put_second<O: Sink>(draft: &mut Draft, sink: &mut O, first: u32, place: u64)
    requires { place ≤ 12884901888 }
    ensures { Puts O.taken O.faults draft.old draft.new sink.old sink.new (decimal (first + place)) }
{
    draft.put_long_number(sink, u64::from(first) + place);
}
