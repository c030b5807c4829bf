// The text of what is judged of a log.
ghost use Rattle.std.specs.Prelude.{◌≡◌, ◌<◌, ◌≤◌, ◌+◌, ◌*◌, ◌^◌, ◌++◌, ℕ, List, Option, IfSome, codes, length};
ghost use Rattle.std.specs.Fmt.{decimal};
ghost use Rattle.sig_io.specs.Draft.{Puts};
ghost use Rattle.sig_types.specs.Recorded.{IsTurn};
ghost use Rattle.sig_types.specs.declared.refused.TurnRefusal.{TurnRefusal};
ghost use Rattle.pua_model.specs.Plan.{groups_in};
ghost use Rattle.sig_guard.specs.Stands.{rules};
ghost use Rattle.signal_log.specs.Log.{name_of, rule_name};
ghost use Rattle.sig_audit.specs.Verdict.{IsNamed};
ghost use Rattle.sig_audit.specs.declared.trial.InterEnd.TheVariants as inter;
ghost use Rattle.sig_audit.specs.declared.trial.InterEnd.{InterEnd};
ghost use Rattle.junction_run.specs.Audited.{AreEnds, other_name, verdict_text, end_text, inter_text, inters_text};

use pua_model::Plan;
use sig_audit::{InterEnd, Verdict, inter_check};
use sig_guard::Guard;
use sig_io::{Draft, Sink};
use sig_types::{GroupNo, InterNo, Rule, StageNo, TurnRefusals};
use signal_log::{put_turn, rule_name};

// Puts the name of a group.
fn put_name<O: Sink>(draft: &mut Draft, sink: &mut O, plan: &Plan, g: GroupNo)
    requires { g.0 < groups_in plan.now }
    ensures { Puts O.taken O.faults draft.old draft.new sink.old sink.new (name_of plan.now.names g) }
{
    draft.put(sink, plan.group_name(g).as_bytes());
}

// Puts the name of the other group after a space, where there is one.
fn put_other<O: Sink>(draft: &mut Draft, sink: &mut O, plan: &Plan, other: Option<GroupNo>)
    requires { IfSome other (λ g. g.0 < groups_in plan.now) }
    ensures { Puts O.taken O.faults draft.old draft.new sink.old sink.new (other_name plan.now.names other) }
{
    match other {
        None => {}
        Some(other) => {
            draft.put(sink, b" ");
            put_name(draft, sink, plan, other);
        }
    }
}

// Puts the second and the rule of a breach.
fn put_breach<O: Sink>(draft: &mut Draft, sink: &mut O, second: u32, rule: Rule)
    ensures { Puts O.taken O.faults draft.old draft.new sink.old sink.new
        (codes "BROKEN " ++ decimal second ++ codes " " ++ rule_name rule ++ codes " ") }
{
    draft.put(sink, b"BROKEN ");
    draft.put_number(sink, second);
    draft.put(sink, b" ");
    draft.put(sink, rule_name(rule));
    draft.put(sink, b" ");
}

/// Puts the verdict on the pictures.
pub(crate) fn put_verdict<O: Sink>(verdict: Verdict, plan: &Plan, draft: &mut Draft, sink: &mut O)
    requires { IsNamed (groups_in plan.now) verdict }
    ensures { Puts O.taken O.faults draft.old draft.new sink.old sink.new (verdict_text plan.now.names verdict) }
{
    match verdict {
        Verdict::Safe(records) => {
            draft.put(sink, b"SAFE ");
            draft.put_number(sink, records);
        }
        Verdict::Broken {
            second,
            rule,
            group,
            other,
        } => {
            put_breach(draft, sink, second, rule);
            put_name(draft, sink, plan, group);
            put_other(draft, sink, plan, other);
        }
    }
}

// Puts what becomes of an interstage.
fn put_end<O: Sink>(end: InterEnd, plan: &Plan, draft: &mut Draft, sink: &mut O)
    requires { (t : ℕ) (turn : TurnRefusal) → end ≡ inter.Refused t turn → IsTurn (groups_in plan.now) turn }
    ensures { Puts O.taken O.faults draft.old draft.new sink.old sink.new (end_text plan.now.names end) }
{
    match end {
        InterEnd::Clean => draft.put(sink, b"clean"),
        InterEnd::Unsettled => draft.put(sink, b"unsettled"),
        InterEnd::Refused { t, turn } => {
            draft.put_number(sink, u32::from(t));
            draft.put(sink, b" ");
            put_turn(turn, plan, draft, sink);
        }
    }
}

// Puts the two stages of an interstage.
fn put_stages<O: Sink>(draft: &mut Draft, sink: &mut O, from: StageNo, to: StageNo)
    ensures { Puts O.taken O.faults draft.old draft.new sink.old sink.new
        (codes "INTER " ++ decimal from.0 ++ codes "-" ++ decimal to.0 ++ codes " ") }
{
    draft.put(sink, b"INTER ");
    draft.put_number(sink, u32::from(from.0));
    draft.put(sink, b"-");
    draft.put_number(sink, u32::from(to.0));
    draft.put(sink, b" ");
}

// Puts the line of an interstage.
fn put_inter<O: Sink>(i: InterNo, end: InterEnd, plan: &Plan, draft: &mut Draft, sink: &mut O)
    requires interstage { i.0 < length plan.now.interstages }
    requires turn { (t : ℕ) (turn : TurnRefusal) → end ≡ inter.Refused t turn → IsTurn (groups_in plan.now) turn }
    ensures { Puts O.taken O.faults draft.old draft.new sink.old sink.new (inter_text plan.now i.0 end) }
{
    let (from, to) = plan.ends(i);
    put_stages(draft, sink, from, to);
    put_end(end, plan, draft, sink);
    draft.put(sink, b"\n");
}

/// Tries each interstage of the plan over the guard, and puts a line of each.
pub(crate) fn put_inters<O: Sink>(plan: &Plan, guard: &mut Guard, draft: &mut Draft, sink: &mut O)
    requires { (rules guard.old).count ≡ groups_in plan.now }
    ensures { (ends : List InterEnd) × AreEnds plan.now (rules guard.old) (length plan.now.interstages) ends
        × Puts O.taken O.faults draft.old draft.new sink.old sink.new (inters_text plan.now 0 ends) }
{
    let mut turns = TurnRefusals::empty();
    for i in 0..plan.interstages() {
        let inter = InterNo(i);
        let end = inter_check(plan, inter, guard, &mut turns);
        put_inter(inter, end, plan, draft, sink);
    }
}
