// Why a turn was refused, in numbers.
ghost use Rattle.std.specs.Prelude.{◌≡◌, ◌↔◌, ◌++◌, ℕ, ◌+◌, ◌<◌, ◌≤◌, ◌&&◌, false, not, length, IfSome, Option, None, Some, true, is_some, if◌then◌else◌};
ghost use Rattle.std.specs.Option.{ForSome};
ghost use Rattle.sig_types.specs.Recorded.{IsTurn};
ghost use Rattle.sig_types.specs.Turns.{History, shown, is_on as is_on_spec, is_red as is_red_spec, is_green as is_green_spec};
ghost use Rattle.sig_tables.specs.SiteRules.{rules_of};
ghost use Rattle.sig_tables.specs.TimesTable.{row_of};
ghost use Rattle.log_judge.specs.Found.{past_at};
ghost use Rattle.log_judge.specs.Stands.{StandsFor, groups_of, seconds_of, terms_of};
ghost use Rattle.log_judge.specs.Explained.{both as both_spec, unless as unless_spec, certainly as certainly_spec, where_so as where_so_spec, short_now, missed_now, ended_now, none_missed as none_missed_spec, so_far_now, lowest_on_now, is_at as is_at_spec, end_finding as end_finding_spec, red_is_enough as red_is_enough_spec, start_finding as start_finding_spec, lacks_now, most_lacking as most_lacking_spec, finding_now, end_reason_now, on_from_now, uncleared_now, most_lacking_now, start_reason_now, reason_now};
ghost use Rattle.log_judge.specs.Refused.{no_turn as no_turn_spec, IsBorneOut};
ghost use Rattle.sig_guard.specs.Safety.{IsHistory};

use crate::judge::Judge;
use sig_guard::is_on;
use sig_tables::Limits;
use sig_types::{Aspect, GroupNo, Picture, Rule, TurnRefusal};

/// Whether the pictures and the tables bear a refusal out.
#[derive(Clone, Copy, PartialEq, Eq)]
pub enum Finding {
    /// They do, whatever was before the log.
    Borne,
    /// What would tell it lies before the log.
    Unknown,
    /// They don't, whatever was before the log.
    Contradicted,
}

/// The turn that was asked for.
#[derive(Clone, Copy, PartialEq, Eq)]
pub enum Asked {
    Start,
    End,
}

/// What the log has of the cause. Seconds are places of the history.
#[derive(Clone, Copy)]
pub enum Reason {
    /// The group isn't yet green, or red: its red-amber, or amber, since so long has this time.
    NotYet {
        since: u32,
        time: u32,
    },
    /// The green, or red, since then has to last so long.
    Least {
        since: u32,
        least: u32,
    },
    /// The other group has been on since then.
    On {
        other: GroupNo,
        since: u32,
    },
    /// The other ended then; the group would be green in `due`. By this rule it may start in `free`, for the sake of `by`.
    Uncleared {
        other: GroupNo,
        ended: u32,
        due: u32,
        least: u32,
        free: u32,
        by: GroupNo,
    },
    /// Nothing that fits the rule.
    Nothing,
}

/// What is said of a refused turn.
#[derive(Clone, Copy)]
pub struct Explained {
    pub asked: Asked,
    pub finding: Finding,
    pub reason: Reason,
}

fn both(this: Finding, that: Finding) -> Finding
    ensures { result ≡ both_spec this that }
{
    match (this, that) {
        (Finding::Borne, _) => that,
        (Finding::Contradicted, _) => Finding::Contradicted,
        (Finding::Unknown, Finding::Contradicted) => Finding::Contradicted,
        (Finding::Unknown, _) => Finding::Unknown,
    }
}

// That it isn't so.
fn unless(this: Finding) -> Finding
    ensures { result ≡ unless_spec this }
{
    match this {
        Finding::Borne => Finding::Contradicted,
        Finding::Unknown => Finding::Unknown,
        Finding::Contradicted => Finding::Borne,
    }
}

fn certainly(so: bool) -> Finding
    ensures { result ≡ certainly_spec so }
{
    if so {
        Finding::Borne
    } else {
        Finding::Contradicted
    }
}

fn where_so(so: bool, this: Finding) -> Finding
    ensures { result ≡ where_so_spec so this }
{
    if so { this } else { Finding::Contradicted }
}

fn is_red(aspect: Aspect) -> bool
    ensures { result ≡ is_red_spec aspect }
{
    aspect == Aspect::Red
}

fn is_green(aspect: Aspect) -> bool
    ensures { result ≡ is_green_spec aspect }
{
    aspect == Aspect::Green
}

// Whether what a group shows since then lasts too short for a turn now.
#[tactic(auto, unfolding(crate::specs::Stands::groups_of))]
fn is_short(judge: &Judge, g: u8, least: u32) -> Finding
    requires group { g < groups_of judge.now }
    requires least { least ≤ 2550 }
    ensures { result ≡ short_now judge.now.terms judge.now.seconds (past_at judge.now.pasts g).since least }
{
    let known = if judge.is_begun(g) {
        Finding::Borne
    } else {
        Finding::Unknown
    };
    where_so(judge.seconds() < judge.since(g) + least, known)
}

// Whether a green in this second comes too soon after the last end.
fn is_missed(due: u32, between: Option<u16>, ended: Option<u32>) -> Finding
    requires { ForSome ended (λ b. b ≤ 6048002) }
    ensures { result ≡ missed_now due between ended }
{
    match (between, ended) {
        (None, _) => Finding::Contradicted,
        (Some(least), None) => where_so(due < u32::from(least), Finding::Unknown),
        (Some(least), Some(ended)) => certainly(due < ended + u32::from(least)),
    }
}

// Whether the intergreen of no lower group is missed.
#[tactic(auto, unfolding(crate::specs::Stands::groups_of))]
fn none_missed(
    judge: &Judge,
    limits: &Limits<'_>,
    picture: &Picture,
    below: u8,
    g: u8,
    due: u32,
) -> Finding
    requires below { below ≤ groups_of judge.now }
    requires group { g < groups_of judge.now }
    requires picture { length picture.now ≡ groups_of judge.now }
    requires intergreens { limits.now.pairs.count ≡ groups_of judge.now }
    ensures { result ≡ none_missed_spec (rules_of limits.now.times limits.now.pairs) judge.now.seconds judge.now.picture judge.now.pasts picture.now g due below }
{
    let mut none = Finding::Borne;
    for i in 0..below {
        let between = limits.between(GroupNo(i), GroupNo(g));
        let missed = is_missed(due, between, judge.last_end_with(picture, i));
        none = both(none, unless(missed));
    }
    none
}

// What another group shows in the picture against which the start of g was decided.
#[tactic(auto, unfolding(crate::specs::Stands::groups_of))]
fn so_far(judge: &Judge, picture: &Picture, g: u8, i: u8) -> Aspect
    requires other { i < groups_of judge.now }
    requires picture { length picture.now ≡ groups_of judge.now }
    ensures { result ≡ so_far_now judge.now.picture picture.now g i }
{
    let (was, is) = (judge.aspect(i), picture.get(i));
    if g <= i && (is_red(was) && is_on(is)) {
        was
    } else {
        is
    }
}

// Whether another group is in conflict with g, and on in that picture.
#[tactic(auto, unfolding(crate::specs::Stands::groups_of))]
fn is_in_way(judge: &Judge, limits: &Limits<'_>, picture: &Picture, g: u8, i: u8) -> bool
    requires group { g < groups_of judge.now }
    requires other { i < groups_of judge.now }
    requires picture { length picture.now ≡ groups_of judge.now }
    requires intergreens { limits.now.pairs.count ≡ groups_of judge.now }
    ensures { result ≡ (is_some ((rules_of limits.now.times limits.now.pairs).between i g) && is_on_spec (so_far_now judge.now.picture picture.now g i)) }
{
    limits.between(GroupNo(i), GroupNo(g)).is_some() && is_on(so_far(judge, picture, g, i))
}

// The lowest group in conflict that is on in that picture.
#[tactic(auto, unfolding(crate::specs::Stands::groups_of))]
fn lowest_on(judge: &Judge, limits: &Limits<'_>, picture: &Picture, g: u8) -> Option<u8>
    requires times { length limits.now.times ≡ groups_of judge.now }
    requires group { g < groups_of judge.now }
    requires picture { length picture.now ≡ groups_of judge.now }
    requires intergreens { limits.now.pairs.count ≡ groups_of judge.now }
    ensures { result ≡ lowest_on_now (rules_of limits.now.times limits.now.pairs) judge.now.picture picture.now g }
{
    for i in 0..picture.len() {
        if is_in_way(judge, limits, picture, g, i) {
            return Some(i);
        }
    }
    None
}

fn is_at(place: Option<u8>, i: u8) -> bool
    ensures { result ≡ is_at_spec place i }
{
    match place {
        None => false,
        Some(j) => j == i,
    }
}

#[tactic(auto, unfolding(crate::specs::Stands::groups_of))]
fn end_finding(judge: &Judge, limits: &Limits<'_>, turn: TurnRefusal) -> Finding
    requires times { length limits.now.times ≡ groups_of judge.now }
    requires intergreens { limits.now.pairs.count ≡ groups_of judge.now }
    requires turn { turn.group.0 < groups_of judge.now }
    ensures { result ≡ end_finding_spec (rules_of limits.now.times limits.now.pairs) judge.now.terms judge.now.seconds judge.now.picture judge.now.pasts
        turn.group.0 turn.rule turn.other }
{
    let g = turn.group.0;
    let green = is_green(judge.aspect(g));
    let least = limits.min(turn.group);
    match (turn.rule, turn.other) {
        (Rule::Sequence, None) => certainly(!green),
        (Rule::MinGreen, None) => where_so(green, is_short(judge, g, least)),
        _ => Finding::Contradicted,
    }
}

#[tactic(auto, unfolding(crate::specs::Stands::groups_of))]
fn red_is_enough(judge: &Judge, limits: &Limits<'_>, g: u8) -> Finding
    requires times { length limits.now.times ≡ groups_of judge.now }
    requires intergreens { limits.now.pairs.count ≡ groups_of judge.now }
    requires group { g < groups_of judge.now }
    ensures { result ≡ red_is_enough_spec (rules_of limits.now.times limits.now.pairs) judge.now.terms judge.now.seconds judge.now.pasts g }
{
    let least = limits.min_red(GroupNo(g));
    unless(is_short(judge, g, least))
}

#[tactic(auto, unfolding(crate::specs::Stands::groups_of))]
fn conflict_finding(
    judge: &Judge,
    limits: &Limits<'_>,
    picture: &Picture,
    g: u8,
    i: GroupNo,
) -> Finding
    requires times { length limits.now.times ≡ groups_of judge.now }
    requires intergreens { limits.now.pairs.count ≡ groups_of judge.now }
    requires picture { length picture.now ≡ groups_of judge.now }
    requires group { g < groups_of judge.now }
    ensures { result ≡ start_finding_spec (rules_of limits.now.times limits.now.pairs) judge.now.terms judge.now.seconds judge.now.picture judge.now.pasts picture.now
        g Rule.Conflict (Some i) }
{
    let red = is_red(judge.aspect(g));
    let on = lowest_on(judge, limits, picture, g);
    where_so(red && is_at(on, i.0), red_is_enough(judge, limits, g))
}

#[tactic(auto, unfolding(crate::specs::Stands::groups_of))]
fn intergreen_finding(
    judge: &Judge,
    limits: &Limits<'_>,
    picture: &Picture,
    g: u8,
    i: GroupNo,
) -> Finding
    requires times { length limits.now.times ≡ groups_of judge.now }
    requires intergreens { limits.now.pairs.count ≡ groups_of judge.now }
    requires picture { length picture.now ≡ groups_of judge.now }
    requires group { g < groups_of judge.now }
    requires other { i.0 < groups_of judge.now }
    ensures { result ≡ start_finding_spec (rules_of limits.now.times limits.now.pairs) judge.now.terms judge.now.seconds judge.now.picture judge.now.pasts picture.now
        g Rule.Intergreen (Some i) }
{
    let red = is_red(judge.aspect(g));
    let on = lowest_on(judge, limits, picture, g);
    let due = judge.seconds() + limits.red_amber(GroupNo(g));
    let lower = none_missed(judge, limits, picture, i.0, g, due);
    let between = limits.between(i, GroupNo(g));
    let missed = is_missed(due, between, judge.last_end_with(picture, i.0));
    let enough = red_is_enough(judge, limits, g);
    where_so(red && on.is_none(), both(enough, both(lower, missed)))
}

#[tactic(auto, unfolding(crate::specs::Stands::groups_of))]
fn start_finding(
    judge: &Judge,
    limits: &Limits<'_>,
    picture: &Picture,
    turn: TurnRefusal,
) -> Finding
    requires times { length limits.now.times ≡ groups_of judge.now }
    requires intergreens { limits.now.pairs.count ≡ groups_of judge.now }
    requires picture { length picture.now ≡ groups_of judge.now }
    requires turn { IsTurn (groups_of judge.now) turn }
    ensures { result ≡ start_finding_spec (rules_of limits.now.times limits.now.pairs) judge.now.terms judge.now.seconds judge.now.picture judge.now.pasts picture.now
        turn.group.0 turn.rule turn.other }
{
    let g = turn.group.0;
    let red = is_red(judge.aspect(g));
    let least = limits.min_red(turn.group);
    match (turn.rule, turn.other) {
        (Rule::Sequence, None) => certainly(!red),
        (Rule::MinRed, None) => where_so(red, is_short(judge, g, least)),
        (Rule::Conflict, Some(i)) => { conflict_finding(judge, limits, picture, g, i) }
        (Rule::Intergreen, Some(i)) => { intergreen_finding(judge, limits, picture, g, i) }
        _ => Finding::Contradicted,
    }
}

// The seconds by which a green in this second comes too soon after the last end; 0 where none is known.
fn lacks(due: u32, between: Option<u16>, ended: Option<u32>) -> u32
    requires { ForSome ended (λ b. b ≤ 6048002) }
    ensures lacks { result ≡ lacks_now due between ended }
    ensures at_most { result ≤ 6113537 }
{
    match (between, ended) {
        (Some(least), Some(ended)) => (ended + u32::from(least)).saturating_sub(due),
        _ => 0,
    }
}

// The group from which most seconds are lacking, the lowest of several, with these.
#[tactic(auto, unfolding(crate::specs::Stands::groups_of))]
fn most_lacking(judge: &Judge, limits: &Limits<'_>, picture: &Picture, g: u8, due: u32) -> (u8, u32)
    requires group { g < groups_of judge.now }
    requires picture { length picture.now ≡ groups_of judge.now }
    requires intergreens { limits.now.pairs.count ≡ groups_of judge.now }
    ensures most { result ≡ most_lacking_spec (λ i. lacks_now due ((rules_of limits.now.times limits.now.pairs).between i g)
        (ended_now judge.now.seconds judge.now.picture judge.now.pasts picture.now i)) (length picture.now) }
    ensures at_most { result.1 ≤ 6113537 }
{
    let mut most = (0, 0);
    for i in 0..picture.len() {
        let between = limits.between(GroupNo(i), GroupNo(g));
        let here = lacks(due, between, judge.last_end_with(picture, i));
        if most.1 < here {
            most = (i, here);
        }
    }
    most
}

#[tactic(auto, unfolding(crate::specs::Stands::groups_of))]
fn end_reason(judge: &Judge, limits: &Limits<'_>, turn: TurnRefusal) -> Reason
    requires times { length limits.now.times ≡ groups_of judge.now }
    requires intergreens { limits.now.pairs.count ≡ groups_of judge.now }
    requires turn { turn.group.0 < groups_of judge.now }
    ensures { result ≡ end_reason_now (rules_of limits.now.times limits.now.pairs) judge.now.pasts turn.group.0 turn.rule }
{
    let since = judge.since(turn.group.0);
    match turn.rule {
        Rule::Sequence => Reason::NotYet {
            since,
            time: limits.red_amber(turn.group),
        },
        Rule::MinGreen => Reason::Least {
            since,
            least: limits.min(turn.group),
        },
        _ => Reason::Nothing,
    }
}

// Since when another group is on with the picture.
#[tactic(auto, unfolding(crate::specs::Stands::groups_of))]
fn on_reason(judge: &Judge, other: GroupNo) -> Reason
    requires { other.0 < groups_of judge.now }
    ensures { result ≡ Reason.On other (on_from_now judge.now.seconds judge.now.picture judge.now.pasts other.0) }
{
    let since = if is_on(judge.aspect(other.0)) {
        judge.on_since(other.0)
    } else {
        judge.seconds()
    };
    Reason::On { other, since }
}

#[tactic(auto, unfolding(crate::specs::Stands::groups_of))]
fn uncleared_reason(
    judge: &Judge,
    limits: &Limits<'_>,
    picture: &Picture,
    g: u8,
    other: GroupNo,
) -> Reason
    requires times { length limits.now.times ≡ groups_of judge.now }
    requires intergreens { limits.now.pairs.count ≡ groups_of judge.now }
    requires picture { length picture.now ≡ groups_of judge.now }
    requires group { g < groups_of judge.now }
    requires other { other.0 < groups_of judge.now }
    ensures { result ≡ uncleared_now judge.now.seconds ((rules_of limits.now.times limits.now.pairs).red_amber g) ((rules_of limits.now.times limits.now.pairs).between other.0 g)
        (ended_now judge.now.seconds judge.now.picture judge.now.pasts picture.now other.0) other
        (most_lacking_now (rules_of limits.now.times limits.now.pairs) judge.now.seconds judge.now.picture judge.now.pasts picture.now g) }
{
    let due = judge.seconds() + limits.red_amber(GroupNo(g));
    let between = limits.between(other, GroupNo(g));
    let (by, lacking) = most_lacking(judge, limits, picture, g, due);
    match (between, judge.last_end_with(picture, other.0)) {
        (Some(least), Some(ended)) => Reason::Uncleared {
            other,
            ended,
            due,
            least: u32::from(least),
            free: judge.seconds() + lacking,
            by: GroupNo(by),
        },
        _ => Reason::Nothing,
    }
}

#[tactic(auto, unfolding(crate::specs::Stands::groups_of))]
fn start_reason(judge: &Judge, limits: &Limits<'_>, picture: &Picture, turn: TurnRefusal) -> Reason
    requires times { length limits.now.times ≡ groups_of judge.now }
    requires intergreens { limits.now.pairs.count ≡ groups_of judge.now }
    requires picture { length picture.now ≡ groups_of judge.now }
    requires turn { IsTurn (groups_of judge.now) turn }
    ensures { result ≡ start_reason_now (rules_of limits.now.times limits.now.pairs) judge.now.seconds judge.now.picture judge.now.pasts picture.now
        turn.group.0 turn.rule turn.other }
{
    let g = turn.group.0;
    let since = judge.since(g);
    match (turn.rule, turn.other) {
        (Rule::Sequence, _) => Reason::NotYet {
            since,
            time: limits.amber(turn.group),
        },
        (Rule::MinRed, _) => Reason::Least {
            since,
            least: limits.min_red(turn.group),
        },
        (Rule::Conflict, Some(other)) => on_reason(judge, other),
        (Rule::Intergreen, Some(other)) => { uncleared_reason(judge, limits, picture, g, other) }
        _ => Reason::Nothing,
    }
}

// Whether a group neither started nor ended.
fn no_turn(was: Aspect, is: Aspect) -> bool
    ensures { result ≡ no_turn_spec was is }
{
    (is_on(was) && is_on(is)) || (!is_on(was) && !is_on(is))
}

#[tactic(auto, unfolding(crate::specs::Stands::groups_of))]
fn finding_of(judge: &Judge, limits: &Limits<'_>, picture: &Picture, turn: TurnRefusal) -> Finding
    requires times { length limits.now.times ≡ groups_of judge.now }
    requires intergreens { limits.now.pairs.count ≡ groups_of judge.now }
    requires picture { length picture.now ≡ groups_of judge.now }
    requires turn { IsTurn (groups_of judge.now) turn }
    ensures { result ≡ finding_now (rules_of limits.now.times limits.now.pairs) judge.now.terms judge.now.seconds judge.now.picture judge.now.pasts picture.now turn }
{
    let g = turn.group.0;
    let stays = no_turn(judge.aspect(g), picture.get(g));
    if is_on(picture.get(g)) {
        return where_so(stays, end_finding(judge, limits, turn));
    }
    where_so(stays, start_finding(judge, limits, picture, turn))
}

#[tactic(auto, unfolding(crate::specs::Stands::groups_of))]
fn reason_of(judge: &Judge, limits: &Limits<'_>, picture: &Picture, turn: TurnRefusal) -> Reason
    requires times { length limits.now.times ≡ groups_of judge.now }
    requires intergreens { limits.now.pairs.count ≡ groups_of judge.now }
    requires picture { length picture.now ≡ groups_of judge.now }
    requires turn { IsTurn (groups_of judge.now) turn }
    ensures { result ≡ reason_now (rules_of limits.now.times limits.now.pairs) judge.now.seconds judge.now.picture judge.now.pasts picture.now turn }
{
    if is_on(picture.get(turn.group.0)) {
        return end_reason(judge, limits, turn);
    }
    start_reason(judge, limits, picture, turn)
}

/// What is said of a turn that was refused in the second that shows the picture, after those that the judge knows. A group that
/// shows another turn in it was refused none. Of the first second of a log with an unknown past nothing can be said.
#[tactic(auto, unfolding(crate::specs::Stands::groups_of, crate::specs::Stands::seconds_of, crate::specs::Stands::terms_of))]
pub fn explain(
    judge: &Judge,
    limits: &Limits<'_>,
    picture: &Picture,
    turn: TurnRefusal,
) -> Explained
    requires times { length limits.now.times ≡ groups_of judge.now }
    requires intergreens { limits.now.pairs.count ≡ groups_of judge.now }
    requires picture { length picture.now ≡ groups_of judge.now }
    requires turn { IsTurn (groups_of judge.now) turn }
    ensures asked { result.asked ≡ (if is_on_spec (shown picture.now turn.group.0) then Asked.End else Asked.Start) }
    ensures finding { 0 < seconds_of judge.now →
        result.finding ≡ finding_now (rules_of limits.now.times limits.now.pairs) judge.now.terms judge.now.seconds judge.now.picture judge.now.pasts picture.now turn }
    ensures reason { 0 < seconds_of judge.now →
        result.reason ≡ reason_now (rules_of limits.now.times limits.now.pairs) judge.now.seconds judge.now.picture judge.now.pasts picture.now turn }
    ensures first { seconds_of judge.now ≡ 0 → result.finding ≡ Finding.Unknown }
    // At rest it is borne out exactly where it is told so.
    ensures at_rest { (h : History) → StandsFor judge.now h → (terms_of judge.now).rested ≡ true → IsHistory (groups_of judge.now) h →
        (result.finding ≡ Finding.Borne) ↔ IsBorneOut (rules_of limits.now.times limits.now.pairs) h picture.now turn }
    // Whatever was before the log, it is borne out where it is told so,
    ensures borne { (h front : History) → StandsFor judge.now h → (terms_of judge.now).rested ≡ false →
        IsHistory (groups_of judge.now) (front ++ h) → result.finding ≡ Finding.Borne →
        IsBorneOut (rules_of limits.now.times limits.now.pairs) (front ++ h) picture.now turn }
    // and not borne out where that is told.
    ensures contradicted { (h front : History) → StandsFor judge.now h → (terms_of judge.now).rested ≡ false →
        IsHistory (groups_of judge.now) (front ++ h) → result.finding ≡ Finding.Contradicted →
        IsBorneOut (rules_of limits.now.times limits.now.pairs) (front ++ h) picture.now turn → ⊥ }
{
    let asked = if is_on(picture.get(turn.group.0)) {
        Asked::End
    } else {
        Asked::Start
    };
    if judge.seconds() == 0 {
        return Explained {
            asked,
            finding: Finding::Unknown,
            reason: Reason::Nothing,
        };
    }
    let finding = finding_of(judge, limits, picture, turn);
    let reason = reason_of(judge, limits, picture, turn);
    Explained {
        asked,
        finding,
        reason,
    }
}
