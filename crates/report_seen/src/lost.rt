// The starts of groups that a log tells as lost.
ghost use Rattle.std.specs.Prelude.{ℕ, ◌≡◌, ◌≤◌, ◌<◌, ◌+◌, ◌++◌, List, [], ◌∷◌, true, false, Err, IfErr, OnOk, length, if◌then◌else◌};
ghost use Rattle.std.specs.Option.{ForSome};
ghost use Rattle.sig_io.specs.Outside.{Rose};
ghost use Rattle.sig_types.specs.declared.record.Record.{Record};
ghost use Rattle.log_read.specs.declared.begin.Begin.{Begin};
ghost use Rattle.log_read.specs.RecordAnswers.{Reads, begin_of, is_live, name_of, names_given, names_of, records_given};
ghost use Rattle.report_seen.specs.Lost.{AreAsked, asked_after, counts, is_let_be, is_off, last_of, lost_below, lost_by, refused_start};
ghost use Rattle.report_seen.specs.LostCall.{IsLosing};

use crate::stop::{Stop, stop_of};
use log_read::LogRecords;
use sig_io::Files;
use sig_types::{Aspect, GroupNo, Memory, Record, Rule, TurnRefusal, TurnRefusals};
use std::alloc::Global;

/// A start of a group that was asked for, refused, and no more asked for while the group was still off.
#[derive(Clone, Copy)]
pub struct LostStart {
    /// The group.
    pub group: GroupNo,
    /// The second in which it was refused first.
    pub asked: u32,
    /// The second in which it wasn't asked for any more.
    pub lost: u32,
    /// The rule that refused it last.
    pub rule: Rule,
    /// The group that stood in its way then, where the log names one.
    pub other: Option<GroupNo>,
}

/// A start that is asked for.
#[derive(Clone, Copy)]
pub(crate) struct Asking {
    /// The second in which it was refused first.
    pub(crate) since: u32,
    /// What refused it last.
    pub(crate) refused: TurnRefusal,
}

// Whether a turn of a group that shows this is a start.
fn is_off(aspect: Aspect) -> bool
    ensures { result ≡ is_off aspect }
{
    match aspect {
        Aspect::Red => true,
        Aspect::RedAmber => false,
        Aspect::Green => false,
        Aspect::Amber => true,
    }
}

// The last refused turn of a group.
fn last_of(group: u8, turns: &TurnRefusals) -> Option<TurnRefusal>
    ensures { result ≡ last_of group turns.now }
{
    let mut last = None;
    for place in 0..turns.len() {
        let turn = turns.get(place);
        if turn.group.0 == group {
            last = Some(turn);
        }
    }
    last
}

// What refused a start of a group in a second.
fn refused_start(rec: &Record, group: u8) -> Option<TurnRefusal>
    requires { group < length rec.now.picture }
    ensures { result ≡ refused_start group rec.now }
{
    if is_off(rec.picture.get(group)) {
        last_of(group, &rec.turns)
    } else {
        None
    }
}

// What is asked for after a second, by what was before it.
fn asked_after(second: u32, refused: Option<TurnRefusal>, before: Option<Asking>) -> Option<Asking>
    ensures { result ≡ asked_after second refused before }
{
    let refused = refused?;
    let since = match before {
        Some(before) => before.since,
        None => second,
    };
    Some(Asking { since, refused })
}

// Whether a group is off in a second, and no start of it is refused there.
fn is_let_be(rec: &Record, group: u8) -> bool
    requires { group < length rec.now.picture }
    ensures { result ≡ is_let_be group rec.now }
{
    is_off(rec.picture.get(group)) && refused_start(rec, group).is_none()
}

// Puts the start of a group that is lost in a second, where one is.
fn put_lost(
    starts: &mut Vec<LostStart>,
    rec: &Record,
    group: u8,
    before: Option<Asking>,
) -> Result<(), Memory>
    requires { group < length rec.now.picture }
    ensures { OnOk result (starts.new.items ≡ starts.old.items ++ lost_by group rec.now before) }
{
    let Some(before) = before else {
        return Ok(());
    };
    if !is_let_be(rec, group) {
        return Ok(());
    }
    let start = LostStart {
        group: GroupNo(group),
        asked: before.since,
        lost: rec.second.0,
        rule: before.refused.rule,
        other: before.refused.other,
    };
    match starts.push(start) {
        Ok(()) => Ok(()),
        Err(_) => Err(Memory),
    }
}

// Puts the starts that are lost in a second, where it counts.
fn put_second(
    starts: &mut Vec<LostStart>,
    rec: &Record,
    from: u32,
    to: u32,
    asked: &[Option<Asking>; 64],
) -> Result<(), Memory>
    requires { length rec.now.picture ≤ 64 }
    ensures { OnOk result ((earlier : List Record) → AreAsked (length rec.now.picture) earlier asked.now →
        starts.new.items ≡ starts.old.items ++ (if counts from to rec.now.second.0 then lost_below (length rec.now.picture) rec.now earlier else [])) }
{
    let second = rec.second.0;
    if second < from || to < second {
        return Ok(());
    }
    for group in 0..rec.picture.len() {
        put_lost(starts, rec, group, asked[usize::from(group)])?;
    }
    Ok(())
}

// Takes what is asked for after a second.
fn ask(asked: &mut [Option<Asking>; 64], rec: &Record)
    requires { length rec.now.picture ≤ 64 }
    ensures { (earlier : List Record) → AreAsked (length rec.now.picture) earlier asked.old →
        AreAsked (length rec.now.picture) (rec.now ∷ earlier) asked.new }
{
    for group in 0..rec.picture.len() {
        let at = usize::from(group);
        asked[at] = asked_after(rec.second.0, refused_start(rec, group), asked[at]);
    }
}

// What is asked for before any second.
fn none_asked() -> [Option<Asking>; 64]
    ensures { (groups : ℕ) → groups ≤ 64 → AreAsked groups [] result }
{
    [None; 64]
}

/// The starts that are lost in the seconds from `from` to `to` of a log of which no record was given yet. It is read to its end.
pub(crate) fn find_lost<F: Files>(
    alloc: Global,
    records: &mut LogRecords,
    from: u32,
    to: u32,
    files: &mut F,
) -> Result<Vec<LostStart>, Stop>
    requires begin { begin_of records.old ≡ Begin.Anywhere }
    requires found { names_given records.old ≡ false }
    requires live { is_live records.old ≡ true }
    requires none { records_given records.old ≡ 0 }
    requires few { length (names_of records.old) ≤ 64 }
    ensures losing { ForSome (F.told files.old) (λ file. Reads records.old (file (name_of records.old)) [] →
        IsLosing (names_of records.old) (file (name_of records.old)) from to result) }
    ensures names { names_of records.new ≡ names_of records.old }
    ensures contents_stay { F.told files.new ≡ F.told files.old }
    ensures no_write { result ≡ Err Stop.WriteFault → ⊥ }
    ensures cause { result ≡ Err Stop.ReadFault → Rose (F.faults files.old) (F.faults files.new) }
{
    let mut asked = none_asked();
    let mut starts = Vec::new(alloc);
    'records: loop {
        match records.next_record(files) {
            Ok(true) => {}
            Ok(false) => return Ok(starts),
            Err(stop) => return Err(stop_of(stop)),
        }
        match put_second(&mut starts, records.current(), from, to, &asked) {
            Ok(()) => ask(&mut asked, records.current()),
            Err(_memory) => return Err(Stop::Memory),
        }
    }
}
