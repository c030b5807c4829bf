// What was refused, found record by record.
ghost use Rattle.std.specs.Prelude.{◌≡◌, ℕ, ◌+◌, ◌<◌, ◌≤◌, ◌&&◌, ◌++◌, ◌∷◌, [], List, All, OnOk, length, map, nat_le};
ghost use Rattle.sig_types.specs.declared.record.Record.{Record};
ghost use Rattle.sig_types.specs.Recorded.{IsRecord, IsTurn};
ghost use Rattle.sig_types.specs.Rules.{Rules};
ghost use Rattle.sig_types.specs.Turns.{History};
ghost use Rattle.sig_tables.specs.SiteRules.{rules_of};
ghost use Rattle.log_judge.specs.Stands.{StandsFor, groups_of as groups_judged, seconds_of, terms_of};
ghost use Rattle.refusal_text.specs.Order.{AreUpTo};
ghost use Rattle.refusal_text.specs.Words.{second_of};
ghost use Rattle.refusal_text.specs.Refusals.{asked_of, begins_at_rest, command_of, first_known, is_asked, known_before, refused_in, said_by, said_of, terms_from, told_in, turn_of};

use crate::refusal::{Refusal, Said};
use log_judge::{Explained, Finding, Judge, explain};
use sig_tables::{Intergreens, Limits, Times};
use sig_types::{Memory, Picture, Record, StagePlace, StageRefusals, TurnRefusal, TurnRefusals};
use std::alloc::Global;

/// What was refused in the records of a log up to the last one that was shown. It keeps the refusals that are asked for and a
/// few numbers of each group, and no history.
#[derive(Drop)]
pub struct Refusals {
    groups: u8,
    records: u32,
    judge: Judge,
    // The second of the first picture that the judge knows.
    pub(crate) first: u32,
    from: u32,
    to: u32,
    pub(crate) found: Vec<Refusal>,
    ghost few: { groups ≤ 64 },
    ghost judged: { groups_judged judge ≡ groups },
    ghost shown: { seconds_of judge ≤ records + 1 },
    ghost none: { records ≡ 0 → found.items ≡ [] },
    ghost order: { AreUpTo (seconds_of judge) found.items },
}

// Puts a refusal behind the others.
fn tell(found: &mut Vec<Refusal>, refusal: Refusal) -> Result<(), Memory>
    ensures pushed { OnOk result (found.new.items ≡ found.old.items ++ refusal ∷ []) }
    ensures order { (n : ℕ) → second_of refusal ≡ n → AreUpTo n found.old.items → AreUpTo n found.new.items }
{
    match found.push(refusal) {
        Ok(()) => Ok(()),
        Err(_) => Err(Memory),
    }
}

// Tells the refused stage commands of a second.
fn tell_commands(
    found: &mut Vec<Refusal>,
    second: u32,
    place: StagePlace,
    stages: &StageRefusals,
) -> Result<(), Memory>
    ensures told { OnOk result (found.new.items ≡ found.old.items ++ map (command_of second place) stages.now) }
    ensures order { AreUpTo second found.old.items → AreUpTo second found.new.items }
{
    for i in 0..stages.len() {
        let refusal = Refusal::Command {
            second,
            refused: stages.get(i),
            place,
        };
        match tell(found, refusal) {
            Ok(()) => {}
            Err(memory) => return Err(memory),
        }
    }
    Ok(())
}

// Whether a refused turn is borne out, with the cause where it is.
fn said_by(explained: Explained) -> Said
    ensures { result ≡ said_by explained.finding explained.reason }
{
    match explained.finding {
        Finding::Borne => Said::Borne(explained.reason),
        Finding::Unknown => Said::Unknown,
        Finding::Contradicted => Said::Contradicted,
    }
}

// A refused turn, with what is said of it.
fn turn_of(
    judge: &Judge,
    times: &Times,
    intergreens: &Intergreens,
    picture: &Picture,
    turn: TurnRefusal,
) -> Refusal
    requires times { length times.now ≡ groups_judged judge.now }
    requires intergreens { intergreens.now.count ≡ groups_judged judge.now }
    requires picture { length picture.now ≡ groups_judged judge.now }
    requires turn { IsTurn (groups_judged judge.now) turn }
    ensures second { second_of result ≡ seconds_of judge.now }
    ensures told { (h : History) → StandsFor judge.now h →
        result ≡ turn_of (rules_of times.now intergreens.now) (terms_of judge.now) h picture.now turn }
{
    let limits = Limits::of(times, intergreens);
    let explained = explain(judge, &limits, picture, turn);
    Refusal::Turn {
        second: judge.seconds(),
        turn,
        asked: explained.asked,
        said: said_by(explained),
    }
}

// Tells the refused turns of a second.
fn tell_turns(
    found: &mut Vec<Refusal>,
    judge: &Judge,
    times: &Times,
    intergreens: &Intergreens,
    picture: &Picture,
    turns: &TurnRefusals,
) -> Result<(), Memory>
    requires times { length times.now ≡ groups_judged judge.now }
    requires intergreens { intergreens.now.count ≡ groups_judged judge.now }
    requires picture { length picture.now ≡ groups_judged judge.now }
    requires turns { All (IsTurn (groups_judged judge.now)) turns.now }
    ensures told { OnOk result ((h : History) → StandsFor judge.now h → found.new.items ≡
        found.old.items ++ map (turn_of (rules_of times.now intergreens.now) (terms_of judge.now) h picture.now) turns.now) }
    ensures order { AreUpTo (seconds_of judge.now) found.old.items → AreUpTo (seconds_of judge.now) found.new.items }
{
    for i in 0..turns.len() {
        let refusal = turn_of(judge, times, intergreens, picture, turns.get(i));
        match tell(found, refusal) {
            Ok(()) => {}
            Err(memory) => return Err(memory),
        }
    }
    Ok(())
}

// Tells what was refused in the second after the pictures that a judge knows.
fn tell_second(
    found: &mut Vec<Refusal>,
    judge: &Judge,
    times: &Times,
    intergreens: &Intergreens,
    rec: &Record,
) -> Result<(), Memory>
    requires times { length times.now ≡ groups_judged judge.now }
    requires intergreens { intergreens.now.count ≡ groups_judged judge.now }
    requires rec { IsRecord (groups_judged judge.now) rec.now }
    ensures told { OnOk result ((h : History) → StandsFor judge.now h → found.new.items ≡
        found.old.items ++ refused_in (rules_of times.now intergreens.now) (terms_of judge.now) h rec.now) }
    ensures order { AreUpTo (seconds_of judge.now) found.old.items → AreUpTo (seconds_of judge.now) found.new.items }
{
    match tell_commands(found, judge.seconds(), rec.place, &rec.stages) {
        Ok(()) => tell_turns(found, judge, times, intergreens, &rec.picture, &rec.turns),
        Err(memory) => Err(memory),
    }
}

// A judge of a log whose first record has this second: from second 1 on it began at rest.
fn judge_from(groups: u8, second: u32) -> Judge
    requires { groups ≤ 64 }
    ensures groups { groups_judged result ≡ groups }
    ensures terms { terms_of result ≡ terms_from second }
    ensures few { seconds_of result ≤ 1 }
    ensures stands { StandsFor result (known_before groups second) }
{
    if second == 1 {
        Judge::at_rest(groups, 0)
    } else {
        Judge::new(groups, 0)
    }
}

// The second of the first picture that is known.
fn first_known(second: u32) -> u32
    ensures { result ≡ first_known second }
{
    if second == 1 { 0 } else { second }
}

impl Refusals {
    ghost use Rattle.refusal_text.specs.Kept.{HasFound, IsFresh, IsOn, groups_of, records_of};

    /// What was refused in a log of so many groups before its first record. The seconds that are asked for are those from `from`
    /// to `to`, as the log numbers them.
    #[tactic(auto, unfolding(crate::specs::Kept::groups_of, crate::specs::Kept::records_of))]
    pub fn new(alloc: Global, groups: u8, from: u32, to: u32) -> Refusals
        requires { groups ≤ 64 }
        ensures groups { groups_of result ≡ groups }
        ensures records { records_of result ≡ 0 }
        ensures found { (r : Rules) → r.count ≡ groups → HasFound result r from to [] }
    {
        Refusals {
            groups,
            records: 0,
            judge: Judge::new(groups, 0),
            first: 0,
            from,
            to,
            found: Vec::new(alloc),
        }
    }

    // Begins with the first record.
    #[tactic(auto, unfolding(crate::specs::Kept::groups_of, crate::specs::Kept::records_of))]
    fn begin(&mut self, second: u32)
        requires { records_of self.old ≡ 0 }
        ensures groups { groups_of self.new ≡ groups_of self.old }
        ensures records { records_of self.new ≡ records_of self.old }
        ensures found { (r : Rules) (from to : ℕ) → IsFresh self.old r from to → IsOn self.new r second from to [] }
    {
        self.judge = judge_from(self.groups, second);
        self.first = first_known(second);
    }

    // Whether the next second is asked for.
    fn is_asked(&self) -> bool
        ensures { result ≡ is_asked self.now.first self.now.from self.now.to (seconds_of self.now.judge) }
    {
        let second = u64::from(self.first) + u64::from(self.judge.seconds());
        u64::from(self.from) <= second && second <= u64::from(self.to)
    }

    // Tells what was refused in the next second, where it's asked for.
    fn tell_next(
        &mut self,
        times: &Times,
        intergreens: &Intergreens,
        rec: &Record,
    ) -> Result<(), Memory>
        requires times { length times.now ≡ self.old.groups }
        requires intergreens { intergreens.now.count ≡ self.old.groups }
        requires rec { IsRecord self.old.groups rec.now }
        requires some { 1 ≤ self.old.records }
        ensures groups { self.new.groups ≡ self.old.groups }
        ensures records { self.new.records ≡ self.old.records }
        ensures judge { self.new.judge ≡ self.old.judge }
        ensures first { self.new.first ≡ self.old.first }
        ensures from { self.new.from ≡ self.old.from }
        ensures to { self.new.to ≡ self.old.to }
        ensures told { OnOk result ((h : History) → StandsFor self.old.judge h → self.new.found.items ≡ self.old.found.items
            ++ told_in (rules_of times.now intergreens.now) (terms_of self.old.judge) self.old.first self.old.from self.old.to h rec.now) }
    {
        if !self.is_asked() {
            return Ok(());
        }
        tell_second(&mut self.found, &self.judge, times, intergreens, rec)
    }

    // Takes the next record of a log that was begun.
    #[tactic(auto, unfolding(crate::specs::Kept::groups_of, crate::specs::Kept::records_of))]
    fn take(&mut self, times: &Times, intergreens: &Intergreens, rec: &Record) -> Result<(), Memory>
        requires times { length times.now ≡ groups_of self.old }
        requires intergreens { intergreens.now.count ≡ groups_of self.old }
        requires rec { IsRecord (groups_of self.old) rec.now }
        requires at_most { records_of self.old < 604801 }
        ensures groups { groups_of self.new ≡ groups_of self.old }
        ensures records { records_of self.new ≡ records_of self.old + 1 }
        ensures found { OnOk result ((second from to : ℕ) (records : List Record) →
            IsOn self.old (rules_of times.now intergreens.now) second from to records →
            IsOn self.new (rules_of times.now intergreens.now) second from to (records ++ rec.now ∷ [])) }
    {
        self.records += 1;
        match self.tell_next(times, intergreens, rec) {
            Ok(()) => {}
            Err(memory) => return Err(memory),
        }
        self.judge.show(&rec.picture);
        Ok(())
    }

    /// Takes the next record of a log. The second of the first one tells what is known of the time before it: a log from second 1
    /// on began at rest.
    #[tactic(auto, unfolding(crate::specs::Kept::groups_of, crate::specs::Kept::records_of))]
    pub fn show(
        &mut self,
        times: &Times,
        intergreens: &Intergreens,
        rec: &Record,
    ) -> Result<(), Memory>
        requires times { length times.now ≡ groups_of self.old }
        requires intergreens { intergreens.now.count ≡ groups_of self.old }
        requires rec { IsRecord (groups_of self.old) rec.now }
        requires at_most { records_of self.old < 604801 }
        ensures groups { groups_of self.new ≡ groups_of self.old }
        ensures records { records_of self.new ≡ records_of self.old + 1 }
        ensures found { OnOk result ((from to : ℕ) (records : List Record) →
            HasFound self.old (rules_of times.now intergreens.now) from to records →
            HasFound self.new (rules_of times.now intergreens.now) from to (records ++ rec.now ∷ [])) }
    {
        if self.records > 0 {
            return self.take(times, intergreens, rec);
        }
        self.begin(rec.second.0);
        self.take(times, intergreens, rec)
    }
}
