// The breaches of what a record shows, entry after entry.
ghost use Rattle.std.specs.Prelude.{◌≡◌, ℕ, ◌+◌, ◌-◌, ◌≤◌, ◌++◌, true, false, List, [], ◌∷◌, OnOk, length, replicate, if◌then◌else◌};
ghost use Rattle.sig_types.specs.Turns.{History};
ghost use Rattle.log_judge.specs.declared.breach.Breach.{Breach as BreachOf};
ghost use Rattle.log_judge.specs.Breaches.{breaches};
ghost use Rattle.log_judge.specs.Stands.{groups_of, seconds_of, terms_of};
ghost use Rattle.tenth_records.specs.declared.entry.Entry.{Entry as EntryOf};
ghost use Rattle.tenth_records.specs.Answers.{IsSized};
ghost use Rattle.tenth_records.specs.Parts.{Part, is_known, parts_in, pictures_from, shown_then, unknown_in, unknown_to};
ghost use Rattle.tenth_report.specs.Search.{Fits, HasFound, HasRoom, HasTaken, IsFor, IsJudged, IsNew, rules_in, unknown_then};

use log_judge::{Breach, Judge};
use sig_tables::Limits;
use sig_types::{Memory, Picture};
use std::alloc::Global;
use tenth_records::{Entry, Shown};

/// A part of a record in which all is known, between its begin, its cuts and its end. Times are in tenths of a second.
#[derive(Clone, Copy)]
pub(crate) struct JudgedPart {
    /// The first time.
    pub(crate) first: u32,
    /// How many tenths it has.
    pub(crate) tenths: u32,
    /// How many breaches it has.
    pub(crate) count: usize,
}

/// The breaches of a record.
#[derive(Drop)]
pub(crate) struct Found {
    /// Those of all parts, one part after the other, with the places of their tenths in it.
    pub(crate) breaches: Vec<Breach>,
    /// The parts that are over.
    pub(crate) parts: Vec<JudgedPart>,
    /// How many tenths were judged.
    pub(crate) known: u32,
    /// Of how many tenths nothing is known.
    pub(crate) unknown: u32,
}

/// A search for the breaches of a record, behind some entry.
#[derive(Drop)]
pub(crate) struct Search {
    pub(crate) found: Found,
    // what is shown, and from which time on
    pub(crate) shown: Shown,
    pub(crate) at: u32,
    // the first time of the part that isn't over, and its judge
    pub(crate) first: u32,
    pub(crate) judge: Judge,
    // how many breaches the parts have that are over
    pub(crate) over: usize,
    pub(crate) tolerance: u32,
}

/// Whether a picture is shown.
pub(crate) fn is_known(shown: &Shown) -> bool
    ensures { result ≡ is_known shown.now }
{
    match shown {
        Shown::Picture(_) => true,
        Shown::Unknown => false,
        Shown::End => false,
    }
}

// Judges a picture that is shown in so many tenths.
fn judge_stretch(
    limits: &Limits<'_>,
    judge: &mut Judge,
    picture: &Picture,
    tenths: u32,
    out: &mut Vec<Breach>,
) -> Result<(), Memory>
    requires picture { length picture.now ≡ groups_of judge.old }
    requires times { length limits.now.times ≡ groups_of judge.old }
    requires pairs { limits.now.pairs.count ≡ groups_of judge.old }
    requires at_most { seconds_of judge.old + tenths ≤ 6048001 }
    ensures groups { groups_of judge.new ≡ groups_of judge.old }
    ensures terms { terms_of judge.new ≡ terms_of judge.old }
    ensures seconds { OnOk result (seconds_of judge.new ≡ seconds_of judge.old + tenths) }
    ensures judged { OnOk result ((before : List BreachOf) (h : History) →
        IsJudged (rules_in limits.now) (terms_of judge.old) before h judge.old out.old.items →
        IsJudged (rules_in limits.now) (terms_of judge.old) before (h ++ replicate tenths picture.now) judge.new out.new.items) }
{
    'tenths: for tenth in 0..tenths {
        judge.find(limits, picture, out)?;
        judge.show(picture);
    }
    Ok(())
}

// Puts what the end of a part leaves behind the breaches within it.
fn find_end(limits: &Limits<'_>, judge: &Judge, out: &mut Vec<Breach>) -> Result<(), Memory>
    requires times { length limits.now.times ≡ groups_of judge.now }
    requires pairs { limits.now.pairs.count ≡ groups_of judge.now }
    ensures { OnOk result ((before : List BreachOf) (h : History) →
        IsJudged (rules_in limits.now) (terms_of judge.now) before h judge.now out.old.items →
        out.new.items ≡ before ++ breaches (rules_in limits.now) (terms_of judge.now) h) }
{
    if judge.seconds() == 0 {
        return Ok(());
    }
    match judge.find_last(limits, out) {
        Ok(()) => Ok(()),
        Err(memory) => Err(memory),
    }
}

impl Search {
    /// Before the first entry of a record of this many groups, with this tolerance in tenths.
    pub(crate) fn new(alloc: Global, groups: u8, tolerance: u32) -> Search
        requires groups { groups ≤ 64 }
        requires tolerance { tolerance ≤ 90 }
        ensures { IsNew result groups tolerance }
    {
        Search {
            found: Found {
                breaches: Vec::new(alloc),
                parts: Vec::new(alloc),
                known: 0,
                unknown: 0,
            },
            shown: Shown::End,
            at: 0,
            first: 0,
            judge: Judge::new(groups, tolerance),
            over: 0,
            tolerance,
        }
    }

    // Takes what is shown up to this time.
    fn go_on(&mut self, limits: &Limits<'_>, to: u32) -> Result<(), Memory>
        requires tables { IsFor self.old limits.now }
        requires room { HasRoom self.old to }
        ensures at { OnOk result (self.new.at ≡ to) }
        ensures shown { self.new.shown ≡ self.old.shown }
        ensures tolerance { self.new.tolerance ≡ self.old.tolerance }
        ensures tables { OnOk result (IsFor self.new limits.now) }
        ensures fits { OnOk result ((begin : ℕ) → Fits self.old begin → begin ≤ to → to ≤ begin + 6048000 → Fits self.new begin) }
        ensures found { OnOk result ((all : List Part) (unknown : ℕ) (more : History) (rest : List Part) (to_come : ℕ) →
            HasFound (rules_in limits.now) self.old all unknown (shown_then (to - self.old.at) self.old.shown more) rest
            (unknown_then (to - self.old.at) self.old.shown to_come) →
            HasFound (rules_in limits.now) self.new all unknown more rest to_come) }
    {
        let tenths = to - self.at;
        self.at = to;
        match &self.shown {
            Shown::Picture(picture) => {
                self.found.known += tenths;
                judge_stretch(
                    limits,
                    &mut self.judge,
                    picture,
                    tenths,
                    &mut self.found.breaches,
                )
            }
            Shown::Unknown => {
                self.found.unknown += tenths;
                Ok(())
            }
            Shown::End => Ok(()),
        }
    }

    /// Ends the part, where one isn't over. Nothing is shown behind it.
    pub(crate) fn end_part(&mut self, limits: &Limits<'_>) -> Result<(), Memory>
        requires tables { IsFor self.old limits.now }
        ensures at { self.new.at ≡ self.old.at }
        ensures tolerance { self.new.tolerance ≡ self.old.tolerance }
        ensures closed { OnOk result (is_known self.new.shown ≡ false) }
        ensures tables { OnOk result (IsFor self.new limits.now) }
        ensures fits { OnOk result ((begin : ℕ) → Fits self.old begin → Fits self.new begin) }
        ensures found { OnOk result ((all : List Part) (unknown : ℕ) (rest : List Part) (to_come : ℕ) →
            HasFound (rules_in limits.now) self.old all unknown [] rest to_come →
            HasFound (rules_in limits.now) self.new all unknown [] rest to_come) }
    {
        if !is_known(&self.shown) {
            return Ok(());
        }
        find_end(limits, &self.judge, &mut self.found.breaches)?;
        let count = self.found.breaches.len();
        let part = JudgedPart {
            first: self.first,
            tenths: self.judge.seconds(),
            count: count.saturating_sub(self.over),
        };
        self.over = count;
        self.judge = Judge::new(limits.groups(), self.tolerance);
        self.shown = Shown::End;
        match self.found.parts.push(part) {
            Ok(()) => Ok(()),
            Err(_) => Err(Memory),
        }
    }

    // The first time of a part that has a picture from now on.
    fn begin(&self) -> u32
        ensures { result ≡ (if is_known self.now.shown then self.now.first else self.now.at) }
    {
        if is_known(&self.shown) {
            self.first
        } else {
            self.at
        }
    }

    // Goes on to what is shown from now on.
    fn turn(&mut self, limits: &Limits<'_>, shown: Shown) -> Result<(), Memory>
        requires tables { IsFor self.old limits.now }
        requires sized { IsSized (groups_of self.old.judge) shown }
        ensures at { OnOk result (self.new.at ≡ self.old.at) }
        ensures tolerance { self.new.tolerance ≡ self.old.tolerance }
        ensures tables { OnOk result (IsFor self.new limits.now) }
        ensures fits { OnOk result ((begin : ℕ) → Fits self.old begin → begin ≤ self.old.at → Fits self.new begin) }
        ensures found { OnOk result ((all : List Part) (unknown : ℕ) (es : List EntryOf) →
            HasFound (rules_in limits.now) self.old all unknown (pictures_from self.old.at shown es)
            (parts_in (is_known self.old.shown) (record { at = self.old.at; shown = shown } ∷ es))
            (unknown_in (record { at = self.old.at; shown = shown } ∷ es)) →
            HasFound (rules_in limits.now) self.new all unknown (pictures_from self.new.at self.new.shown es)
            (parts_in (is_known self.new.shown) es) (unknown_to self.new.at self.new.shown es + unknown_in es)) }
    {
        if !is_known(&shown) {
            self.end_part(limits)?;
            self.shown = shown;
            return Ok(());
        }
        self.first = self.begin();
        self.shown = shown;
        Ok(())
    }

    /// Takes an entry.
    pub(crate) fn take(&mut self, limits: &Limits<'_>, entry: Entry) -> Result<(), Memory>
        requires tables { IsFor self.old limits.now }
        requires room { HasRoom self.old entry.at }
        requires sized { IsSized (groups_of self.old.judge) entry.shown }
        ensures at { OnOk result (self.new.at ≡ entry.at) }
        ensures tolerance { self.new.tolerance ≡ self.old.tolerance }
        ensures tables { OnOk result (IsFor self.new limits.now) }
        ensures fits { OnOk result ((begin : ℕ) → Fits self.old begin → begin ≤ entry.at → entry.at ≤ begin + 6048000 → Fits self.new begin) }
        ensures taken { OnOk result ((all rest : List EntryOf) → HasTaken (rules_in limits.now) self.old all (entry ∷ rest) →
            HasTaken (rules_in limits.now) self.new all rest) }
    {
        self.go_on(limits, entry.at)?;
        match self.turn(limits, entry.shown) {
            Ok(()) => Ok(()),
            Err(memory) => Err(memory),
        }
    }

    /// What was found.
    pub(crate) fn found(self) -> Found
        ensures { result ≡ self.found }
    {
        let Search { found, .. } = self;
        found
    }
}
