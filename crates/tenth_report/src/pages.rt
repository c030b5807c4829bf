// The pages of the parts of a record, of which each has an unknown past, put together.
ghost use Rattle.std.specs.Prelude.{◌≡◌, ℕ, ◌+◌, ◌-◌, ◌≤◌, ◌++◌, true, false, List, [], ◌∷◌, IfOk, OnOk, length, replicate, if◌then◌else◌};
ghost use Rattle.sig_types.specs.Turns.{History};
ghost use Rattle.log_protocol.specs.Page.{IsPageOf, groups_of as groups_on, seconds_of};
ghost use Rattle.tenth_records.specs.declared.entry.Entry.{Entry as EntryOf};
ghost use Rattle.tenth_records.specs.Answers.{IsSized};
ghost use Rattle.tenth_records.specs.Parts.{Part, is_known, parts_in, pictures_from, shown_then};
ghost use Rattle.tenth_report.specs.Pages.{AreNew, Fits, HasGathered, HasRoom, HasTaken, IsOf};

use crate::search::is_known;
use log_protocol::{Page, Totals};
use sig_types::{Memory, Picture};
use std::alloc::Global;
use tenth_records::{Entry, Shown};

/// The pages of the parts of a record, behind some entry.
#[derive(Drop)]
pub(crate) struct Pages {
    groups: u8,
    // what is shown, and from which time on
    shown: Shown,
    at: u32,
    // the parts that are over, and how many tenths were added
    totals: Totals,
    known: u32,
    // the first time of the part that isn't over, and its page
    first: u32,
    page: Page,
}

// Adds a picture that is shown in so many tenths.
fn add_stretch(page: &mut Page, picture: &Picture, tenths: u32)
    requires picture { length picture.now ≡ groups_on page.old }
    requires at_most { seconds_of page.old + tenths ≤ 6048002 }
    ensures groups { groups_on page.new ≡ groups_on page.old }
    ensures seconds { seconds_of page.new ≡ seconds_of page.old + tenths }
    ensures page { (h : History) → IsPageOf page.old h → IsPageOf page.new (h ++ replicate tenths picture.now) }
{
    'tenths: for tenth in 0..tenths {
        page.add(picture);
    }
}

impl Pages {
    /// Before the first entry of a record of this many groups. They take all the memory that they need up to the first cut.
    pub(crate) fn new(alloc: Global, groups: u8) -> Result<Pages, Memory>
        requires { groups ≤ 64 }
        ensures { IfOk result (λ p. AreNew p groups) }
    {
        let totals = match Totals::new(alloc) {
            Ok(totals) => totals,
            Err(memory) => return Err(memory),
        };
        match Page::new(alloc, groups) {
            Ok(page) => Ok(Pages {
                groups,
                shown: Shown::End,
                at: 0,
                totals,
                known: 0,
                first: 0,
                page,
            }),
            Err(memory) => Err(memory),
        }
    }

    // Takes what is shown up to this time.
    fn go_on(&mut self, to: u32)
        requires of { IsOf self.old (groups_on self.old.page) }
        requires room { HasRoom self.old to }
        ensures at { self.new.at ≡ to }
        ensures shown { self.new.shown ≡ self.old.shown }
        ensures groups { groups_on self.new.page ≡ groups_on self.old.page }
        ensures of { IsOf self.new (groups_on self.old.page) }
        ensures fits { (begin : ℕ) → Fits self.old begin → begin ≤ to → to ≤ begin + 6048000 → Fits self.new begin }
        ensures gathered { (all : List Part) (more : History) (rest : List Part) →
            HasGathered self.old all (shown_then (to - self.old.at) self.old.shown more) rest → HasGathered self.new all more rest }
    {
        let tenths = to - self.at;
        self.at = to;
        match &self.shown {
            Shown::Picture(picture) => {
                self.known += tenths;
                add_stretch(&mut self.page, picture, tenths);
            }
            Shown::Unknown => {}
            Shown::End => {}
        }
    }

    /// Ends the part, where one isn't over. Nothing is shown behind it.
    pub(crate) fn end_part(&mut self, alloc: Global) -> Result<(), Memory>
        requires of { IsOf self.old (groups_on self.old.page) }
        requires few { self.old.known ≤ 6048000 }
        requires inside { is_known self.old.shown ≡ true → self.old.first + seconds_of self.old.page ≡ self.old.at }
        ensures at { self.new.at ≡ self.old.at }
        ensures groups { OnOk result (groups_on self.new.page ≡ groups_on self.old.page) }
        ensures of { OnOk result (IsOf self.new (groups_on self.old.page)) }
        ensures closed { OnOk result (is_known self.new.shown ≡ false) }
        ensures fits { OnOk result ((begin : ℕ) → Fits self.old begin → Fits self.new begin) }
        ensures gathered { OnOk result ((all : List Part) (rest : List Part) →
            HasGathered self.old all [] rest → HasGathered self.new all [] rest) }
    {
        if !is_known(&self.shown) {
            return Ok(());
        }
        // no time is too high to be told: that is known where it is read
        let _to = self.at;
        self.totals.add(&self.page, self.first);
        self.shown = Shown::End;
        match Page::new(alloc, self.groups) {
            Ok(page) => {
                self.page = page;
                Ok(())
            }
            Err(memory) => Err(memory),
        }
    }

    // The first time of a part that has a picture from now on.
    fn begin(&self) -> u32
        ensures { result ≡ (if is_known self.now.shown then self.now.first else self.now.at) }
    {
        if is_known(&self.shown) {
            self.first
        } else {
            self.at
        }
    }

    // Goes on to what is shown from now on.
    fn turn(&mut self, alloc: Global, shown: Shown) -> Result<(), Memory>
        requires of { IsOf self.old (groups_on self.old.page) }
        requires few { self.old.known ≤ 6048000 }
        requires inside { is_known self.old.shown ≡ true → self.old.first + seconds_of self.old.page ≡ self.old.at }
        requires sized { IsSized (groups_on self.old.page) shown }
        ensures at { OnOk result (self.new.at ≡ self.old.at) }
        ensures groups { OnOk result (groups_on self.new.page ≡ groups_on self.old.page) }
        ensures of { OnOk result (IsOf self.new (groups_on self.old.page)) }
        ensures fits { OnOk result ((begin : ℕ) → Fits self.old begin → begin ≤ self.old.at → Fits self.new begin) }
        ensures gathered { OnOk result ((all : List Part) (es : List EntryOf) →
            HasGathered self.old all (pictures_from self.old.at shown es)
            (parts_in (is_known self.old.shown) (record { at = self.old.at; shown = shown } ∷ es)) →
            HasGathered self.new all (pictures_from self.new.at self.new.shown es) (parts_in (is_known self.new.shown) es)) }
    {
        if !is_known(&shown) {
            self.end_part(alloc)?;
            self.shown = shown;
            return Ok(());
        }
        self.first = self.begin();
        self.shown = shown;
        Ok(())
    }

    /// Takes an entry.
    pub(crate) fn take(&mut self, alloc: Global, entry: Entry) -> Result<(), Memory>
        requires of { IsOf self.old (groups_on self.old.page) }
        requires room { HasRoom self.old entry.at }
        requires sized { IsSized (groups_on self.old.page) entry.shown }
        ensures at { OnOk result (self.new.at ≡ entry.at) }
        ensures groups { OnOk result (groups_on self.new.page ≡ groups_on self.old.page) }
        ensures of { OnOk result (IsOf self.new (groups_on self.old.page)) }
        ensures fits { OnOk result ((begin : ℕ) → Fits self.old begin → begin ≤ entry.at → entry.at ≤ begin + 6048000 → Fits self.new begin) }
        ensures taken { OnOk result ((all rest : List EntryOf) → HasTaken self.old all (entry ∷ rest) → HasTaken self.new all rest) }
    {
        self.go_on(entry.at);
        match self.turn(alloc, entry.shown) {
            Ok(()) => Ok(()),
            Err(memory) => Err(memory),
        }
    }

    /// The totals of the parts that are over, and how many tenths they have.
    pub(crate) fn totals(self) -> (Totals, u32)
        ensures totals { result.0 ≡ self.totals }
        ensures known { result.1 ≡ self.known }
    {
        let Pages { totals, known, .. } = self;
        (totals, known)
    }
}
