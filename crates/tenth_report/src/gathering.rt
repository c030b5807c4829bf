// What came in a record, entry after entry, to its end.
ghost use Rattle.std.specs.Prelude.{◌≡◌, ℕ, ◌+◌, ◌<◌, ◌≤◌, true, List, ◌∷◌, None, Some, IfErr, IfOk, OnOk};
ghost use Rattle.std.specs.Option.{ForSome};
ghost use Rattle.sig_io.specs.Outside.{Rose};
ghost use Rattle.log_protocol.specs.Page.{groups_of as groups_on};
ghost use Rattle.tenth_records.specs.declared.entry.Entry.{Entry as EntryOf};
ghost use Rattle.tenth_records.specs.Answers.{IsSized, first_of, groups_of, is_live, left_told, name_of, next_of};
ghost use Rattle.tenth_records.specs.Record.{first_or};
ghost use Rattle.tenth_report.specs.Gaps.{HasGaps, gap_since};
ghost use Rattle.tenth_report.specs.Gathering.{HasCome, IsNew};
ghost use Rattle.tenth_report.specs.Pages.{Fits, HasRoom, HasTaken, IsOf};
ghost use Rattle.tenth_report.specs.Stops.{IsReadFault, IsRecordStop, IsWriteFault};

use crate::gaps::Gaps;
use crate::pages::Pages;
use crate::stop::{RecordStop, stop_of};
use log_judge::Extremes;
use log_protocol::Totals;
use report_words::JudgeStop;
use sig_io::Files;
use sig_types::Memory;
use std::alloc::Global;
use tenth_records::{Entry, TenthRecord};

/// What came in a record that was read to its end. Times are in tenths of a second.
#[derive(Drop)]
pub(crate) struct Gathered {
    /// What came in all its parts.
    pub(crate) totals: Totals,
    /// How many tenths these have.
    pub(crate) known: u32,
    /// The first time of the record.
    pub(crate) first: u32,
    /// The stretches of which nothing is known.
    pub(crate) unknown: Extremes,
}

/// What came in a record, behind some entry.
#[derive(Drop)]
pub(crate) struct Gathering {
    pages: Pages,
    // the first time
    begin: Option<u32>,
    gaps: Gaps,
}

impl Gathering {
    // Before the first entry of a record of this many groups.
    fn new(alloc: Global, groups: u8) -> Result<Gathering, Memory>
        requires { groups ≤ 64 }
        ensures { IfOk result (λ g. IsNew g groups) }
    {
        match Pages::new(alloc, groups) {
            Ok(pages) => Ok(Gathering {
                pages,
                begin: None,
                gaps: Gaps::new(),
            }),
            Err(memory) => Err(memory),
        }
    }

    // Takes an entry.
    fn take(&mut self, alloc: Global, entry: Entry) -> Result<(), Memory>
        requires of { IsOf self.old.pages (groups_on self.old.pages.page) }
        requires room { HasRoom self.old.pages entry.at }
        requires sized { IsSized (groups_on self.old.pages.page) entry.shown }
        ensures at { OnOk result (self.new.pages.at ≡ entry.at) }
        ensures groups { OnOk result (groups_on self.new.pages.page ≡ groups_on self.old.pages.page) }
        ensures of { OnOk result (IsOf self.new.pages (groups_on self.old.pages.page)) }
        ensures begin { OnOk result (self.new.begin ≡ Some (first_or self.old.begin entry.at)) }
        ensures since { OnOk result (self.new.gaps.since ≡ gap_since self.old.gaps.since entry.at entry.shown) }
        ensures fits { OnOk result ((begin : ℕ) → Fits self.old.pages begin → begin ≤ entry.at → entry.at ≤ begin + 6048000 → Fits self.new.pages begin) }
        ensures taken { OnOk result ((all rest : List EntryOf) → HasTaken self.old.pages all (entry ∷ rest) → HasTaken self.new.pages all rest) }
        ensures gaps { OnOk result ((all rest : List EntryOf) (most : ℕ) → HasGaps self.old.gaps all (entry ∷ rest) most → most ≤ entry.at →
            ForSome self.old.gaps.since (λ _. most < entry.at) → HasGaps self.new.gaps all rest entry.at) }
    {
        self.gaps.take(&entry);
        self.begin = Some(self.begin.unwrap_or(entry.at));
        match self.pages.take(alloc, entry) {
            Ok(()) => Ok(()),
            Err(memory) => Err(memory),
        }
    }

    // What was gathered.
    fn gathered(self) -> Gathered
        ensures { result ≡ record { totals = self.pages.totals; known = self.pages.known; first = first_or self.begin 0; unknown = self.gaps.came } }
    {
        let Gathering { pages, begin, gaps } = self;
        let (totals, known) = pages.totals();
        Gathered {
            totals,
            known,
            first: begin.unwrap_or(0),
            unknown: gaps.came,
        }
    }
}

// Reads entries up to the end of the record, and gathers what they show.
fn gather_within<'a, F: Files>(
    alloc: Global,
    record: &mut TenthRecord,
    gathering: &mut Gathering,
    word: &'a str,
    files: &mut F,
) -> Result<(), RecordStop<'a>>
    requires new { IsNew gathering.old (groups_of record.old) }
    requires live { is_live record.old ≡ true }
    requires none { first_of record.old ≡ None }
    requires start { next_of record.old ≡ 0 }
    requires name { name_of record.old ≡ word.now }
    ensures gathered { OnOk result (HasCome (groups_of record.old) (F.told files.old)
        (λ file. left_told record.old (file (name_of record.old)))
        (record { totals = gathering.new.pages.totals; known = gathering.new.pages.known; first = first_or gathering.new.begin 0; unknown = gathering.new.gaps.came })) }
    ensures stopped { ForSome (F.told files.old) (λ file.
        IfErr result (λ stop. IsRecordStop word.now (left_told record.old (file (name_of record.old))) stop)) }
    ensures contents_stay { F.told files.new ≡ F.told files.old }
    ensures later { F.faults files.old ≤ F.faults files.new }
    ensures read_fault { IsReadFault result → Rose (F.faults files.old) (F.faults files.new) }
    ensures no_write { IsWriteFault result → ⊥ }
{
    'entries: loop {
        match record.next_entry(files) {
            Ok(Some(entry)) => match gathering.take(alloc, entry) {
                Ok(()) => {}
                Err(_memory) => return Err(RecordStop::Judge(JudgeStop::Memory)),
            },
            Ok(None) => match gathering.pages.end_part(alloc) {
                Ok(()) => return Ok(()),
                Err(_memory) => return Err(RecordStop::Judge(JudgeStop::Memory)),
            },
            Err(stop) => return Err(stop_of(word, stop)),
        }
    }
}

/// What came in a record, which is read to its end. What was before each part isn't known.
///
/// It answers `ReadFault` only where a read failed.
pub(crate) fn gather_record<'a, F: Files>(
    alloc: Global,
    groups: u8,
    record: &mut TenthRecord,
    word: &'a str,
    files: &mut F,
) -> Result<Gathered, RecordStop<'a>>
    requires few { groups ≤ 64 }
    requires groups { groups_of record.old ≡ groups }
    requires live { is_live record.old ≡ true }
    requires none { first_of record.old ≡ None }
    requires start { next_of record.old ≡ 0 }
    requires name { name_of record.old ≡ word.now }
    ensures gathered { IfOk result (λ gathered. HasCome groups (F.told files.old)
        (λ file. left_told record.old (file (name_of record.old))) gathered) }
    ensures stopped { ForSome (F.told files.old) (λ file.
        IfErr result (λ stop. IsRecordStop word.now (left_told record.old (file (name_of record.old))) stop)) }
    ensures contents_stay { F.told files.new ≡ F.told files.old }
    ensures later { F.faults files.old ≤ F.faults files.new }
    ensures read_fault { IsReadFault result → Rose (F.faults files.old) (F.faults files.new) }
    ensures no_write { IsWriteFault result → ⊥ }
{
    let mut gathering = match Gathering::new(alloc, groups) {
        Ok(gathering) => gathering,
        Err(_memory) => return Err(RecordStop::Judge(JudgeStop::Memory)),
    };
    match gather_within(alloc, record, &mut gathering, word, files) {
        Ok(()) => Ok(gathering.gathered()),
        Err(stop) => Err(stop),
    }
}
