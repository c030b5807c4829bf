// The entries of a record, one after another.
ghost use Rattle.std.specs.Prelude.{◌≡◌, ◌*◌, ◌≤◌, true, None, Err, IfOk, IfSome, is_ok};
ghost use Rattle.std.specs.Option.{ForNone, ForSome};
ghost use Rattle.sig_io.specs.Outside.{Rose};
ghost use Rattle.pua_model.specs.Plan.{groups_in};
ghost use Rattle.tenth_records.specs.Header.{IsCounted};
ghost use Rattle.tenth_records.specs.Names.{plan_of_names};
ghost use Rattle.tenth_records.specs.Unread.{bytes_given};

use crate::entry::{Entry, TenthStop, TenthWhy};
use crate::header::{plan_in, take_header};
use crate::line::{Point, after, entry_of};
use crate::lines::RecordLines;
use line_reader::LineRefusal;
use pua_model::Plan;
use sig_io::Files;
use sig_types::Memory;
use std::alloc::Global;

/// A reader of a record, behind one of its lines.
#[derive(Drop)]
pub struct TenthRecord {
    lines: RecordLines,
    groups: u8,
    count: u32,
    point: Point,
    live: bool,
    ghost groups_at_most: { groups ≤ 64 },
    ghost none_counted: { ForNone point.first (count ≤ 1) },
    ghost counted: { ForSome point.first (λ first. IsCounted count point.next first) },
    ghost given_at_most: { live ≡ true → bytes_given lines ≤ 262146 * count },
}

impl TenthRecord {
    ghost use Rattle.tenth_records.specs.Answers.{Follows, IsNext, IsOpened, first_of, groups_of, is_live, left_told, name_of, next_of};
    ghost use Rattle.tenth_records.specs.Answers.{Follows, IsNext, IsOpened, first_of, groups_of, is_live, left_told, name_of, next_of};

    /// A reader of that file behind its header, and a plan of the groups that the header names. It takes all the memory that
    /// reading needs.
    ///
    /// It answers `Fault` only where a read failed.
    #[tactic(auto, unfolding(crate::specs::Answers::name_of, crate::specs::Answers::is_live, crate::specs::Answers::groups_of, crate::specs::Answers::first_of, crate::specs::Answers::next_of))]
    pub fn open<F: Files>(
        alloc: Global,
        name: &str,
        files: &mut F,
    ) -> Result<(TenthRecord, Plan), TenthStop>
        ensures opened { ForSome (F.told files.old) (λ file. IsOpened (file name.now) result) }
        ensures live { IfOk result (λ r. is_live r.0 ≡ true) }
        ensures none { IfOk result (λ r. first_of r.0 ≡ None) }
        ensures start { IfOk result (λ r. next_of r.0 ≡ 0) }
        ensures groups { IfOk result (λ r. groups_of r.0 ≡ groups_in r.1) }
        ensures plan { IfOk result (λ r. r.1 ≡ plan_of_names r.1.names) }
        ensures name { IfOk result (λ r. name_of r.0 ≡ name.now) }
        ensures contents_stay { F.told files.new ≡ F.told files.old }
        ensures later { F.faults files.old ≤ F.faults files.new }
        ensures cause { result ≡ Err TenthStop.Fault → Rose (F.faults files.old) (F.faults files.new) }
    {
        let mut lines = match RecordLines::make(alloc, name) {
            Ok(lines) => lines,
            Err(Memory) => return Err(TenthStop::Memory),
        };
        take_header(&mut lines, files)?;
        let plan = plan_in(alloc, lines.line())?;
        let record = TenthRecord {
            lines,
            groups: plan.groups(),
            count: 1,
            point: Point {
                first: None,
                next: 0,
                ended: false,
            },
            live: true,
        };
        Ok((record, plan))
    }

    /// Reads the next entry; none behind the end, where no line may stand.
    ///
    /// It answers `Fault` only where a read failed. After a refusal the reader isn't live, and can't be asked again.
    #[tactic(auto, unfolding(crate::specs::Answers::name_of, crate::specs::Answers::is_live, crate::specs::Answers::groups_of, crate::specs::Answers::first_of, crate::specs::Answers::next_of))]
    pub fn next_entry<F: Files>(&mut self, files: &mut F) -> Result<Option<Entry>, TenthStop>
        requires { is_live self.old ≡ true }
        ensures next { ForSome (F.told files.old) (λ file.
            IsNext (left_told self.old (file (name_of self.old))) (left_told self.new (file (name_of self.old))) result) }
        ensures follows { IfOk result (λ found. IfSome found (λ e. Follows self.old self.new e)) }
        ensures groups { groups_of self.new ≡ groups_of self.old }
        ensures live { is_live self.new ≡ is_ok result }
        ensures name { name_of self.new ≡ name_of self.old }
        ensures contents_stay { F.told files.new ≡ F.told files.old }
        ensures later { F.faults files.old ≤ F.faults files.new }
        ensures cause { result ≡ Err TenthStop.Fault → Rose (F.faults files.old) (F.faults files.new) }
    {
        let line = self.count + 1;
        // It's live again once an entry was taken.
        self.live = false;
        match self.lines.next_line(files) {
            Ok(true) => {}
            Ok(false) if self.point.ended => {
                self.live = true;
                return Ok(None);
            }
            Ok(false) => {
                return Err(TenthStop::At {
                    line,
                    why: TenthWhy::MissingEnd,
                });
            }
            Err(LineRefusal::Fault) => return Err(TenthStop::Fault),
            Err(LineRefusal::TooLong) => {
                return Err(TenthStop::At {
                    line,
                    why: TenthWhy::LineTooLong,
                });
            }
        }
        match entry_of(self.groups, self.point, self.lines.line()) {
            Ok(entry) => {
                self.count = line;
                self.point = after(self.point, &entry);
                self.live = true;
                Ok(Some(entry))
            }
            Err(why) => Err(TenthStop::At { line, why }),
        }
    }
}
