// The reader of the table of intergreens.
ghost use Rattle.std.specs.Prelude.{◌≡◌, ◌≢◌, ◌+◌, ◌*◌, ◌++◌, ◌∷◌, ◌<◌, ◌≤◌, [], None, Some, ℕ, slice_index_or, slice_set, List, length, IfOk, IfErr, IfSome, Option, is_some, true};
ghost use Rattle.csv.specs.Records.{fields_of};
ghost use Rattle.sig_types.specs.FirstRefused.{first_refused};
ghost use Rattle.sig_types.specs.declared.numbers.GroupNo.{GroupNo};
ghost use Rattle.pua_model.specs.Plan.{PlanOf, groups_in};
ghost use Rattle.sig_tables.specs.Records.{Row};
ghost use Rattle.sig_tables.specs.Refusals.{IsRefusal, numbered};
ghost use Rattle.sig_tables.specs.IntergreenTable.{seconds_in, pair_in, intergreen_form, intergreen_reason, one_way_reason, intergreens_refusal, intergreen_of};
ghost use Rattle.sig_tables.specs.Pairs.{between, cell_of};
ghost use Rattle.sig_tables.specs.Held.{empties, IsPairOf, no_pair, HoldsPairs};

use crate::header::{Table, read_header};
use crate::intergreens::{Intergreens, place_of};
use crate::records::field;
use crate::refusal::{TableRefusal, TableWhy};
use csv::ByteRecord;
use pua_model::Plan;
use sig_types::GroupNo;
use sig_types::text::number;
use std::alloc::{AllocError, Global};

// A record of the table.
#[derive(Clone, Copy)]
struct Entry {
    from: GroupNo,
    to: GroupNo,
    seconds: u16,
}

// The seconds of a record, where they are a number in its range.
#[tactic(auto, unfolding(crate::specs::IntergreenTable::seconds_in))]
fn seconds_in(row: &ByteRecord) -> Option<u16>
    requires { length (fields_of row.now) ≡ 3 }
    ensures seconds { result ≡ seconds_in (fields_of row.now) }
    ensures at_most { IfSome result (λ z. z ≤ 99) }
{
    let seconds = number(field(row, 2), 0, 99)?;
    Some(seconds as u16)
}

// The groups of a record and its seconds.
#[tactic(auto, unfolding(crate::specs::IntergreenTable::intergreen_form, crate::specs::IntergreenTable::pair_in))]
fn entry_of(row: &ByteRecord, plan: &Plan) -> Result<Entry, TableWhy>
    ensures refused { IfErr result (λ why. intergreen_form plan.now (fields_of row.now) ≡ Some why) }
    ensures accepted { IfOk result (λ e. intergreen_form plan.now (fields_of row.now) ≡ None) }
    ensures pair { IfOk result (λ e. pair_in plan.now (fields_of row.now) ≡ Some (e.from.0, e.to.0)) }
    ensures from { IfOk result (λ e. e.from.0 < groups_in plan.now) }
    ensures to { IfOk result (λ e. e.to.0 < groups_in plan.now) }
    ensures seconds { IfOk result (λ e. seconds_in (fields_of row.now) ≡ Some e.seconds) }
    ensures at_most { IfOk result (λ e. e.seconds ≤ 99) }
{
    if row.len() != 3 {
        return Err(TableWhy::Fields);
    }
    let Some(seconds) = seconds_in(row) else {
        return Err(TableWhy::Number);
    };
    let Some(from) = plan.find_name(field(row, 0)) else {
        return Err(TableWhy::UnknownName);
    };
    let Some(to) = plan.find_name(field(row, 1)) else {
        return Err(TableWhy::UnknownName);
    };
    Ok(Entry { from, to, seconds })
}

// The entry of a record that is accepted after those whose seconds stand in the cells.
fn judge_entry(cells: &[Option<u16>], row: &ByteRecord, plan: &Plan) -> Result<Entry, TableWhy>
    requires size { length cells.now ≡ 4096 }
    requires at_most { groups_in plan.now ≤ 64 }
    ensures refused { IfErr result (λ why. (rows : List Row) (pairs : List (GroupNo × GroupNo)) →
        HoldsPairs plan.now rows cells.now pairs → intergreen_reason plan.now rows (fields_of row.now) ≡ Some why) }
    ensures accepted { IfOk result (λ e. (rows : List Row) (pairs : List (GroupNo × GroupNo)) →
        HoldsPairs plan.now rows cells.now pairs → intergreen_reason plan.now rows (fields_of row.now) ≡ None) }
    ensures pair { IfOk result (λ e. pair_in plan.now (fields_of row.now) ≡ Some (e.from.0, e.to.0)) }
    ensures from { IfOk result (λ e. e.from.0 < groups_in plan.now) }
    ensures to { IfOk result (λ e. e.to.0 < groups_in plan.now) }
    ensures other { IfOk result (λ e. e.from.0 ≢ e.to.0) }
    ensures free { IfOk result (λ e. slice_index_or cells.now (64 * e.from.0 + e.to.0) None ≡ None) }
    ensures seconds { IfOk result (λ e. seconds_in (fields_of row.now) ≡ Some e.seconds) }
    ensures seconds_at_most { IfOk result (λ e. e.seconds ≤ 99) }
{
    let entry = entry_of(row, plan)?;
    if cells[place_of(entry.from, entry.to)].is_some() {
        return Err(TableWhy::Twice);
    }
    if entry.from == entry.to {
        return Err(TableWhy::SelfConflict);
    }
    Ok(entry)
}

// The cells of the pairs read so far, and these pairs in the order of their records.
#[derive(Drop)]
struct Listed {
    cells: Vec<Option<u16>>,
    pairs: Vec<(GroupNo, GroupNo)>,
}

// `places` cells, all empty.
fn no_cells(alloc: Global, places: usize) -> Result<Vec<Option<u16>>, TableRefusal>
    ensures size { IfOk result (λ v. length v.items ≡ places) }
    ensures empty { IfOk result (λ v. (k : ℕ) → slice_index_or v.items k None ≡ None) }
    ensures empties { IfOk result (λ v. empties v.items ≡ places) }
    ensures memory { IfErr result (λ e. e ≡ TableRefusal.Memory) }
{
    let cells: Result<Vec<Option<u16>>, AllocError> = vec![in alloc; None; places];
    match cells {
        Ok(cells) => Ok(cells),
        Err(_) => Err(TableRefusal::Memory),
    }
}

impl Listed {
    // Takes one pair more.
    fn put(&mut self, entry: Entry) -> Result<(), TableRefusal>
        requires size { length self.old.cells.items ≡ 4096 }
        requires from { entry.from.0 < 64 }
        requires to { entry.to.0 < 64 }
        ensures cells { IfOk result (λ _. self.new.cells.items ≡
            slice_set self.old.cells.items (64 * entry.from.0 + entry.to.0) (Some entry.seconds)) }
        ensures pairs { IfOk result (λ _. self.new.pairs.items ≡ self.old.pairs.items ++ (entry.from, entry.to) ∷ []) }
        ensures memory { IfErr result (λ e. e ≡ TableRefusal.Memory) }
    {
        self.cells[place_of(entry.from, entry.to)] = Some(entry.seconds);
        if self.pairs.push((entry.from, entry.to)).is_err() {
            return Err(TableRefusal::Memory);
        }
        Ok(())
    }

    // Whether each pair is listed the other way too; the first that isn't is refused.
    fn judge_both_ways(&self) -> Result<(), TableRefusal>
        requires size { length self.now.cells.items ≡ 4096 }
        requires at_most { length self.now.pairs.items ≤ 4096 }
        requires inside { (k : ℕ) → k < length self.now.pairs.items →
            IsPairOf 64 (slice_index_or self.now.pairs.items k no_pair) }
        ensures refused { IfErr result (λ e. (plan : PlanOf) (rows : List Row) →
            HoldsPairs plan rows self.now.cells.items self.now.pairs.items →
            IsRefusal (first_refused (numbered (one_way_reason plan rows)) rows []) e) }
        ensures none { IfOk result (λ _. (plan : PlanOf) (rows : List Row) →
            HoldsPairs plan rows self.now.cells.items self.now.pairs.items →
            first_refused (numbered (one_way_reason plan rows)) rows [] ≡ None) }
        ensures both { IfOk result (λ _. (plan : PlanOf) (rows : List Row) →
            HoldsPairs plan rows self.now.cells.items self.now.pairs.items →
            (i g z : ℕ) → cell_of self.now.cells.items i g ≡ Some z → is_some (cell_of self.now.cells.items g i) ≡ true) }
    {
        for (k, pair) in self.pairs.iter().enumerate() {
            let (from, to) = *pair;
            if self.cells[place_of(to, from)].is_none() {
                return Err(TableRefusal::At {
                    line: k as u32 + 2,
                    why: TableWhy::OneWay(from, to),
                });
            }
        }
        Ok(())
    }
}

/// Reads the table of intergreens of a plan: the header `from`, `to`, `seconds`, then a record for each ordered pair of
/// groups that conflict, with the names of the clearing and the entering group and the seconds from the end of green of the
/// one to the start of green of the other, 0 to 99. Names have no case. Each pair is listed both ways, and none twice.
/// Records are those of comma-separated text with quotes; blank lines are none.
pub fn read_intergreens(
    alloc: Global,
    bytes: &[u8],
    plan: &Plan,
) -> Result<Intergreens, TableRefusal>
    ensures refused { IfErr result (λ e. IsRefusal (intergreens_refusal plan.now bytes.now) e) }
    ensures accepted { IfOk result (λ _. intergreens_refusal plan.now bytes.now ≡ None) }
    ensures groups { IfOk result (λ p. p.count ≡ groups_in plan.now) }
    ensures seconds { IfOk result (λ p. (i g : ℕ) → between p i g ≡ intergreen_of plan.now bytes.now i g) }
{
    let groups = plan.groups();
    let mut records = read_header(alloc, bytes, Table::Intergreens)?;
    let mut listed = Listed {
        cells: no_cells(alloc, 4096)?,
        pairs: Vec::new(alloc),
    };
    while records.next()? {
        match judge_entry(&listed.cells, &records.row, plan) {
            Ok(entry) => listed.put(entry)?,
            Err(why) => {
                return Err(TableRefusal::At {
                    line: records.number,
                    why,
                });
            }
        }
    }
    listed.judge_both_ways()?;
    Ok(Intergreens::of(groups, listed.cells))
}
