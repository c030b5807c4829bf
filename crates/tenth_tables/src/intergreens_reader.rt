// The reader of the table of intergreens.
ghost use Rattle.std.specs.Prelude.{◌≡◌, ◌≢◌, ◌+◌, ◌*◌, ◌++◌, ◌∷◌, ◌<◌, ◌≤◌, [], None, Some, ℕ, slice_index_or, slice_set, List, length, IfOk, IfErr, IfSome, Option, is_some, true};
ghost use Rattle.csv.specs.Records.{fields_of};
ghost use Rattle.sig_types.specs.FirstRefused.{first_refused};
ghost use Rattle.sig_types.specs.declared.numbers.GroupNo.{GroupNo};
ghost use Rattle.pua_model.specs.Plan.{PlanOf, groups_in};
ghost use Rattle.sig_tables.specs.declared.header.Table.{Table};
ghost use Rattle.sig_tables.specs.Records.{Row, table_rows};
ghost use Rattle.sig_tables.specs.Refusals.{IsRefusal, numbered};
ghost use Rattle.sig_tables.specs.IntergreenTable.{pair_in};
ghost use Rattle.sig_tables.specs.Pairs.{between, cell_of};
ghost use Rattle.sig_tables.specs.Held.{empties, IsPairOf, no_pair};
ghost use Rattle.tenth_tables.specs.Intergreens.{tenths_in, intergreen_form, intergreen_reason, one_way_reason, intergreens_refused, intergreens_refusal, intergreen_of};
ghost use Rattle.tenth_tables.specs.Held.{HasHeader, HasPairs, HoldsNothing, HoldsPairs, ReadsPairs};

use crate::tables::{TenthIntergreens, place_of};
use csv::ByteRecord;
use pua_model::Plan;
use sig_tables::{Records, Table, TableRefusal, TableWhy, amount, field, read_header};
use sig_types::GroupNo;
use std::alloc::{AllocError, Global};

// A record of the table.
#[derive(Clone, Copy)]
struct Entry {
    from: GroupNo,
    to: GroupNo,
    tenths: u16,
}

// The tenths of a record, where they are a number in its range.
#[tactic(auto, unfolding(crate::specs::Intergreens::tenths_in))]
fn tenths_in(row: &ByteRecord) -> Option<u16>
    requires { length (fields_of row.now) ≡ 3 }
    ensures tenths { result ≡ tenths_in (fields_of row.now) }
    ensures at_most { IfSome result (λ z. z ≤ 990) }
{
    amount(field(row, 2), 0, 990)
}

// The groups of a record and its seconds.
#[tactic(auto, unfolding(crate::specs::Intergreens::intergreen_form, sig_tables::specs::IntergreenTable::pair_in))]
fn entry_of(row: &ByteRecord, plan: &Plan) -> Result<Entry, TableWhy>
    ensures refused { IfErr result (λ why. intergreen_form plan.now (fields_of row.now) ≡ Some why) }
    ensures accepted { IfOk result (λ e. intergreen_form plan.now (fields_of row.now) ≡ None) }
    ensures pair { IfOk result (λ e. pair_in plan.now (fields_of row.now) ≡ Some (e.from.0, e.to.0)) }
    ensures from { IfOk result (λ e. e.from.0 < groups_in plan.now) }
    ensures to { IfOk result (λ e. e.to.0 < groups_in plan.now) }
    ensures tenths { IfOk result (λ e. tenths_in (fields_of row.now) ≡ Some e.tenths) }
    ensures at_most { IfOk result (λ e. e.tenths ≤ 990) }
{
    if row.len() != 3 {
        return Err(TableWhy::Fields);
    }
    let Some(tenths) = tenths_in(row) else {
        return Err(TableWhy::Number);
    };
    let Some(from) = plan.find_name(field(row, 0)) else {
        return Err(TableWhy::UnknownName);
    };
    let Some(to) = plan.find_name(field(row, 1)) else {
        return Err(TableWhy::UnknownName);
    };
    Ok(Entry { from, to, tenths })
}

// The entry of a record that is accepted after those whose tenths stand in the cells.
fn judge_entry(cells: &[Option<u16>], row: &ByteRecord, plan: &Plan) -> Result<Entry, TableWhy>
    requires size { length cells.now ≡ 4096 }
    requires at_most { groups_in plan.now ≤ 64 }
    ensures refused { IfErr result (λ why. (rows : List Row) (pairs : List (GroupNo × GroupNo)) →
        HoldsPairs plan.now rows cells.now pairs → intergreen_reason plan.now rows (fields_of row.now) ≡ Some why) }
    ensures accepted { IfOk result (λ e. (rows : List Row) (pairs : List (GroupNo × GroupNo)) →
        HoldsPairs plan.now rows cells.now pairs → intergreen_reason plan.now rows (fields_of row.now) ≡ None) }
    ensures pair { IfOk result (λ e. pair_in plan.now (fields_of row.now) ≡ Some (e.from.0, e.to.0)) }
    ensures from { IfOk result (λ e. e.from.0 < groups_in plan.now) }
    ensures to { IfOk result (λ e. e.to.0 < groups_in plan.now) }
    ensures other { IfOk result (λ e. e.from.0 ≢ e.to.0) }
    ensures free { IfOk result (λ e. slice_index_or cells.now (64 * e.from.0 + e.to.0) None ≡ None) }
    ensures tenths { IfOk result (λ e. tenths_in (fields_of row.now) ≡ Some e.tenths) }
    ensures tenths_at_most { IfOk result (λ e. e.tenths ≤ 990) }
{
    let entry = entry_of(row, plan)?;
    if cells[place_of(entry.from, entry.to)].is_some() {
        return Err(TableWhy::Twice);
    }
    if entry.from == entry.to {
        return Err(TableWhy::SelfConflict);
    }
    Ok(entry)
}

// The cells of the pairs read so far, and these pairs in the order of their records.
#[derive(Drop)]
struct Listed {
    cells: Vec<Option<u16>>,
    pairs: Vec<(GroupNo, GroupNo)>,
}

// `places` cells, all empty.
fn no_cells(alloc: Global, places: usize) -> Result<Vec<Option<u16>>, TableRefusal>
    ensures size { IfOk result (λ v. length v.items ≡ places) }
    ensures empty { IfOk result (λ v. (k : ℕ) → slice_index_or v.items k None ≡ None) }
    ensures empties { IfOk result (λ v. empties v.items ≡ places) }
    ensures memory { IfErr result (λ e. e ≡ TableRefusal.Memory) }
{
    let cells: Result<Vec<Option<u16>>, AllocError> = vec![in alloc; None; places];
    match cells {
        Ok(cells) => Ok(cells),
        Err(_) => Err(TableRefusal::Memory),
    }
}

impl Listed {
    // No pair.
    fn none(alloc: Global) -> Result<Listed, TableRefusal>
        ensures none { IfOk result (λ l. HoldsNothing l.cells.items l.pairs.items) }
        ensures memory { IfErr result (λ e. e ≡ TableRefusal.Memory) }
    {
        Ok(Listed {
            cells: no_cells(alloc, 4096)?,
            pairs: Vec::new(alloc),
        })
    }

    // Takes one pair more.
    fn put(&mut self, entry: Entry) -> Result<(), TableRefusal>
        requires size { length self.old.cells.items ≡ 4096 }
        requires from { entry.from.0 < 64 }
        requires to { entry.to.0 < 64 }
        ensures cells { IfOk result (λ _. self.new.cells.items ≡
            slice_set self.old.cells.items (64 * entry.from.0 + entry.to.0) (Some entry.tenths)) }
        ensures pairs { IfOk result (λ _. self.new.pairs.items ≡ self.old.pairs.items ++ (entry.from, entry.to) ∷ []) }
        ensures memory { IfErr result (λ e. e ≡ TableRefusal.Memory) }
    {
        self.cells[place_of(entry.from, entry.to)] = Some(entry.tenths);
        if self.pairs.push((entry.from, entry.to)).is_err() {
            return Err(TableRefusal::Memory);
        }
        Ok(())
    }

    // Whether each pair is listed the other way too; the first that isn't is refused.
    fn judge_both_ways(&self) -> Result<(), TableRefusal>
        requires size { length self.now.cells.items ≡ 4096 }
        requires at_most { length self.now.pairs.items ≤ 4096 }
        requires inside { (k : ℕ) → k < length self.now.pairs.items →
            IsPairOf 64 (slice_index_or self.now.pairs.items k no_pair) }
        ensures refused { IfErr result (λ e. (plan : PlanOf) (rows : List Row) →
            HoldsPairs plan rows self.now.cells.items self.now.pairs.items →
            IsRefusal (first_refused (numbered (one_way_reason plan rows)) rows []) e) }
        ensures none { IfOk result (λ _. (plan : PlanOf) (rows : List Row) →
            HoldsPairs plan rows self.now.cells.items self.now.pairs.items →
            first_refused (numbered (one_way_reason plan rows)) rows [] ≡ None) }
        ensures both { IfOk result (λ _. (plan : PlanOf) (rows : List Row) →
            HoldsPairs plan rows self.now.cells.items self.now.pairs.items →
            (i g z : ℕ) → cell_of self.now.cells.items i g ≡ Some z → is_some (cell_of self.now.cells.items g i) ≡ true) }
    {
        for (k, pair) in self.pairs.iter().enumerate() {
            let (from, to) = *pair;
            if self.cells[place_of(to, from)].is_none() {
                return Err(TableRefusal::At {
                    line: k as u32 + 2,
                    why: TableWhy::OneWay(from, to),
                });
            }
        }
        Ok(())
    }
}

// Takes the pairs of all records behind the header. It owns nothing, so that it has nothing to free on its ways out.
fn take_pairs(
    listed: &mut Listed,
    records: &mut Records<'_>,
    plan: &Plan,
) -> Result<(), TableRefusal>
    requires begins { (text : List ℕ) × ReadsPairs plan.now text records.old listed.old.cells.items listed.old.pairs.items }
    requires at_least { 1 ≤ groups_in plan.now }
    requires at_most { groups_in plan.now ≤ 64 }
    ensures refused { IfErr result (λ e. (text : List ℕ) →
        ReadsPairs plan.now text records.old listed.old.cells.items listed.old.pairs.items →
        IsRefusal (intergreens_refused plan.now (table_rows text)) e) }
    ensures read { IfOk result (λ _. (text : List ℕ) →
        ReadsPairs plan.now text records.old listed.old.cells.items listed.old.pairs.items →
        HasPairs plan.now text listed.new.cells.items) }
{
    while records.next()? {
        match judge_entry(&listed.cells, &records.row, plan) {
            Ok(entry) => listed.put(entry)?,
            Err(why) => {
                return Err(TableRefusal::At {
                    line: records.number,
                    why,
                });
            }
        }
    }
    listed.judge_both_ways()
}

// Takes the pairs of a table, by a reader that has read the header.
fn pairs_by(listed: &mut Listed, records: &mut Records<'_>, plan: &Plan) -> Result<(), TableRefusal>
    requires begins { (text : List ℕ) × HasHeader Table.Intergreens records.old text }
    requires none { HoldsNothing listed.old.cells.items listed.old.pairs.items }
    ensures refused { IfErr result (λ e. (text : List ℕ) → HasHeader Table.Intergreens records.old text →
        IsRefusal (intergreens_refused plan.now (table_rows text)) e) }
    ensures read { IfOk result (λ _. (text : List ℕ) → HasHeader Table.Intergreens records.old text →
        HasPairs plan.now text listed.new.cells.items) }
{
    let groups = plan.groups();
    prove!(1 <= groups && groups <= 64);
    take_pairs(listed, records, plan)
}

// The cells of a table.
fn cells_in(alloc: Global, bytes: &[u8], plan: &Plan) -> Result<Vec<Option<u16>>, TableRefusal>
    ensures refused { IfErr result (λ e. IsRefusal (intergreens_refused plan.now (table_rows bytes.now)) e) }
    ensures cells { IfOk result (λ v. HasPairs plan.now bytes.now v.items) }
{
    let mut records = read_header(alloc, bytes, Table::Intergreens)?;
    let mut listed = Listed::none(alloc)?;
    pairs_by(&mut listed, &mut records, plan)?;
    Ok(listed.cells)
}

/// Reads a table of intergreens in tenths of a second. It is a table of intergreens of whole seconds, but that each number may
/// have one decimal behind a point; the range is that of whole seconds.
pub fn read_tenth_intergreens(
    alloc: Global,
    bytes: &[u8],
    plan: &Plan,
) -> Result<TenthIntergreens, TableRefusal>
    ensures refused { IfErr result (λ e. IsRefusal (intergreens_refusal plan.now bytes.now) e) }
    ensures accepted { IfOk result (λ _. intergreens_refusal plan.now bytes.now ≡ None) }
    ensures groups { IfOk result (λ p. p.count ≡ groups_in plan.now) }
    ensures tenths { IfOk result (λ p. (i g : ℕ) → between p i g ≡ intergreen_of plan.now bytes.now i g) }
{
    let cells = cells_in(alloc, bytes, plan)?;
    Ok(TenthIntergreens::of(plan.groups(), cells))
}
