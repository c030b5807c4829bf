// Which groups, or pairs of groups, the records name that were read: a place for each.
ghost use Rattle.std.specs.Prelude.{◌≡◌, ◌<◌, IfSome, length};
ghost use Rattle.csv.specs.Records.{fields_of};
ghost use Rattle.pua_model.specs.Plan.{group_number};
ghost use Rattle.sig_tables.specs.IntergreenTable.{is_self as is_self_spec, pair_in, pair_with};
ghost use Rattle.table_check.specs.Seen.{IsInPlaces, is_seen, is_self_in, noted, pair_place, place_in};

use crate::rows::field;
use crate::table::Table;
use csv::ByteRecord;
use pua_model::Plan;
use sig_types::GroupNo;

// The place of a group.
fn group_place(group: Option<GroupNo>) -> Option<usize>
    ensures { result ≡ group_number group }
{
    match group {
        Some(group) => Some(group.0 as usize),
        None => None,
    }
}

// The place of a pair of groups.
fn pair_place(from: Option<GroupNo>, to: Option<GroupNo>) -> Option<usize>
    ensures { result ≡ pair_place (pair_with (group_number from) (group_number to)) }
{
    match (from, to) {
        (Some(from), Some(to)) => Some(64 * from.0 as usize + to.0 as usize),
        (Some(_), None) | (None, _) => None,
    }
}

// The place of the groups that a record of intergreens names.
#[tactic(auto, unfolding(sig_tables::specs::IntergreenTable::pair_in))]
fn place_of_pair(plan: &Plan, row: &ByteRecord) -> Option<usize>
    ensures place { result ≡ pair_place (pair_in plan.now (fields_of row.now)) }
    ensures within { IfSome (pair_in plan.now (fields_of row.now)) (λ p. (p.0 < 64) × (p.1 < 64)) }
{
    let _groups = plan.groups();
    let from = plan.find_name(field(row, 0));
    let to = plan.find_name(field(row, 1));
    pair_place(from, to)
}

// The place of the group that a record of times names.
fn place_of_group(plan: &Plan, row: &ByteRecord) -> Option<usize>
    ensures place { result ≡ place_in plan.now Table.Times (fields_of row.now) }
    ensures within { IsInPlaces plan.now Table.Times (fields_of row.now) }
{
    let _groups = plan.groups();
    group_place(plan.find_name(field(row, 0)))
}

/// The place of the group, or of the pair, that a record names.
pub(crate) fn place_in(plan: &Plan, table: Table, row: &ByteRecord) -> Option<usize>
    ensures place { result ≡ place_in plan.now table (fields_of row.now) }
    ensures within { IsInPlaces plan.now table (fields_of row.now) }
{
    match table {
        Table::Times => place_of_group(plan, row),
        Table::Intergreens => place_of_pair(plan, row),
    }
}

// Whether both groups are there and the same.
fn is_same(from: Option<GroupNo>, to: Option<GroupNo>) -> bool
    ensures { result ≡ is_self_spec (pair_with (group_number from) (group_number to)) }
{
    match (from, to) {
        (Some(from), Some(to)) => from == to,
        (Some(_), None) | (None, _) => false,
    }
}

/// Whether a record names a group with itself.
#[tactic(auto, unfolding(sig_tables::specs::IntergreenTable::pair_in))]
pub(crate) fn is_self(plan: &Plan, table: Table, row: &ByteRecord) -> bool
    ensures { result ≡ is_self_in plan.now table (fields_of row.now) }
{
    match table {
        Table::Times => false,
        Table::Intergreens => is_same(plan.find_name(field(row, 0)), plan.find_name(field(row, 1))),
    }
}

/// Notes a place, where there is one. Whether it was noted before.
pub(crate) fn note(seen: &mut [bool], place: Option<usize>) -> bool
    requires { IfSome place (λ k. k < length seen.old) }
    ensures again { result ≡ is_seen seen.old place }
    ensures seen { seen.new ≡ noted seen.old place }
{
    match place {
        Some(place) => {
            let again = seen[place];
            seen[place] = true;
            again
        }
        None => false,
    }
}
