// Why a table is refused.
use sig_types::GroupNo;
use thiserror::Error;

/// Why a table is refused. In one record the first of `Header`, `Fields`, `Number`, `UnknownName`, `Twice` and
/// `SelfConflict` that applies is given; `Missing` and `OneWay` are asked only where no record is refused.
#[derive(Clone, Copy, Debug)]
pub enum TableWhy {
    /// Record 1 is not the header of the table, or is not there.
    Header,
    /// A record has too many or too few fields.
    Fields,
    /// A field that is to be a number is no decimal number in its range.
    Number,
    /// A name is no group of the plan.
    UnknownName,
    /// The group, or the ordered pair of groups, stands in an earlier record.
    Twice,
    /// The table of times has no record of this group, the lowest such.
    Missing(GroupNo),
    /// The pair of these groups is listed, and not the other way round.
    OneWay(GroupNo, GroupNo),
    /// A record lists a group with itself.
    SelfConflict,
}

/// What is wrong with a table, and in which record: record 1 is the header, and 0 stands for the whole table.
#[derive(Clone, Copy, Debug, Drop, Error)]
pub enum TableRefusal {
    /// Memory was wanted and could not be had.
    #[error("out of memory")]
    Memory,
    /// The first record that is refused: `line` is its number among the records, of which a blank line is none.
    #[error("the table is refused at a record")]
    At { line: u32, why: TableWhy },
}
