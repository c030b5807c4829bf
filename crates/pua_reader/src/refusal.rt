// Why a PUA file is refused.
use sig_types::{GroupNo, ShortName};
use std::fmt;
use thiserror::Error;

/// The reasons to refuse a PUA file. Where several apply to a line, the first of this list stands.
#[derive(Drop)]
pub enum PuaWhy {
    /// A byte that is no printable ASCII and no tab, outside comments.
    NotText,
    /// A section line out of order, a row before the first section, or a file without groups or without stages.
    Section,
    /// A row without a form of its section, a key that is given twice or is missing, a second row of the start, or a `red`
    /// row that names a green group or follows no stage row.
    Row,
    /// The name or the number of a group, or the name of a stage, is given again; or a group stands twice.
    NameTwice,
    /// No group or stage has that name or number.
    UnknownName,
    /// A number outside its range, or an interstage from a stage to itself.
    Range,
    /// A file without a starting stage.
    NoStart,
    /// An earlier interstage has the same stages.
    PairTwice,
    /// The interstage with this number, from 1, does not lead the group from its place in the one stage to that in the
    /// other; of these groups the first. The name is spelled as the groups have it.
    Inconsistent {
        inter: u16,
        group: GroupNo,
        name: ShortName,
    },
    /// The 65th group, the 33rd stage or the 257th interstage.
    Limit,
}

impl fmt::Debug for PuaWhy {
    fn fmt<W: fmt::Write>(&self, f: &mut fmt::Formatter<W>) -> fmt::Result {
        f.write_str(match self {
            PuaWhy::NotText => "NotText",
            PuaWhy::Section => "Section",
            PuaWhy::Row => "Row",
            PuaWhy::NameTwice => "NameTwice",
            PuaWhy::UnknownName => "UnknownName",
            PuaWhy::Range => "Range",
            PuaWhy::NoStart => "NoStart",
            PuaWhy::PairTwice => "PairTwice",
            PuaWhy::Inconsistent { .. } => "Inconsistent",
            PuaWhy::Limit => "Limit",
        })
    }
}

/// A file that was not read.
#[derive(Debug, Drop, Error)]
pub enum PuaRefusal {
    /// Memory was wanted and could not be had.
    #[error("out of memory")]
    Memory,
    /// The file is refused at a line, counted from 1. Line 0 is the whole file.
    #[error("the plan is refused")]
    At { line: u32, why: PuaWhy },
}

/// What stops a row: no memory, or the reason to refuse it.
#[derive(Drop)]
pub(crate) enum RowStop {
    Memory,
    Why(PuaWhy),
}
