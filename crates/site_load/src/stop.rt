// Why a site is not taken.

use pua_model::Plan;
use pua_reader::PuaWhy;
use sig_tables::TableWhy;

/// Why a file of a site is refused at a line.
#[derive(Drop)]
pub enum Reason {
    /// The PUA file.
    Pua(PuaWhy),
    /// A table, whose groups are those of this plan.
    Table(TableWhy, Plan),
}

/// Why a site is not taken. A file goes by its word, and its lines count from 1.
#[derive(Drop)]
pub enum SiteStop<'a> {
    /// Memory was wanted and could not be had.
    Memory,
    /// This file could not be read.
    ReadFault(&'a str),
    /// A file is not as it must be.
    Refused {
        word: &'a str,
        line: u32,
        reason: Reason,
    },
    /// This file has more than 1,048,576 bytes.
    TooLong(&'a str),
}
