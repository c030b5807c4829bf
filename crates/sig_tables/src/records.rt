// The records of a table, one after the other.
ghost use Rattle.std.specs.Prelude.{◌≡◌, ◌<◌, ◌+◌, ◌++◌, ◌∷◌, ℕ, List, [], true, false, length, IfOk, IfErr};
ghost use Rattle.csv.specs.Records.{fields_of};
ghost use Rattle.sig_tables.specs.Records.{Row, table_rows, field, HasRead, IsOfMemory};

use crate::refusal::TableRefusal;
use csv::{ByteRecord, Error, ErrorKind, Reader, ReaderBuilder};
use std::alloc::Global;

/// A reader of records: the record that it read last, and that record's number from 1.
#[derive(Drop)]
pub struct Records<'a> {
    pub reader: Reader<&'a [u8]>,
    pub row: ByteRecord,
    pub number: u32,
}

impl<'a> Records<'a> {
    /// A reader that has read no record of the text.
    pub fn open(alloc: Global, text: &'a [u8]) -> Records<'a>
        ensures { HasRead result text.now [] }
    {
        let reader = ReaderBuilder::new()
            .has_headers(false)
            .flexible(true)
            .from_reader(alloc, text);
        Records {
            reader,
            row: ByteRecord::new(alloc),
            number: 0,
        }
    }

    /// Reads the next record; false where there is none. Only want of memory stops it: a record may have any number of
    /// fields, and bytes are read as they are. No table has 5000 records before the first that is refused.
    pub fn next(&mut self) -> Result<bool, TableRefusal>
        requires number { self.old.number < 5000 }
        requires read { (text : List ℕ) × (rows : List Row) × HasRead self.old text rows }
        ensures more { IfOk result (λ found. found ≡ true → (text : List ℕ) (rows : List Row) →
            HasRead self.old text rows → HasRead self.new text (rows ++ fields_of self.new.row ∷ [])) }
        ensures end { IfOk result (λ found. found ≡ false → (text : List ℕ) (rows : List Row) → HasRead self.old text rows →
            table_rows text ≡ rows) }
        ensures memory { IfErr result (λ e. e ≡ TableRefusal.Memory) }
    {
        match self.reader.read_byte_record(&mut self.row) {
            Ok(true) => {}
            Ok(false) => return Ok(false),
            Err(error) => return Err(refusal_of(error)),
        }
        self.number += 1;
        Ok(true)
    }
}

// The refusal by which an error of a reader of records of any length is told.
fn refusal_of(error: Error) -> TableRefusal
    requires { IsOfMemory error.kind }
    ensures { result ≡ TableRefusal.Memory }
{
    match error.into_kind() {
        ErrorKind::OutOfMemory | ErrorKind::Io(_) => TableRefusal::Memory,
        ErrorKind::UnequalLengths { .. }
        | ErrorKind::Utf8 { .. }
        | ErrorKind::Serialize(_)
        | ErrorKind::Deserialize { .. } => unreachable!(),
    }
}

/// The field at a place of a record.
pub fn field(row: &ByteRecord, place: usize) -> &[u8]
    requires { place < length (fields_of row.now) }
    ensures { result.now ≡ field (fields_of row.now) place }
{
    match row.get(place) {
        Some(bytes) => bytes,
        None => &[],
    }
}
