// The records of a table, one after the other, without a bound.
ghost use Rattle.std.specs.Prelude.{◌≡◌, ◌++◌, ◌∷◌, ℕ, List, [], true, false, IfOk};
ghost use Rattle.csv.specs.Records.{fields_of};
ghost use Rattle.sig_tables.specs.Records.{IsOfMemory, Row, field, table_rows};
ghost use Rattle.table_check.specs.Read.{HasRead};

use csv::{ByteRecord, Error, ErrorKind, Reader, ReaderBuilder};
use std::alloc::{AllocError, Global};

/// A reader of records, with the one that it read last.
#[derive(Drop)]
pub struct Rows<'a> {
    pub reader: Reader<&'a [u8]>,
    pub row: ByteRecord,
}

impl<'a> Rows<'a> {
    /// A reader that has read no record of the text.
    pub fn open(alloc: Global, text: &'a [u8]) -> Rows<'a>
        ensures { HasRead result text.now [] }
    {
        let reader = ReaderBuilder::new()
            .has_headers(false)
            .flexible(true)
            .from_reader(alloc, text);
        Rows {
            reader,
            row: ByteRecord::new(alloc),
        }
    }

    /// Reads the next record; false where there is none. Only want of memory stops it.
    pub fn next(&mut self) -> Result<bool, AllocError>
        requires { (text : List ℕ) × (rows : List Row) × HasRead self.old text rows }
        ensures more { IfOk result (λ found. found ≡ true → (text : List ℕ) (rows : List Row) →
            HasRead self.old text rows → HasRead self.new text (rows ++ fields_of self.new.row ∷ [])) }
        ensures end { IfOk result (λ found. found ≡ false → (text : List ℕ) (rows : List Row) → HasRead self.old text rows →
            table_rows text ≡ rows) }
    {
        match self.reader.read_byte_record(&mut self.row) {
            Ok(found) => Ok(found),
            Err(error) => Err(memory_of(error)),
        }
    }
}

// An error of a reader of records of any length.
fn memory_of(error: Error) -> AllocError
    requires { IsOfMemory error.kind }
{
    match error.into_kind() {
        ErrorKind::OutOfMemory | ErrorKind::Io(_) => AllocError,
        ErrorKind::UnequalLengths { .. }
        | ErrorKind::Utf8 { .. }
        | ErrorKind::Serialize(_)
        | ErrorKind::Deserialize { .. } => unreachable!(),
    }
}

/// The field at a place of a record, from 0; no bytes where there is none.
pub fn field(row: &ByteRecord, place: usize) -> &[u8]
    ensures { result.now ≡ field (fields_of row.now) place }
{
    match row.get(place) {
        Some(bytes) => bytes,
        None => &[],
    }
}
