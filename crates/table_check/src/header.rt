// The headers of the tables.
ghost use Rattle.std.specs.Prelude.{◌≡◌};
ghost use Rattle.csv.specs.Records.{fields_of};
ghost use Rattle.sig_tables.specs.Records.{is_header as is_header_spec};
ghost use Rattle.table_check.specs.Refused.{headers_in};

use crate::rows::field;
use crate::table::Table;
use csv::ByteRecord;
use sig_types::text::same_name;

fn is_times_header(row: &ByteRecord) -> bool
    ensures { result ≡ is_header_spec (headers_in Table.Times) (fields_of row.now) }
{
    (row.len() == 4 || row.len() == 5 && same_name(field(row, 4), b"min_red"))
        && same_name(field(row, 0), b"group")
        && same_name(field(row, 1), b"min_green")
        && same_name(field(row, 2), b"red_amber")
        && same_name(field(row, 3), b"amber")
}

fn is_intergreens_header(row: &ByteRecord) -> bool
    ensures { result ≡ is_header_spec (headers_in Table.Intergreens) (fields_of row.now) }
{
    row.len() == 3
        && same_name(field(row, 0), b"from")
        && same_name(field(row, 1), b"to")
        && same_name(field(row, 2), b"seconds")
}

/// Whether a record is a header of the table.
pub(crate) fn is_header(table: Table, row: &ByteRecord) -> bool
    ensures { result ≡ is_header_spec (headers_in table) (fields_of row.now) }
{
    match table {
        Table::Times => is_times_header(row),
        Table::Intergreens => is_intergreens_header(row),
    }
}
