// The fields of a record, and where they stand in it.
ghost use Rattle.std.specs.Prelude.{◌≡◌, ◌≤◌, ◌+◌, IfSome, length, slice_get};
ghost use Rattle.sig_tables.specs.Records.{field};
ghost use Rattle.table_check.specs.Fields.{bare, ends_field, fields_in, fields_span, has_feed, is_quoted, marked, spans_of};

use crate::lines::{part_of, quoted_after};

// Whether a field ends at this byte, where the bytes before it end between quotes or not.
fn ends_field(quoted: bool, b: u8) -> bool
    ensures { result ≡ ends_field quoted b }
{
    b == b',' && !quoted
}

// Where the field at a place of a record begins and ends, from place 0; None where there is none.
fn span_of(row: &[u8], place: usize) -> Option<(usize, usize)>
    ensures span { result ≡ slice_get (spans_of row.now) place }
    ensures within { IfSome result (λ s. (s.0 ≤ length row.now) × (s.1 ≤ length row.now)) }
{
    let mut from = 0usize;
    let mut left = place;
    let mut quoted = false;
    for (i, b) in row.iter().enumerate() {
        if ends_field(quoted, *b) {
            if left == 0 {
                return Some((from, i));
            }
            left -= 1;
            from = i + 1;
        }
        quoted = quoted_after(quoted, *b);
    }
    if left == 0 {
        Some((from, row.len()))
    } else {
        None
    }
}

// Whether a field has quotes around it.
fn is_quoted(field: &[u8]) -> bool
    ensures { result ≡ is_quoted field.now }
{
    2 <= field.len() && field[0] == b'"' && field[field.len() - 1] == b'"'
}

// A field without the quotes around it.
fn bare(field: &[u8]) -> &[u8]
    ensures { result.now ≡ bare field.now }
{
    if is_quoted(field) {
        &field[1..field.len() - 1]
    } else {
        field
    }
}

/// The field at a place of a record, from 0, without the quotes around it; no bytes where there is none.
pub fn field(row: &[u8], place: usize) -> &[u8]
    ensures { result.now ≡ field (fields_in row.now) place }
{
    match span_of(row, place) {
        Some((from, to)) => bare(part_of(row, from, to)),
        None => &[],
    }
}

// Whether a line ends among these bytes.
fn has_feed(bytes: &[u8]) -> bool
    ensures { result ≡ has_feed bytes.now }
{
    bytes.iter().any(|b| *b == b'\n')
}

// What is marked from one place of a record up to another: at least a byte, and nothing where a line ends before it.
fn marked(row: &[u8], from: usize, to: usize) -> (usize, usize)
    requires { (from ≤ length row.now) × (to ≤ length row.now) }
    ensures marked { result ≡ marked row.now from to }
    ensures within { (result.0 ≤ length row.now) × (result.1 ≤ length row.now + 1) }
{
    if has_feed(part_of(row, 0, to)) {
        (0, 0)
    } else {
        (from, to.max(from + 1))
    }
}

/// From which byte of a record up to which one two of its fields stand with all between them, an empty one as a byte; from 0 to 0
/// where one of them isn't there, or a line ends before the last one does.
pub fn fields_span(row: &[u8], first: usize, last: usize) -> (usize, usize)
    ensures span { result ≡ fields_span row.now first last }
    ensures within { (result.0 ≤ length row.now) × (result.1 ≤ length row.now + 1) }
{
    match (span_of(row, first), span_of(row, last)) {
        (Some((from, _)), Some((_, to))) => marked(row, from, to),
        (Some(_), None) | (None, _) => (0, 0),
    }
}
