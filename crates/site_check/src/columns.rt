// The columns of every 256th byte of a text, found once, and from them those of all.
ghost use Rattle.std.specs.Prelude.{◌≡◌, ◌≤◌, ◌+◌, ◌<◌, ◌^◌, ◌==◌, length, take, IfOk, if◌then◌else◌};
ghost use Rattle.site_check.specs.Columns.{AreColumns};
ghost use Rattle.site_check.specs.Spots.{column_of};

use std::alloc::{AllocError, Global};

// From one column that is kept to the next one.
const STEP: usize = 256;

// The column behind a byte in this column.
fn column_after(column: usize, b: u8) -> usize
    requires { column < 2 ^ 63 }
    ensures { result ≡ (if b == 10 then 0 else column + 1) }
{
    if b == b'\n' { 0 } else { column + 1 }
}

// The column of a place, where an earlier place stands in this column.
#[tactic(auto, using(crate::proofs::ByteColumns::begun, crate::proofs::ByteColumns::one_more))]
fn column_from(text: &[u8], from: usize, known: usize, place: usize) -> usize
    requires order { from ≤ place }
    requires within { place ≤ length text.now }
    requires known { known ≡ column_of (take from text.now) }
    ensures column { result ≡ column_of (take place text.now) }
    ensures within { result ≤ place }
{
    let mut column = known;
    for i in from..place {
        column = column_after(column, text[i]);
    }
    column
}

/// The columns of every 256th byte of a text, its end too: how many bytes stand between the last line feed before it and it.
#[tactic(auto, using(crate::proofs::ByteColumns::none_kept, crate::proofs::ByteColumns::one_kept, crate::proofs::ByteColumns::all_kept))]
pub(crate) fn columns_in(alloc: Global, text: &[u8]) -> Result<Vec<usize>, AllocError>
    ensures { IfOk result (λ v. AreColumns text.now v.items) }
{
    let steps = text.len() / STEP;
    let mut columns = Vec::with_capacity(alloc, steps + 1)?;
    let mut column = 0;
    columns.push(column)?;
    for step in 0..steps {
        column = column_from(text, step * STEP, column, step * STEP + STEP);
        columns.push(column)?;
    }
    Ok(columns)
}

/// How many bytes stand between the last line feed before a place and the place.
#[tactic(auto, using(crate::proofs::ByteColumns::kept_at, crate::proofs::ByteColumns::cut_off))]
pub(crate) fn column_at(text: &[u8], columns: &[usize], place: usize) -> usize
    requires { AreColumns text.now columns.now }
    ensures column { result ≡ column_of (take place text.now) }
    ensures within { result ≤ length text.now }
{
    let place = place.min(text.len());
    let step = place / STEP;
    column_from(text, step * STEP, columns[step], place)
}
