// The lines of a text, and the records of a table.
ghost use Rattle.std.specs.Prelude.{◌≡◌, ◌-◌, ◌+◌, ◌<◌, ◌^◌, ◌++◌, ◌∷◌, [], ℕ, List, drop, map, take, IfOk, OnOk};
ghost use Rattle.std.specs.Str.Lines.{strip_carriage_return};
ghost use Rattle.table_check.specs.Lines.{begin_after, begun_at, ends_line, ends_piece, filled, lines_of, numbered};
ghost use Rattle.table_check.specs.Lines.{quoted_after, record_begin, record_begins, records_of};

use std::alloc::{AllocError, Global};

/// The bytes of a text from one place up to another, as far as it has them.
pub fn part_of(text: &[u8], from: usize, to: usize) -> &[u8]
    ensures { result.now ≡ take (to - from) (drop from text.now) }
{
    let to = to.min(text.len());
    let from = from.min(to);
    &text[from..to]
}

// The line without a carriage return at its end.
fn without_return(line: &[u8]) -> &[u8]
    ensures { result.now ≡ strip_carriage_return line.now }
{
    match line {
        [before @ .., b'\r'] => before,
        _ => line,
    }
}

/// Line `wanted` of a text, from 1; no bytes where it has none.
pub fn line_of(text: &[u8], wanted: u32) -> &[u8]
    ensures { result.now ≡ numbered (lines_of text.now) wanted }
{
    if wanted == 0 {
        return &[];
    }
    let before = wanted as usize - 1;
    match text.split(|b| *b == b'\n').nth(before) {
        Some(line) => without_return(line),
        None => &[],
    }
}

/// All lines of a text, each once.
pub fn lines_in(alloc: Global, text: &[u8]) -> Result<Vec<&[u8]>, AllocError>
    ensures { IfOk result (λ v. map (λ l. l.now) v.items ≡ lines_of text.now) }
{
    let mut lines = Vec::new(alloc);
    for line in text.split(|b| *b == b'\n') {
        lines.push(without_return(line))?;
    }
    Ok(lines)
}

/// The piece with this number, from 1; no bytes where there is none.
pub fn piece_at<'a>(pieces: &[&'a [u8]], wanted: u32) -> &'a [u8]
    ensures { result.now ≡ numbered (map (λ p. p.now) pieces.now) wanted }
{
    if wanted == 0 {
        return &[];
    }
    match pieces.get(wanted as usize - 1) {
        Some(piece) => piece,
        None => &[],
    }
}

fn ends_line(b: u8) -> bool
    ensures { result ≡ ends_line b }
{
    b == b'\n' || b == b'\r'
}

/// Whether the bytes after this one stand between quotes.
pub(crate) fn quoted_after(quoted: bool, b: u8) -> bool
    ensures { result ≡ quoted_after quoted b }
{
    if b == b'"' { !quoted } else { quoted }
}

// Whether a piece of a table ends at this byte, where the bytes before it end between quotes or not.
fn ends_piece(quoted: bool, b: u8) -> bool
    ensures { result ≡ ends_piece quoted b }
{
    ends_line(b) && !quoted_after(quoted, b)
}

// Puts the bytes from one place up to another behind the pieces, where there are any.
fn put_piece<'a>(
    pieces: &mut Vec<&'a [u8]>,
    text: &'a [u8],
    from: usize,
    to: usize,
) -> Result<(), AllocError>
    ensures { OnOk result (map (λ p. p.now) pieces.new.items
        ≡ map (λ p. p.now) pieces.old.items ++ filled (take (to - from) (drop from text.now) ∷ [])) }
{
    let piece = part_of(text, from, to);
    if !piece.is_empty() {
        pieces.push(piece)?;
    }
    Ok(())
}

/// All records of a table: blank lines are none, and a line end between quotes ends none.
pub fn records_in(alloc: Global, text: &[u8]) -> Result<Vec<&[u8]>, AllocError>
    ensures { IfOk result (λ v. map (λ r. r.now) v.items ≡ records_of text.now) }
{
    let mut records = Vec::new(alloc);
    let mut from = 0usize;
    let mut quoted = false;
    for (i, b) in text.iter().enumerate() {
        if ends_piece(quoted, *b) {
            put_piece(&mut records, text, from, i)?;
            from = i + 1;
        }
        quoted = quoted_after(quoted, *b);
    }
    put_piece(&mut records, text, from, text.len())?;
    Ok(records)
}

/// Where a record begins: its line, from 1, and how many bytes of that line stand before it.
#[derive(Clone, Copy)]
pub struct Begin {
    pub line: usize,
    pub before: usize,
}

// Where the byte behind this one stands.
fn begin_after(at: Begin, b: u8) -> Begin
    requires line { at.line + 1 < 2 ^ 64 }
    requires before { at.before + 1 < 2 ^ 64 }
    ensures { result ≡ begin_after at b }
{
    if b == b'\n' {
        Begin {
            line: at.line + 1,
            before: 0,
        }
    } else {
        Begin {
            line: at.line,
            before: at.before + 1,
        }
    }
}

// Puts where a record begins that has begun.
fn put_begun(begins: &mut Vec<Begin>, begun: Option<Begin>) -> Result<(), AllocError>
    ensures { OnOk result (begins.new.items ≡ begins.old.items ++ begun_at begun) }
{
    if let Some(begin) = begun {
        begins.push(begin)?;
    }
    Ok(())
}

/// Where the records of a table begin.
pub fn record_begins(alloc: Global, text: &[u8]) -> Result<Vec<Begin>, AllocError>
    ensures { IfOk result (λ v. v.items ≡ record_begins text.now) }
{
    let mut begins = Vec::new(alloc);
    let mut begun = None;
    let mut at = Begin { line: 1, before: 0 };
    let mut quoted = false;
    for b in text {
        if ends_piece(quoted, *b) {
            put_begun(&mut begins, begun)?;
            begun = None;
        } else {
            begun = Some(begun.unwrap_or(at));
        }
        quoted = quoted_after(quoted, *b);
        at = begin_after(at, *b);
    }
    put_begun(&mut begins, begun)?;
    Ok(begins)
}

/// Where the record with this number begins; in line 0 where there is none.
#[tactic(auto, unfolding(crate::specs::Lines::record_begin))]
pub fn begin_of_record(begins: &[Begin], wanted: u32) -> Begin
    ensures { (text : List ℕ) → begins.now ≡ record_begins text → result ≡ record_begin text wanted }
{
    if wanted == 0 {
        return Begin { line: 0, before: 0 };
    }
    match begins.get(wanted as usize - 1) {
        Some(begin) => *begin,
        None => Begin { line: 0, before: 0 },
    }
}
