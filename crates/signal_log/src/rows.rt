// The beginning of a record, written byte by byte into the room of a buffer.
//
// Each piece is written at a place, behind what stands there, and the answer is where it ends.
ghost use Rattle.std.specs.Prelude.{◌≡◌, ◌+◌, ◌<◌, ◌≤◌, ◌++◌, ◌∷◌, [], codes, length, map, take};
ghost use Rattle.std.specs.Fmt.{decimal};
ghost use Rattle.signal_log.specs.Log.{place_text, head_text};
ghost use Rattle.sig_types.specs.LogForm.{letter};

use crate::words::letter;
use itoa::Buffer;
use sig_io::Piece;
use sig_types::{Aspect, Picture, Record, StagePlace};

// Writes a byte.
#[inline(always)]
fn put_byte(row: &mut [u8], at: usize, byte: u8) -> usize
    requires { at < length row.old }
    ensures end { result ≡ at + 1 }
    ensures written { take result row.new ≡ take at row.old ++ byte ∷ [] }
    ensures length { length row.new ≡ length row.old }
{
    row[at] = byte;
    at + 1
}

// Writes a number in decimal.
#[inline(always)]
fn put_number(row: &mut [u8], at: usize, n: u32) -> usize
    requires { at + 10 ≤ length row.old }
    ensures end { result ≤ at + 10 }
    ensures written { take result row.new ≡ take at row.old ++ decimal n }
    ensures length { length row.new ≡ length row.old }
{
    let mut buffer = Buffer::new();
    let digits = buffer.format(n).as_bytes();
    let end = at + digits.len();
    row[at..end].copy_from_slice(digits);
    end
}

// Writes the stage, or the interstage and its second.
#[inline(always)]
fn put_place(row: &mut [u8], at: usize, place: StagePlace) -> usize
    requires { at + 33 ≤ length row.old }
    ensures end { result ≤ at + 33 }
    ensures written { take result row.new ≡ take at row.old ++ place_text place }
    ensures length { length row.new ≡ length row.old }
{
    match place {
        StagePlace::NoPlan => put_byte(row, at, b'-'),
        StagePlace::Stage(stage) => {
            let at = put_byte(row, at, b'S');
            put_number(row, at, u32::from(stage.0))
        }
        StagePlace::Inter { from, to, t } => {
            let at = put_byte(row, at, b'I');
            let at = put_number(row, at, u32::from(from.0));
            let at = put_byte(row, at, b'-');
            let at = put_number(row, at, u32::from(to.0));
            let at = put_byte(row, at, b'+');
            put_number(row, at, u32::from(t))
        }
    }
}

// Writes bytes.
#[inline(always)]
fn put_piece(row: &mut [u8], at: usize, piece: &[u8])
    requires { at + length piece.now ≤ length row.old }
    ensures written { take (at + length piece.now) row.new ≡ take at row.old ++ piece.now }
    ensures length { length row.new ≡ length row.old }
{
    row[at..at + piece.len()].copy_from_slice(piece);
}

// The letters of the first sixteen places.
#[inline(always)]
fn first_letters(aspects: &[Aspect; 64]) -> [u8; 16]
    ensures { result ≡ map letter (take 16 aspects.now) }
{
    let mut letters = [0; 16];
    for place in 0..16usize {
        letters[place] = letter(aspects[place]);
    }
    letters
}

// Writes the letters of the first sixteen places at once, of which `n` are to stay.
#[inline(always)]
fn put_first_letters(row: &mut [u8], at: usize, aspects: &[Aspect; 64], n: usize)
    requires room { at + 16 ≤ length row.old }
    requires few { n ≤ 16 }
    ensures written { take (at + n) row.new ≡ take at row.old ++ map letter (take n aspects.now) }
    ensures length { length row.new ≡ length row.old }
{
    put_piece(row, at, &first_letters(aspects));
}

// Writes one letter for each group.
#[inline(always)]
fn put_letters(row: &mut [u8], at: usize, picture: &Picture) -> usize
    requires { at + 64 ≤ length row.old }
    ensures end { result ≤ at + 64 }
    ensures written { take result row.new ≡ take at row.old ++ map letter picture.now }
    ensures length { length row.new ≡ length row.old }
{
    let first = picture.len().min(16);
    put_first_letters(row, at, picture.places(), usize::from(first));
    let mut at = at + usize::from(first);
    for place in first..picture.len() {
        at = put_byte(row, at, letter(picture.get(place)));
    }
    at
}

// Writes the second, the stage and a letter for each group, each before a bar.
#[inline(always)]
fn put_head(row: &mut [u8], at: usize, rec: &Record) -> usize
    requires { at + 110 ≤ length row.old }
    ensures end { result ≤ at + 110 }
    ensures written { take result row.new ≡ take at row.old ++ head_text rec.now }
    ensures length { length row.new ≡ length row.old }
{
    let at = put_number(row, at, rec.second.0);
    let at = put_byte(row, at, b'|');
    let at = put_place(row, at, rec.place);
    let at = put_byte(row, at, b'|');
    let at = put_letters(row, at, &rec.picture);
    put_byte(row, at, b'|')
}

// Writes what follows in a record without counts, refusals and fault.
#[inline(always)]
fn put_quiet(row: &mut [u8], at: usize) -> usize
    requires { at + 6 ≤ length row.old }
    ensures end { result ≡ at + 6 }
    ensures written { take result row.new ≡ take at row.old ++ codes "-|-|-\n" }
    ensures length { length row.new ≡ length row.old }
{
    let at = put_byte(row, at, b'-');
    let at = put_byte(row, at, b'|');
    let at = put_byte(row, at, b'-');
    let at = put_byte(row, at, b'|');
    let at = put_byte(row, at, b'-');
    put_byte(row, at, b'\n')
}

/// The letters of a picture, one for each group.
#[derive(Clone, Copy)]
pub struct Letters<'a> {
    /// The picture.
    pub picture: &'a Picture,
}

impl<'a> Piece for Letters<'a> {
    ghost text = { λ l. map letter l.picture.now };

    fn write(&self, buffer: &mut [u8], at: usize) -> usize {
        put_letters(buffer, at, self.picture)
    }
}

/// The beginning of a record: the second, the stage and a letter for each group, each before a bar; and all that follows in a
/// quiet one.
#[derive(Clone, Copy)]
pub struct Beginning<'a> {
    /// The record.
    pub rec: &'a Record,
    /// Whether it has no counts, no refusals and no fault.
    pub quiet: bool,
}

impl<'a> Piece for Beginning<'a> {
    ghost use Rattle.signal_log.specs.Log.{beginning_text};

    ghost text = { λ f. beginning_text f.quiet f.rec.now };

    #[inline(always)]
    fn write(&self, buffer: &mut [u8], at: usize) -> usize {
        let at = put_head(buffer, at, self.rec);
        if self.quiet {
            put_quiet(buffer, at)
        } else {
            at
        }
    }
}
