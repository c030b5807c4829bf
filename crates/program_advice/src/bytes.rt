// The bytes of a text.
ghost use Rattle.std.specs.Prelude.{◌≡◌, ◌≤◌, ◌++◌, drop, take, take_while, reverse, length, OnOk};
ghost use Rattle.std.specs.Fmt.{decimal};
ghost use Rattle.std.specs.List.{prefix_len};
ghost use Rattle.program_advice.specs.Bytes.{between, blanks_before, blanks_behind, column_of, has_line_end, is_blank, is_shown_part, is_word_byte, line_of, run_behind, run_before, shown, shown_byte};

use itoa::Buffer;
use sig_types::text::{is_digit, is_letter};
use std::alloc::AllocError;

/// Puts bytes behind others.
pub(crate) fn put(text: &mut Vec<u8>, bytes: &[u8]) -> Result<(), AllocError>
    ensures { OnOk result (text.new.items ≡ text.old.items ++ bytes.now) }
{
    text.extend_from_slice(bytes)
}

// The byte that is shown in the place of a byte: a blank for a tab, and `?` for what is no printable ASCII.
fn shown_byte(b: u8) -> u8
    ensures { result ≡ shown_byte b }
{
    if b' ' <= b && b <= b'~' {
        b
    } else if b == b'\t' {
        b' '
    } else {
        b'?'
    }
}

/// Puts bytes as they can be shown.
pub fn put_shown(text: &mut Vec<u8>, bytes: &[u8]) -> Result<(), AllocError>
    ensures { OnOk result (text.new.items ≡ text.old.items ++ shown bytes.now) }
{
    for b in bytes {
        text.push(shown_byte(*b))?;
    }
    Ok(())
}

/// Puts a number in decimal.
pub(crate) fn put_number(text: &mut Vec<u8>, number: u32) -> Result<(), AllocError>
    ensures { OnOk result (text.new.items ≡ text.old.items ++ decimal number) }
{
    let mut digits = Buffer::new();
    put(text, digits.format(number).as_bytes())
}

/// The bytes of a text before a place, and from it on.
pub(crate) fn parted(text: &[u8], place: usize) -> (&[u8], &[u8])
    ensures before { result.0.now ≡ take place text.now }
    ensures rest { result.1.now ≡ drop place text.now }
{
    text.split_at(place.min(text.len()))
}

/// The bytes of a text from one place up to another.
pub(crate) fn between(text: &[u8], from: usize, to: usize) -> &[u8]
    ensures { result.now ≡ between text.now from to }
{
    let (before, _) = parted(text, to);
    let (_, rest) = parted(before, from);
    rest
}

// A letter, a digit or `_`.
fn is_word_byte(b: u8) -> bool
    ensures { result ≡ is_word_byte b }
{
    is_letter(b) || is_digit(b)
}

/// How many bytes of a word a text has at a place.
pub(crate) fn word_len(text: &[u8], place: usize) -> usize
    ensures { result ≡ prefix_len is_word_byte (drop place text.now) }
{
    let (_, rest) = parted(text, place);
    rest.iter().take_while(|b| is_word_byte(**b)).count()
}

// Neither a blank nor the end of a line.
fn is_shown_part(b: u8) -> bool
    ensures { result ≡ is_shown_part b }
{
    b != b' ' && b != b'\t' && b != b'\n' && b != b'\r'
}

// How many bytes a text ends with that have no blank between.
fn run_at_end(text: &[u8]) -> usize
    ensures { result ≡ length (take_while is_shown_part (reverse text.now)) }
{
    text.iter().rev().take_while(|b| is_shown_part(**b)).count()
}

/// How many bytes stand before a place with no blank between, 24 at most.
pub(crate) fn run_before(text: &[u8], place: usize) -> usize
    ensures { result ≡ run_before text.now place }
{
    let (before, _) = parted(text, place);
    run_at_end(before).min(24)
}

// How many bytes a text begins with that have no blank between.
fn run_at_beginning(text: &[u8]) -> usize
    ensures { result ≡ length (take_while is_shown_part text.now) }
{
    text.iter().take_while(|b| is_shown_part(**b)).count()
}

/// How many bytes stand from a place on with no blank between, 24 at most.
pub(crate) fn run_behind(text: &[u8], place: usize) -> usize
    ensures { result ≡ run_behind text.now place }
{
    let (_, rest) = parted(text, place);
    run_at_beginning(rest).min(24)
}

// A blank or a tab.
fn is_blank(b: u8) -> bool
    ensures { result ≡ is_blank b }
{
    b == b' ' || b == b'\t'
}

/// How many blanks stand before a place.
pub(crate) fn blanks_before(text: &[u8], place: usize) -> usize
    ensures { result ≡ blanks_before text.now place }
{
    let (before, _) = parted(text, place);
    before.iter().rev().take_while(|b| is_blank(**b)).count()
}

/// How many blanks stand from a place on.
pub(crate) fn blanks_behind(text: &[u8], place: usize) -> usize
    ensures { result ≡ blanks_behind text.now place }
{
    let (_, rest) = parted(text, place);
    rest.iter().take_while(|b| is_blank(**b)).count()
}

/// Whether a line ends in a text.
pub(crate) fn has_line_end(text: &[u8]) -> bool
    ensures { result ≡ has_line_end text.now }
{
    text.iter().any(|b| *b == b'\n')
}

/// The line of a place, from 1.
pub(crate) fn line_of(text: &[u8], place: usize) -> u32
    requires { length text.now ≤ 1048576 }
    ensures { result ≡ line_of text.now place }
{
    let (before, _) = parted(text, place);
    before.iter().filter(|b| **b == b'\n').count() as u32 + 1
}

/// How many bytes stand before a place in its line.
pub(crate) fn column_of(text: &[u8], place: usize) -> usize
    ensures { result ≡ column_of text.now place }
{
    let (before, _) = parted(text, place);
    before.iter().rev().take_while(|b| **b != b'\n').count()
}
