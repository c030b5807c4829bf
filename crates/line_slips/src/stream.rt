// Slips in a detector file.
ghost use Rattle.std.specs.Prelude.{◌≡◌};
ghost use Rattle.std.specs.Char.{is_ascii_alphabetic};
ghost use Rattle.std.specs.List.{list_any, slice_split};
ghost use Rattle.line_slips.specs.Bytes.{is_blank};
ghost use Rattle.line_slips.specs.EntrySlips.{entry_slip, is_pair};

use crate::bytes::{has_two_spaces, is_blank, last_byte};
use crate::slip::EntrySlip;

// Whether an entry is two numbers.
fn is_pair(entry: &[u8]) -> bool
    ensures { result ≡ is_pair entry.now }
{
    entry.iter().filter(|b| **b == b':').count() == 1
}

// Whether a line has an entry of two numbers.
fn has_pair(line: &[u8]) -> bool
    ensures { result ≡ list_any is_pair (slice_split is_blank line.now) }
{
    line.split(|b| is_blank(*b)).any(|entry| is_pair(entry))
}

// Whether a line has a letter.
fn has_letter(line: &[u8]) -> bool
    ensures { result ≡ list_any is_ascii_alphabetic line.now }
{
    line.iter().any(|b| b.is_ascii_alphabetic())
}

/// Of a line with an entry that isn't three numbers.
#[tactic(auto, unfolding(crate::specs::EntrySlips::entry_slip))]
pub fn entry_slip(line: &[u8]) -> Option<EntrySlip>
    ensures { result ≡ entry_slip line.now }
{
    if has_letter(line) {
        Some(EntrySlip::Headings)
    } else if line.contains(&b',') && !line.contains(&b':') {
        Some(EntrySlip::Commas)
    } else if has_two_spaces(line) {
        Some(EntrySlip::TwoBlanks)
    } else if last_byte(line) == b' ' {
        Some(EntrySlip::BlankAtEnd)
    } else if has_pair(line) {
        Some(EntrySlip::TwoNumbers)
    } else {
        None
    }
}
