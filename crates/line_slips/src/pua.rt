// Slips in a PUA file.
ghost use Rattle.std.specs.Prelude.{◌≡◌};
ghost use Rattle.line_slips.specs.PlanSlips.{again_slip, bare_again_slip, bare_row_slip, is_comment, is_key, is_one_word, is_two_words};
ghost use Rattle.line_slips.specs.PlanSlips.{row_slip, section_slip};

use crate::bytes::{begins, behind_word, has_blank, has_decimal, last_byte, trimmed};
use crate::slip::PlanSlip;
use sig_types::text::is_digit;

/// Of a line that is no section and no row of one.
#[tactic(auto, unfolding(crate::specs::PlanSlips::section_slip))]
pub fn section_slip(line: &[u8]) -> Option<PlanSlip>
    ensures { result ≡ section_slip line.now }
{
    let line = trimmed(line);
    if begins(line, b"PROGRAM") || begins(line, b"/*") {
        Some(PlanSlip::ProgramAsPlan)
    } else if begins(line, b"group,") || begins(line, b"from,") {
        Some(PlanSlip::TableAsPlan)
    } else {
        None
    }
}

// Whether a line begins as a comment of another language.
#[tactic(auto, unfolding(crate::specs::PlanSlips::is_comment))]
fn is_comment(line: &[u8]) -> bool
    ensures { result ≡ is_comment line.now }
{
    begins(line, b"//")
        || begins(line, b"/*")
        || begins(line, b"--")
        || begins(line, b"#")
        || begins(line, b";")
}

// Whether a line begins as one of the first three rows of an interstage.
#[tactic(auto, unfolding(crate::specs::PlanSlips::is_key))]
fn is_key(line: &[u8]) -> bool
    ensures { result ≡ is_key line.now }
{
    begins(line, b"length") || begins(line, b"from") || begins(line, b"to ")
}

// Whether a line is one word.
#[tactic(auto, unfolding(crate::specs::PlanSlips::is_one_word))]
fn is_one_word(line: &[u8]) -> bool
    ensures { result ≡ is_one_word line.now }
{
    !line.is_empty() && !has_blank(line)
}

// Whether a line is a word, blanks, and a word.
#[tactic(auto, unfolding(crate::specs::PlanSlips::is_two_words))]
fn is_two_words(line: &[u8]) -> bool
    ensures { result ≡ is_two_words line.now }
{
    is_one_word(trimmed(behind_word(line)))
}

// Of a row without a form of its section, without the blanks around it.
#[tactic(auto, unfolding(crate::specs::PlanSlips::bare_row_slip))]
fn bare_row_slip(line: &[u8]) -> Option<PlanSlip>
    ensures { result ≡ bare_row_slip line.now }
{
    if is_comment(line) {
        Some(PlanSlip::CommentSign)
    } else if has_decimal(line) {
        Some(PlanSlip::DecimalSeconds)
    } else if is_key(line) {
        Some(PlanSlip::SecondKey)
    } else if begins(line, b"red ") {
        Some(PlanSlip::RedRow)
    } else if is_two_words(line) && is_digit(last_byte(line)) {
        Some(PlanSlip::OneNumber)
    } else {
        None
    }
}

/// Of a row without a form of its section.
pub fn row_slip(line: &[u8]) -> Option<PlanSlip>
    ensures { result ≡ row_slip line.now }
{
    bare_row_slip(trimmed(line))
}

// Of a row with a name or a number that stands above, without the blanks around it.
#[tactic(auto, unfolding(crate::specs::PlanSlips::bare_again_slip))]
fn bare_again_slip(line: &[u8]) -> Option<PlanSlip>
    ensures { result ≡ bare_again_slip line.now }
{
    if is_one_word(line) {
        Some(PlanSlip::LoneStage)
    } else if is_digit(last_byte(line)) {
        Some(PlanSlip::GroupAgain)
    } else {
        None
    }
}

/// Of a row with a name or a number that stands above.
pub fn again_slip(line: &[u8]) -> Option<PlanSlip>
    ensures { result ≡ again_slip line.now }
{
    bare_again_slip(trimmed(line))
}
