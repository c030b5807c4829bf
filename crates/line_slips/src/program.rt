// Slips in the text of a program.
ghost use Rattle.std.specs.Prelude.{◌≡◌};
ghost use Rattle.line_slips.specs.ProgramSlips.{byte_slip, of_byte, of_read_byte};

use crate::comments::{Reading, after, is_inside, line_start};
use crate::slip::ByteSlip;

// What a byte that begins no token is likely to be.
fn of_byte(b: u8) -> Option<ByteSlip>
    ensures { result ≡ of_byte b }
{
    match b {
        b'!' => Some(ByteSlip::NotEqual),
        b'{' | b'}' => Some(ByteSlip::Braces),
        b'"' | b'\'' => Some(ByteSlip::Quotes),
        b'&' | b'|' => Some(ByteSlip::AndOr),
        b'$' => Some(ByteSlip::PlanAsProgram),
        _ if b > 127 => Some(ByteSlip::BeyondAscii),
        _ if b.is_ascii_control() && !b.is_ascii_whitespace() => Some(ByteSlip::ControlByte),
        _ => None,
    }
}

// The same of a byte outside comments; None of one in a comment.
#[tactic(auto, unfolding(crate::specs::ProgramSlips::of_read_byte))]
fn of_read_byte(at: Reading, b: u8) -> Option<ByteSlip>
    ensures { result ≡ of_read_byte at b }
{
    if is_inside(at) { None } else { of_byte(b) }
}

/// Of a line with a byte that begins no token: by its first byte outside comments that begins none. A comment may begin in an
/// earlier line, and one may end in a later one.
#[tactic(auto, unfolding(crate::specs::ProgramSlips::byte_slip))]
pub fn byte_slip(line: &[u8]) -> Option<ByteSlip>
    ensures { result ≡ byte_slip line.now }
{
    let mut at = line_start(line);
    for b in line {
        if let Some(slip) = of_read_byte(at, *b) {
            return Some(slip);
        }
        at = after(at, *b);
    }
    None
}
