// The second that a line tells, and the first one of a log.
ghost use Rattle.std.specs.Prelude.{◌≡◌, ◌≤◌, ◌==◌, if◌then◌else◌, IfSome};
ghost use Rattle.log_read.specs.Seconds.{first_after, first_told, second_in};

use crate::begin::Begin;
use sig_types::text::{cut_at, number};

/// The last second with which a log can begin: the most that nine digits tell.
pub const LAST_BEGIN: u32 = 999_999_999;

// The second that a line tells before its first bar: a number from 1 on, of at most nine digits.
fn second_in(line: &[u8]) -> Option<u32>
    ensures second { result ≡ second_in line.now }
    ensures range { IfSome result (λ n. (1 ≤ n) × (n ≤ 999999999)) }
{
    let (text, _) = cut_at(b'|', line)?;
    number(text, 1, LAST_BEGIN)
}

// The first second of a log whose first record is this line; 1 where it tells none.
#[tactic(auto, unfolding(crate::specs::Seconds::first_told))]
fn first_told(line: &[u8]) -> u32
    ensures first { result ≡ first_told line.now }
    ensures at_most { result ≤ 999999999 }
{
    match second_in(line) {
        Some(second) => second,
        None => 1,
    }
}

/// The first second of a log of which so many lines were taken before this one: that of the first record, or the one that was kept.
#[inline(always)]
pub(crate) fn first_after(begin: Begin, lines: u32, first: u32, line: &[u8]) -> u32
    requires { first ≤ 999999999 }
    ensures first { result ≡ first_after begin lines first line.now }
    ensures at_most { result ≤ 999999999 }
{
    match begin {
        Begin::AtOne => first,
        Begin::Anywhere => { if lines == 1 { first_told(line) } else { first } }
    }
}
