// Numbers of seconds with at most one decimal.
ghost use Rattle.std.specs.Prelude.{◌≡◌, ◌≤◌, IfSome};
ghost use Rattle.sig_types.specs.Text.{within};
ghost use Rattle.sig_tables.specs.Amounts.{pointed, tenths_of, whole_with};

use sig_types::text::{cut_at, is_digit, number};

// The most whole seconds of a number.
const MOST: u32 = 99_999_999;

// The tenths of whole seconds and a digit.
fn whole_with(whole: &[u8], digit: u8) -> Option<u32>
    requires digit { digit ≤ 57 }
    requires from { 48 ≤ digit }
    ensures tenths { result ≡ whole_with whole.now digit }
    ensures at_most { IfSome result (λ n. n ≤ 999999999) }
{
    match number(whole, 0, MOST) {
        Some(n) => Some(10 * n + u32::from(digit - b'0')),
        None => None,
    }
}

// The tenths of whole seconds and what stands behind their point.
fn pointed(whole: &[u8], rest: &[u8]) -> Option<u32>
    ensures tenths { result ≡ pointed whole.now rest.now }
    ensures at_most { IfSome result (λ n. n ≤ 999999999) }
{
    match rest {
        [digit] => {
            if is_digit(*digit) {
                whole_with(whole, *digit)
            } else {
                None
            }
        }
        _ => None,
    }
}

/// The tenths of a number of seconds, `4` or `4.5`, of at most eight digits before its point.
#[tactic(auto, unfolding(crate::specs::Amounts::tenths_of))]
pub fn tenths(text: &[u8]) -> Option<u32>
    ensures tenths { result ≡ tenths_of text.now }
    ensures at_most { IfSome result (λ n. n ≤ 999999999) }
{
    match cut_at(b'.', text) {
        Some((whole, rest)) => pointed(whole, rest),
        None => whole_with(text, b'0'),
    }
}

/// The tenths of a number, where they are from the least to the most.
pub fn amount(text: &[u8], least: u16, most: u16) -> Option<u16>
    ensures tenths { result ≡ within least most (tenths_of text.now) }
    ensures range { IfSome result (λ n. (least ≤ n) × (n ≤ most)) }
{
    match tenths(text) {
        Some(n) => {
            if u32::from(least) <= n && n <= u32::from(most) {
                Some(n as u16)
            } else {
                None
            }
        }
        None => None,
    }
}
