// How often something was refused, and for how long.
ghost use Rattle.std.specs.Prelude.{◌≡◌, ℕ, ◌==◌, ◌+◌, ◌≤◌, ◌&&◌, count_by, if◌then◌else◌};
ghost use Rattle.refusal_text.specs.Order.{AreInOrder};
ghost use Rattle.refusal_text.specs.Words.{second_of as second_of_spec};
ghost use Rattle.refusal_text.specs.Waits.{is_of, longest, runs, same_group, times};
ghost use Rattle.refusal_text.specs.Counted.{counted_with, Fits};

use crate::refusal::Refusal;
use crate::words::{group_of, rule_of, second_of};
use sig_types::{GroupNo, Rule};

// The runs of seconds up to the last one: the second after it, how many seconds the run has that it ends, how many runs there
// are, and the length of the longest one.
#[derive(Clone, Copy)]
struct Counted {
    next: u64,
    length: u64,
    runs: u64,
    longest: u64,
}

// Whether both are the same group, or none.
fn same_group(a: Option<GroupNo>, b: Option<GroupNo>) -> bool
    ensures { result ≡ same_group a b }
{
    match (a, b) {
        (None, None) => true,
        (None, Some(_)) => false,
        (Some(_), None) => false,
        (Some(a), Some(b)) => a.0 == b.0,
    }
}

// Whether a refusal is of a turn of this group, or of a stage command, by this rule.
fn is_of(refusal: &Refusal, group: Option<GroupNo>, rule: Rule) -> bool
    ensures { result ≡ is_of group rule refusal.now }
{
    rule_of(refusal).number() == rule.number() && same_group(group_of(refusal), group)
}

/// How often such a one came.
pub(crate) fn times(found: &[Refusal], group: Option<GroupNo>, rule: Rule) -> usize
    ensures { result ≡ times found.now group rule }
{
    found
        .iter()
        .filter(|refusal| is_of(refusal, group, rule))
        .count()
}

// With one more second, or with the last one again.
fn counted_with(count: Counted, second: u32) -> Counted
    requires { Fits count }
    ensures counted { result ≡ counted_with count second }
    ensures fits { Fits result }
{
    let second = u64::from(second);
    if second < count.next {
        return count;
    }
    let length = if second == count.next {
        count.length
    } else {
        0
    };
    Counted {
        next: second + 1,
        length: length + 1,
        runs: if length == 0 {
            count.runs + 1
        } else {
            count.runs
        },
        longest: count.longest.max(length + 1),
    }
}

// With a refusal, where it's such a one.
fn counted_by(count: Counted, refusal: &Refusal, group: Option<GroupNo>, rule: Rule) -> Counted
    requires { Fits count }
    ensures counted { result ≡ (if is_of group rule refusal.now then counted_with count (second_of_spec refusal.now) else count) }
    ensures fits { Fits result }
{
    if is_of(refusal, group, rule) {
        return counted_with(count, second_of(refusal));
    }
    count
}

/// In how many runs of seconds such refusals came, and the seconds of the longest one.
pub(crate) fn waits(found: &[Refusal], group: Option<GroupNo>, rule: Rule) -> (u64, u64)
    requires { AreInOrder found.now }
    ensures runs { result.0 ≡ runs found.now group rule }
    ensures longest { result.1 ≡ longest found.now group rule }
{
    let mut count = Counted {
        next: 0,
        length: 0,
        runs: 0,
        longest: 0,
    };
    for refusal in found {
        count = counted_by(count, refusal, group, rule);
    }
    (count.runs, count.longest)
}
