// What a log with an unknown past hides at its beginning.
ghost use Rattle.std.specs.Prelude.{◌≡◌, ◌+◌, ◌≤◌};
ghost use Rattle.std.specs.Option.{ForSome};
ghost use Rattle.log_judge.specs.Opening.{is_amber as is_amber_spec, shown_first as shown_first_spec, left_of as left_of_spec, ended_before as ended_before_spec, lacks as lacks_spec, green_before as green_before_spec, green_behind as green_behind_spec, soon_after as soon_after_spec};

use crate::breach::Breach;
use sig_types::{Aspect, GroupNo};

/// How a group began: what it showed in second 0, when it first showed something else, when it first turned green, and when it will at
/// the latest where it is red-amber at the end.
#[derive(Clone, Copy)]
pub(crate) struct Opening {
    pub first: Aspect,
    pub over: Option<u32>,
    pub green: Option<u32>,
    pub due: Option<u32>,
}

/// The latest beginning of a green: a second, or so many seconds before second 0.
#[derive(Clone, Copy)]
pub(crate) struct Latest {
    pub second: u32,
    pub before: u32,
}

pub(crate) fn is_amber(aspect: Aspect) -> bool
    ensures { result ≡ is_amber_spec aspect }
{
    aspect == Aspect::Amber
}

// For how many seconds before this one a group showed what it showed first.
fn shown_first(over: Option<u32>, now: u32) -> u32
    ensures { result ≡ shown_first_spec over now }
{
    match over {
        None => now,
        Some(over) => over,
    }
}

fn left_of(most: u32, shown: u32) -> Option<u32>
    ensures { result ≡ left_of_spec most shown }
{
    if shown <= most {
        return Some(most - shown);
    }
    None
}

/// The seconds before second 0 in which a group ended at the earliest that was amber then.
pub(crate) fn ended_before(most: u32, opening: Opening, now: u32) -> Option<u32>
    ensures ended { result ≡ ended_before_spec most opening now }
    ensures at_most { ForSome result (λ b. b ≤ most) }
{
    if is_amber(opening.first) {
        return left_of(most, shown_first(opening.over, now));
    }
    None
}

// What a least time has more than what is shown of it.
fn lacks(least: u32, over: Option<u32>) -> u32
    ensures lacks { result ≡ lacks_spec least over }
    ensures at_most { result ≤ least }
{
    match over {
        None => 0,
        Some(over) => least.saturating_sub(over),
    }
}

/// The latest beginning of the green before second 0 of a group that is green or amber in it.
pub(crate) fn green_before(
    minimum: u32,
    amber: u32,
    over: Option<u32>,
    first: Aspect,
) -> Option<Latest>
    requires minimum { minimum ≤ 2550 }
    requires amber { amber ≤ 2550 }
    ensures green { result ≡ green_before_spec minimum amber over first }
    ensures second { ForSome result (λ x. x.second ≤ 0) }
    ensures before { ForSome result (λ x. x.before ≤ 5100) }
{
    match first {
        Aspect::Red | Aspect::RedAmber => None,
        Aspect::Green => Some(Latest {
            second: 0,
            before: lacks(minimum, over),
        }),
        Aspect::Amber => Some(Latest {
            second: 0,
            before: minimum.max(1) + lacks(amber, over),
        }),
    }
}

/// The first green that the log shows to begin, or the latest second of the one that is due.
pub(crate) fn green_behind(green: Option<u32>, due: Option<u32>) -> Option<Latest>
    requires green { ForSome green (λ t. t ≤ 6048002) }
    requires due { ForSome due (λ t. t ≤ 6050642) }
    ensures green { result ≡ green_behind_spec green due }
    ensures second { ForSome result (λ x. x.second ≤ 6050642) }
    ensures before { ForSome result (λ x. x.before ≤ 5100) }
{
    match (green, due) {
        (Some(second), _) => Some(Latest { second, before: 0 }),
        (None, Some(second)) => Some(Latest { second, before: 0 }),
        (None, None) => None,
    }
}

/// The breach of a green that comes too soon after an end so many seconds before second 0.
pub(crate) fn soon_after(
    group: u8,
    other: u8,
    least: u32,
    green: Option<Latest>,
    ended: Option<u32>,
) -> Option<Breach>
    requires second { ForSome green (λ x. x.second ≤ 6050642) }
    requires before { ForSome green (λ x. x.before ≤ 5100) }
    requires ended { ForSome ended (λ b. b ≤ 2640) }
    requires least { least ≤ 65535 }
    ensures { result ≡ soon_after_spec group other least green ended }
{
    match (green, ended) {
        (Some(latest), Some(ended)) => {
            if latest.second + ended < least + latest.before {
                return Some(Breach::Hidden {
                    second: latest.second,
                    group: GroupNo(group),
                    other: GroupNo(other),
                    ended,
                    before: latest.before,
                    least,
                });
            }
            None
        }
        _ => None,
    }
}
