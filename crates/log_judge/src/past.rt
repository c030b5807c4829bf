// What is kept of a group's past.
ghost use Rattle.std.specs.Prelude.{◌≡◌};
ghost use Rattle.sig_types.specs.Words.{or_here as or_here_spec};
ghost use Rattle.log_judge.specs.Found.{last_end_with as last_end_with_spec, next_past as next_past_spec};

use crate::find::turns_green;
use sig_guard::{ends, is_on, same_aspect};
use sig_types::Aspect;

/// The first second of what a group shows, the first of those in which it has been red-amber or green without a break, and that of
/// its last end, where one is known; and how it began.
#[derive(Clone, Copy)]
pub(crate) struct GroupPast {
    pub since: u32,
    pub on_since: u32,
    pub last_end: Option<u32>,
    /// The first second in which the group no longer showed what it showed in second 0.
    pub over: Option<u32>,
    /// The first second in which it turned green.
    pub green: Option<u32>,
}

// A place that was found, or else this one where it is to be taken.
fn or_here(found: Option<u32>, here: bool, now: u32) -> Option<u32>
    ensures { result ≡ or_here_spec found here now }
{
    match found {
        Some(place) => Some(place),
        None => { if here { Some(now) } else { None } }
    }
}

/// The last end of a group that showed `was` and shows `is` in second `now`.
pub(crate) fn last_end_with(now: u32, was: Aspect, is: Aspect, ended: Option<u32>) -> Option<u32>
    ensures { result ≡ last_end_with_spec now was is ended }
{
    if ends(was, is) { Some(now) } else { ended }
}

/// What is kept of a group that showed `was` and shows `is` in second `now`.
pub(crate) fn next_past(past: GroupPast, was: Aspect, is: Aspect, now: u32) -> GroupPast
    ensures { result ≡ next_past_spec past was is now }
{
    GroupPast {
        since: if same_aspect(was, is) {
            past.since
        } else {
            now
        },
        on_since: if is_on(was) && is_on(is) {
            past.on_since
        } else {
            now
        },
        last_end: last_end_with(now, was, is, past.last_end),
        over: or_here(past.over, !same_aspect(was, is), now),
        green: or_here(past.green, turns_green(was, is), now),
    }
}
