// The breaches of one group, or of a pair, in one second.
ghost use Rattle.std.specs.Prelude.{◌≡◌, ◌+◌, ◌≤◌, ◌&&◌, ◌||◌, not, max, Some, IfSome, is_some, if◌then◌else◌};
ghost use Rattle.std.specs.Option.{ForSome};
ghost use Rattle.sig_types.specs.FirstRefused.{when};
ghost use Rattle.sig_types.specs.Turns.{is_green};
ghost use Rattle.log_judge.specs.Breaches.{can_follow as can_follow_spec, red_amber_from as red_amber_from_spec, amber_from as amber_from_spec, green_from as green_from_spec, red_from as red_from_spec, short as short_spec, long as long_spec, other_time as other_time_spec, is_known as is_known_spec, no, too_soon as too_soon_spec, is_red_amber as is_red_amber_spec};

use crate::breach::Breach;
use sig_types::{Aspect, GroupNo};

/// What is asked of a log: whether it begins at rest, all groups red and each having just ended; and by how many seconds amber and
/// red-amber may differ from the table.
#[derive(Clone, Copy)]
pub struct Terms {
    pub rested: bool,
    pub tolerance: u32,
}

/// Whether an aspect may follow another, whatever the tables say.
pub(crate) fn can_follow(was: Aspect, is: Aspect) -> bool
    ensures { result ≡ can_follow_spec was is }
{
    match was {
        Aspect::Red => is != Aspect::Amber,
        Aspect::RedAmber => is == Aspect::RedAmber || is == Aspect::Green,
        Aspect::Green => is != Aspect::RedAmber,
        Aspect::Amber => is == Aspect::Amber || is == Aspect::Red,
    }
}

/// Whether it is red-amber.
pub(crate) fn is_red_amber(aspect: Aspect) -> bool
    ensures { result ≡ is_red_amber_spec aspect }
{
    aspect == Aspect::RedAmber
}

/// Whether a group turns green.
pub(crate) fn turns_green(was: Aspect, is: Aspect) -> bool
    ensures { result ≡ (not (is_green was) && is_green is) }
{
    was != Aspect::Green && is == Aspect::Green
}

/// The first second of the red-amber that is over in second `now`; none where none is. A group that goes from red to green had one
/// of no seconds.
pub(crate) fn red_amber_from(was: Aspect, is: Aspect, since: u32, now: u32) -> Option<u32>
    ensures { result ≡ red_amber_from_spec was is since now }
{
    match (was, is) {
        (Aspect::RedAmber, Aspect::RedAmber) => None,
        (Aspect::RedAmber, _) => Some(since),
        (Aspect::Red, Aspect::Green) => Some(now),
        _ => None,
    }
}

/// The first second of the amber that is over in second `now`. A group that goes from green to red had one of no seconds.
pub(crate) fn amber_from(was: Aspect, is: Aspect, since: u32, now: u32) -> Option<u32>
    ensures { result ≡ amber_from_spec was is since now }
{
    match (was, is) {
        (Aspect::Amber, Aspect::Amber) => None,
        (Aspect::Amber, _) => Some(since),
        (Aspect::Green, Aspect::Red) => Some(now),
        _ => None,
    }
}

/// The first second of the green that is over.
pub(crate) fn green_from(was: Aspect, is: Aspect, since: u32) -> Option<u32>
    ensures { result ≡ green_from_spec was is since }
{
    match (was, is) {
        (Aspect::Green, Aspect::Green) => None,
        (Aspect::Green, _) => Some(since),
        _ => None,
    }
}

/// The first second of the red that a start ends.
pub(crate) fn red_from(was: Aspect, is: Aspect, since: u32) -> Option<u32>
    ensures { result ≡ red_from_spec was is since }
{
    match (was, is) {
        (Aspect::Red, Aspect::RedAmber) => Some(since),
        (Aspect::Red, Aspect::Green) => Some(since),
        _ => None,
    }
}

/// Whether what began in this second, as far as the log shows it, did begin then.
pub(crate) fn is_known(terms: Terms, since: u32) -> bool
    ensures { result ≡ is_known_spec terms since }
{
    terms.rested || 0 < since
}

/// The breach of an aspect that lasted too short.
pub(crate) fn short(
    terms: Terms,
    group: u8,
    aspect: Aspect,
    now: u32,
    least: u32,
    from: Option<u32>,
) -> Option<Breach>
    requires from { ForSome from (λ s. s ≤ 6048002) }
    requires least { least ≤ 2550 }
    ensures { result ≡ short_spec terms group aspect now least from }
{
    match from {
        None => None,
        Some(since) => {
            if is_known(terms, since) && now < since + least {
                return Some(Breach::Short {
                    second: now,
                    group: GroupNo(group),
                    aspect,
                    since,
                    least,
                });
            }
            None
        }
    }
}

/// The breach of an aspect that lasted too long.
pub(crate) fn long(
    terms: Terms,
    group: u8,
    aspect: Aspect,
    now: u32,
    most: u32,
    from: Option<u32>,
) -> Option<Breach>
    requires from { ForSome from (λ s. s ≤ 6048002) }
    requires most { most ≤ 2550 }
    requires tolerance { terms.tolerance ≤ 90 }
    ensures { result ≡ long_spec terms group aspect now most from }
{
    match from {
        None => None,
        Some(since) => {
            if since + most + terms.tolerance < now {
                return Some(Breach::Long {
                    second: now,
                    group: GroupNo(group),
                    aspect,
                    since,
                    most,
                });
            }
            None
        }
    }
}

/// The breach of an aspect that lasted another time than its own, but for the tolerance.
pub(crate) fn other_time(
    terms: Terms,
    group: u8,
    aspect: Aspect,
    now: u32,
    time: u32,
    from: Option<u32>,
) -> Option<Breach>
    requires from { ForSome from (λ s. s ≤ 6048002) }
    requires now { now ≤ 6048002 }
    requires time { time ≤ 2550 }
    requires tolerance { terms.tolerance ≤ 90 }
    ensures { result ≡ other_time_spec terms group aspect now time from }
{
    match from {
        None => None,
        Some(since) => {
            if is_known(terms, since) && now + terms.tolerance < since + time {
                return Some(Breach::Short {
                    second: now,
                    group: GroupNo(group),
                    aspect,
                    since,
                    least: time,
                });
            }
            if since + time + terms.tolerance < now {
                return Some(Breach::Long {
                    second: now,
                    group: GroupNo(group),
                    aspect,
                    since,
                    most: time,
                });
            }
            None
        }
    }
}

/// The breach of a green that comes too soon after the last end of another group.
pub(crate) fn too_soon(
    group: u8,
    other: u8,
    now: u32,
    between: Option<u16>,
    ended: Option<u32>,
) -> Option<Breach>
    requires { ForSome ended (λ b. b ≤ 6048002) }
    ensures { result ≡ too_soon_spec group other now between ended }
{
    match between {
        None => None,
        Some(least) => match ended {
            None => None,
            Some(ended) => {
                if now < ended + u32::from(least) {
                    return Some(Breach::Intergreen {
                        second: now,
                        group: GroupNo(group),
                        other: GroupNo(other),
                        ended,
                        least: u32::from(least),
                    });
                }
                None
            }
        },
    }
}
