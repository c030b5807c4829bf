// The seconds within which the groups of a site show what is wished of them.
ghost use Rattle.std.specs.Prelude.{◌≡◌, ◌<◌, ◌≤◌, length};
ghost use Rattle.sig_tables.specs.SiteRules.{rules_of};
ghost use Rattle.sig_response.specs.Bounds.{ends_within as ends_within_spec, red_within as red_within_spec, green_again_within as green_again_within_spec, free_within as free_within_spec, all_free_within as all_free_within_spec, green_within as green_within_spec, group_within as group_within_spec};
ghost use Rattle.sig_response.specs.Laws.{IsSite};

use sig_tables::{Intergreens, Times};
use sig_types::GroupNo;

// The number of groups. The tables are of one plan, and with both at hand they make a site for which the laws hold.
pub(crate) fn groups_of(times: &Times, intergreens: &Intergreens) -> u8
    requires { intergreens.now.count ≡ length times.now }
    ensures count { result ≡ length times.now }
    ensures at_least { 1 ≤ result }
    ensures site { IsSite (rules_of times.now intergreens.now) }
{
    times.groups().min(intergreens.groups())
}

// The seconds within which a group of which red is wished ends.
fn ends_within(times: &Times, intergreens: &Intergreens, g: u8) -> u32
    requires { g < length times.now }
    ensures seconds { result ≡ ends_within_spec (rules_of times.now intergreens.now) g }
    ensures at_most { result ≤ 264 }
{
    u32::from(times.red_amber(GroupNo(g))) + u32::from(times.min(GroupNo(g)))
}

// The seconds within which it is red.
pub(crate) fn red_within(times: &Times, intergreens: &Intergreens, g: u8) -> u32
    requires { g < length times.now }
    ensures seconds { result ≡ red_within_spec (rules_of times.now intergreens.now) g }
    ensures at_most { result ≤ 273 }
{
    ends_within(times, intergreens, g) + u32::from(times.amber(GroupNo(g)))
}

// The seconds within which a group that has just ended is green again.
pub(crate) fn green_again_within(times: &Times, intergreens: &Intergreens, g: u8) -> u32
    requires { g < length times.now }
    ensures seconds { result ≡ green_again_within_spec (rules_of times.now intergreens.now) g }
    ensures at_most { result ≤ 273 }
{
    u32::from(times.amber(GroupNo(g)))
        + u32::from(times.min_red(GroupNo(g)))
        + u32::from(times.red_amber(GroupNo(g)))
}

// The seconds within which group `other` leaves the way free to a green of group `g`.
pub(crate) fn free_within(times: &Times, intergreens: &Intergreens, g: u8, other: u8) -> u32
    requires one_plan { intergreens.now.count ≡ length times.now }
    requires entering { g < length times.now }
    requires clearing { other < length times.now }
    ensures seconds { result ≡ free_within_spec (rules_of times.now intergreens.now) g other }
    ensures at_most { result ≤ 363 }
{
    match intergreens.between(GroupNo(other), GroupNo(g)) {
        Some(intergreen) => {
            let red_amber = times.red_amber(GroupNo(g));
            ends_within(times, intergreens, other) + u32::from(intergreen.max(red_amber))
        }
        None => 0,
    }
}

// The seconds within which each group in conflict leaves the way free to a green of group `g`.
pub(crate) fn all_free_within(times: &Times, intergreens: &Intergreens, g: u8) -> u32
    requires one_plan { intergreens.now.count ≡ length times.now }
    requires group { g < length times.now }
    ensures seconds { result ≡ all_free_within_spec (rules_of times.now intergreens.now) g }
    ensures at_most { result ≤ 363 }
{
    let mut slowest: u32 = 0;
    for other in 0..times.groups() {
        slowest = slowest.max(free_within(times, intergreens, g, other));
    }
    slowest
}

// The seconds within which a group of which green is wished, and red of the groups in conflict, is green.
pub(crate) fn green_within(times: &Times, intergreens: &Intergreens, g: u8) -> u32
    requires one_plan { intergreens.now.count ≡ length times.now }
    requires group { g < length times.now }
    ensures seconds { result ≡ green_within_spec (rules_of times.now intergreens.now) g }
    ensures at_most { result ≤ 363 }
{
    let again = green_again_within(times, intergreens, g);
    again.max(all_free_within(times, intergreens, g))
}

// The seconds within which a group shows what is wished of it, green or red.
pub(crate) fn group_within(times: &Times, intergreens: &Intergreens, g: u8) -> u32
    requires one_plan { intergreens.now.count ≡ length times.now }
    requires group { g < length times.now }
    ensures seconds { result ≡ group_within_spec (rules_of times.now intergreens.now) g }
    ensures at_most { result ≤ 363 }
{
    red_within(times, intergreens, g).max(green_within(times, intergreens, g))
}
