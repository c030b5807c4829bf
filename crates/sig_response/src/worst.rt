// The bound of a site, and which group makes it, and why.
ghost use Rattle.std.specs.Prelude.{◌≡◌, ◌<◌, ◌≤◌, length};
ghost use Rattle.sig_tables.specs.SiteRules.{rules_of};
ghost use Rattle.sig_response.specs.Bounds.{free_within as free_within_spec, group_within as group_within_spec, shown_within as shown_within_spec};
ghost use Rattle.sig_response.specs.Laws.{IsSite};
ghost use Rattle.sig_response.specs.Worst.{IsFirstGreatest, IsCause, IsWorstCase};

use crate::bound::{
    free_within, green_again_within, green_within, group_within, groups_of, red_within,
};
use sig_tables::{Intergreens, Times};
use sig_types::GroupNo;

/// Why a group takes so many seconds until it shows what is wished of it. The first that applies is told.
#[derive(Clone, Copy)]
pub enum Cause {
    /// Red is wished, and the group has just started: its red-amber, its minimum green and its amber are still to come.
    MinimumGreen,
    /// Green is wished, and the group has just ended: its amber, its minimum red and its red-amber are still to come.
    MinimumRed,
    /// Green is wished, and this group in conflict, of which red is wished, has just started: its red-amber, its minimum green and
    /// the intergreen from it are still to come.
    Intergreen(GroupNo),
    /// The same, but instead of the intergreen the red-amber of the group itself, which is longer.
    RedAmber(GroupNo),
}

/// The worst case of a site: what it may take from a wish that stays the same until it is shown.
#[derive(Clone, Copy)]
pub struct WorstCase {
    /// The bound, 1 to 363 seconds.
    pub seconds: u32,
    /// The lowest group that may take so long.
    pub group: GroupNo,
    /// Why it may.
    pub cause: Cause,
}

// The lowest of the groups that take longest to show what is wished of them.
fn slowest_group(times: &Times, intergreens: &Intergreens) -> u8
    requires { intergreens.now.count ≡ length times.now }
    ensures slowest { IsFirstGreatest (group_within_spec (rules_of times.now intergreens.now)) (length times.now) result }
    ensures site { IsSite (rules_of times.now intergreens.now) }
{
    let groups = groups_of(times, intergreens);
    let mut slowest: u8 = 0;
    let mut most = group_within(times, intergreens, 0);
    for g in 1..groups {
        let seconds = group_within(times, intergreens, g);
        if seconds > most {
            slowest = g;
            most = seconds;
        }
    }
    slowest
}

// The lowest of the groups that take longest to leave the way free to a green of group `g`.
fn slowest_other(times: &Times, intergreens: &Intergreens, g: u8) -> u8
    requires one_plan { intergreens.now.count ≡ length times.now }
    requires group { g < length times.now }
    ensures { IsFirstGreatest (free_within_spec (rules_of times.now intergreens.now) g) (length times.now) result }
{
    let mut slowest: u8 = 0;
    let mut most = free_within(times, intergreens, g, 0);
    for other in 1..times.groups() {
        let seconds = free_within(times, intergreens, g, other);
        if seconds > most {
            slowest = other;
            most = seconds;
        }
    }
    slowest
}

// Why group `g` takes so long.
fn cause_of(times: &Times, intergreens: &Intergreens, g: u8) -> Cause
    requires one_plan { intergreens.now.count ≡ length times.now }
    requires group { g < length times.now }
    ensures { IsCause (rules_of times.now intergreens.now) g result }
{
    let green = green_within(times, intergreens, g);
    if red_within(times, intergreens, g) >= green {
        return Cause::MinimumGreen;
    }
    if green_again_within(times, intergreens, g) == green {
        return Cause::MinimumRed;
    }
    let other = GroupNo(slowest_other(times, intergreens, g));
    let intergreen = intergreens.between(other, GroupNo(g)).unwrap_or(0);
    if intergreen >= times.red_amber(GroupNo(g)) {
        Cause::Intergreen(other)
    } else {
        Cause::RedAmber(other)
    }
}

/// The seconds within which each group of a site shows what is wished of it, where the same is wished in each second, and green of
/// no two groups in conflict. Both tables are of one plan.
pub fn shown_within(times: &Times, intergreens: &Intergreens) -> u32
    requires { intergreens.now.count ≡ length times.now }
    ensures seconds { result ≡ shown_within_spec (rules_of times.now intergreens.now) }
    ensures at_most { result ≤ 363 }
    ensures site { IsSite (rules_of times.now intergreens.now) }
{
    let slowest = slowest_group(times, intergreens);
    group_within(times, intergreens, slowest)
}

/// These seconds, with the lowest group that may take so long and the first cause for which it may.
pub fn worst_case(times: &Times, intergreens: &Intergreens) -> WorstCase
    requires { intergreens.now.count ≡ length times.now }
    ensures worst { IsWorstCase (rules_of times.now intergreens.now) result }
    ensures at_most { result.seconds ≤ 363 }
    ensures group { result.group.0 < length times.now }
{
    let slowest = slowest_group(times, intergreens);
    WorstCase {
        seconds: group_within(times, intergreens, slowest),
        group: GroupNo(slowest),
        cause: cause_of(times, intergreens, slowest),
    }
}
