// Columns of the table of times that stand in each other's place.
ghost use Rattle.std.specs.Prelude.{◌≡◌, ◌<◌, length, not};
ghost use Rattle.plan_check.specs.Warnings as listed;

use sig_tables::Times;
use sig_types::GroupNo;

// Whether the red-amber of a group is no longer than its amber.
fn is_in_order(times: &Times, group: GroupNo) -> bool
    requires { group.0 < length times.now }
    ensures { result ≡ listed.is_in_order times.now group.0 }
{
    times.red_amber(group) <= times.amber(group)
}

/// Whether the red-amber of some group is no longer than its amber.
#[tactic(auto, unfolding(crate::specs::Warnings::has_order), using(crate::proofs::Listed::any_none, crate::proofs::Listed::any_more))]
pub(crate) fn has_order(times: &Times) -> bool
    ensures { result ≡ listed.has_order times.now }
{
    let mut any = false;
    for g in 0..times.groups() {
        let here = is_in_order(times, GroupNo(g));
        any = any || here;
    }
    any
}
