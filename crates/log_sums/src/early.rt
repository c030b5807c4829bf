// The turns that are refused before the first green of their group.
ghost use Rattle.std.specs.Prelude.{◌≡◌, ◌+◌, ◌^◌, ◌<◌, ◌≤◌, ◌==◌, ◌++◌, ◌∷◌, [], true, Bool, ℕ, IfOk, OnOk, filter, length, map, if◌then◌else◌};
ghost use Rattle.sig_types.specs.declared.refused.TurnRefusal.{TurnRefusal};
ghost use Rattle.log_sums.specs.declared.group.GroupSums.{GroupSums};
ghost use Rattle.log_sums.specs.Early.{TellsEarly};
ghost use Rattle.log_sums.specs.Told.{alone};

use crate::group::GroupSums;
use crate::items::alone;
use sig_types::{GroupNo, Memory, TurnRefusal, TurnRefusals};
use std::alloc::Global;

// Whether no green of a group began, where so many groups are shown.
fn is_early(groups: &[GroupSums; 64], shown: u8, group: GroupNo) -> bool
    requires { shown ≤ 64 }
    ensures { (early : ℕ → Bool) → TellsEarly shown groups.now early → result ≡ early group.0 }
{
    if group.0 < shown {
        groups[usize::from(group.0)].cycles.last == 0
    } else {
        true
    }
}

// Puts a refused turn where it came so early, whatever group stood in the way.
fn put_early(items: &mut Vec<TurnRefusal>, early: bool, turn: TurnRefusal) -> Result<(), Memory>
    ensures { OnOk result (items.new.items ≡ items.old.items ++ (if early then alone turn ∷ [] else [])) }
{
    if !early {
        return Ok(());
    }
    match items.push(alone(turn)) {
        Ok(()) => Ok(()),
        Err(_) => Err(Memory),
    }
}

/// The refused turns of groups that had no green yet, by group and rule.
pub(crate) fn early_of(
    alloc: Global,
    groups: &[GroupSums; 64],
    shown: u8,
    turns: &TurnRefusals,
) -> Result<Vec<TurnRefusal>, Memory>
    requires { shown ≤ 64 }
    ensures items { IfOk result (λ v. (early : ℕ → Bool) → TellsEarly shown groups.now early →
        v.items ≡ map alone (filter (λ r. early r.group.0) turns.now)) }
    ensures few { IfOk result (λ v. length v.items ≤ 64) }
{
    let mut items = Vec::new(alloc);
    for place in 0..turns.len() {
        let turn = turns.get(place);
        put_early(&mut items, is_early(groups, shown, turn.group), turn)?;
    }
    Ok(items)
}
