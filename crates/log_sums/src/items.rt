// What a record refuses, as lists.
ghost use Rattle.std.specs.Prelude.{◌≡◌, ◌+◌, ◌^◌, ◌<◌, ◌≤◌, ◌++◌, ◌∷◌, IfOk, length, map};
ghost use Rattle.log_sums.specs.Told.{alone};

use sig_types::{Memory, StageRefusal, StageRefusals, TurnRefusal, TurnRefusals};
use std::alloc::Global;

// The refused stage commands.
pub(crate) fn commands_of(
    alloc: Global,
    stages: &StageRefusals,
) -> Result<Vec<StageRefusal>, Memory>
    ensures items { IfOk result (λ v. v.items ≡ stages.now) }
    ensures few { IfOk result (λ v. length v.items ≤ 10000) }
{
    let mut items = Vec::new(alloc);
    for place in 0..stages.len() {
        match items.push(stages.get(place)) {
            Ok(()) => {}
            Err(_) => return Err(Memory),
        }
    }
    Ok(items)
}

// The refused turns.
pub(crate) fn turns_of(alloc: Global, turns: &TurnRefusals) -> Result<Vec<TurnRefusal>, Memory>
    ensures items { IfOk result (λ v. v.items ≡ turns.now) }
    ensures few { IfOk result (λ v. length v.items ≤ 64) }
{
    let mut items = Vec::new(alloc);
    for place in 0..turns.len() {
        match items.push(turns.get(place)) {
            Ok(()) => {}
            Err(_) => return Err(Memory),
        }
    }
    Ok(items)
}

/// A refused turn, whatever group stood in the way.
pub(crate) fn alone(turn: TurnRefusal) -> TurnRefusal
    ensures { result ≡ alone turn }
{
    TurnRefusal {
        group: turn.group,
        rule: turn.rule,
        other: None,
    }
}

// The refused turns by group and rule.
pub(crate) fn rules_of(alloc: Global, turns: &[TurnRefusal]) -> Result<Vec<TurnRefusal>, Memory>
    ensures items { IfOk result (λ v. v.items ≡ map alone turns.now) }
    ensures few { IfOk result (λ v. length v.items ≡ length turns.now) }
{
    let mut items = Vec::new(alloc);
    for turn in turns {
        match items.push(alone(*turn)) {
            Ok(()) => {}
            Err(_) => return Err(Memory),
        }
    }
    Ok(items)
}
