// A plan of groups alone.
ghost use Rattle.std.specs.Prelude.{◌≡◌, ◌≤◌, ◌∷◌, [], IfOk, IfSome, MatchOption, None, Some, codes, false, length, map, replicate, true};
ghost use Rattle.pua_model.specs.Plan.{are_apart, are_names};
ghost use Rattle.tenth_records.specs.Names.{numbers_from, plan_of_names};
ghost use Rattle.tenth_records.specs.Record.{names_in};

use log_read::read_items;
use pua_model::{Group, Plan, Stage};
use sig_types::text::strip;
use sig_types::{Memory, ShortName, StageNo, Wishes};
use std::alloc::Global;

// The names of the groups of a header; none where the line is no header.
#[tactic(auto, unfolding(crate::specs::Record::names_in))]
pub(crate) fn names_in(alloc: Global, line: &[u8]) -> Result<Option<Vec<ShortName>>, Memory>
    ensures names { IfOk result (λ found. MatchOption found (names_in line.now ≡ None) (λ v. names_in line.now ≡ Some v.items)) }
    ensures some { IfOk result (λ found. IfSome found (λ v. 1 ≤ length v.items)) }
    ensures few { IfOk result (λ found. IfSome found (λ v. length v.items ≤ 64)) }
    ensures named { IfOk result (λ found. IfSome found (λ v. are_names v.items ≡ true)) }
    ensures apart { IfOk result (λ found. IfSome found (λ v. are_apart v.items ≡ true)) }
{
    match strip(b"VAPRECORD 1 ", line) {
        Some(list) => read_items(alloc, list),
        None => Ok(None),
    }
}

// The groups with these names, numbered from 1.
fn groups_of(alloc: Global, names: &[ShortName]) -> Result<Vec<Group>, Memory>
    requires { length names.now ≤ 64 }
    ensures names { IfOk result (λ v. map (λ g. g.name) v.items ≡ names.now) }
    ensures numbers { IfOk result (λ v. map (λ g. g.number) v.items ≡ numbers_from 1 names.now) }
{
    let mut groups = Vec::new(alloc);
    for (place, name) in names.iter().enumerate() {
        let group = Group {
            name: ShortName::of(name.bytes()),
            number: place as u8 + 1,
        };
        if groups.push(group).is_err() {
            return Err(Memory);
        }
    }
    Ok(groups)
}

// The one stage of a plan of groups alone, in which all are red.
fn stage_of(alloc: Global, groups: u8) -> Result<Vec<Stage>, Memory>
    requires { groups ≤ 64 }
    ensures names { IfOk result (λ v. map (λ s. s.name) v.items ≡ codes "S" ∷ []) }
    ensures stages { IfOk result (λ v. map (λ s. s.greens) v.items ≡ replicate groups false ∷ []) }
{
    let mut stages = Vec::new(alloc);
    let stage = Stage {
        name: ShortName::of(b"S"),
        greens: Wishes::all_red(groups),
    };
    match stages.push(stage) {
        Ok(()) => Ok(stages),
        Err(_) => Err(Memory),
    }
}

/// A plan of groups with these names and of one stage, in which all are red.
pub fn plan_of_names(alloc: Global, names: &[ShortName]) -> Result<Plan, Memory>
    requires some { 1 ≤ length names.now }
    requires few { length names.now ≤ 64 }
    requires named { are_names names.now ≡ true }
    requires apart { are_apart names.now ≡ true }
    ensures { IfOk result (λ plan. plan ≡ plan_of_names names.now) }
{
    let groups = groups_of(alloc, names)?;
    let stages = stage_of(alloc, names.len() as u8)?;
    Ok(Plan::of(groups, stages, StageNo(1), Vec::new(alloc)))
}
