// Rows of stages, and of the starting stage.
ghost use Rattle.std.specs.Prelude.{◌≢◌, ◌≡◌, ◌==◌, ◌≤◌, ◌<◌, ◌+◌, map, length, true, false, not, None, Some, Option, MatchResult};
ghost use Rattle.std.specs.List.{list_any, list_all, position};
ghost use Rattle.sig_types.specs.Text.{is_name, same_name};
ghost use Rattle.pua_model.specs.Plan.{are_apart};
ghost use Rattle.pua_reader.specs.Stages.{has_stage_name, stage_reasons, greens_of, last_greens, is_green_in, red_reasons, stage_row_why, stages_with, is_stage_row, stage_of, start_reasons, start_why, start_with};
ghost use Rattle.pua_reader.specs.Groups.{has_name};
ghost use Rattle.pua_reader.specs.Rules.{RowStopIs};
ghost use Rattle.pua_model.specs.Plan.{stands_in};

use crate::form::is_stage_word;
use crate::groups::has_name;
use crate::refusal::{PuaWhy, RowStop};
use crate::twins::are_apart;
use pua_model::{Group, Stage, place_named};
use sig_types::text::{is_name, is_number, number, same_name};
use sig_types::{ShortName, StageNo, Wishes};
use std::alloc::{AllocError, Global};

// Whether a stage has this name, in any case.
fn has_stage_name(stages: &[Stage], name: &[u8]) -> bool
    ensures { result ≡ has_stage_name stages.now name.now }
{
    stages
        .iter()
        .any(|stage| same_name(stage.name.bytes(), name))
}

// Whether each word is a name; `are_names` says so of the bytes of the words. The pairs below are parted likewise.
fn all_names(words: &[&[u8]]) -> bool
    ensures { result ≡ list_all (λ w. is_name w.now) words.now }
{
    words.iter().all(|word| is_name(word))
}

// Whether each word is a name.
fn are_names(words: &[&[u8]]) -> bool
    ensures { result ≡ list_all is_name (map (λ w. w.now) words.now) }
{
    all_names(words)
}

// Whether each word names a group.
fn all_groups(groups: &[Group], words: &[&[u8]]) -> bool
    ensures { result ≡ list_all (λ w. has_name groups.now w.now) words.now }
{
    words.iter().all(|word| has_name(groups, word))
}

// Whether each word names a group.
fn are_groups(groups: &[Group], words: &[&[u8]]) -> bool
    ensures { result ≡ list_all (has_name groups.now) (map (λ w. w.now) words.now) }
{
    all_groups(groups, words)
}

// Whether one of the words is this name, in any case.
fn any_is(name: &[u8], words: &[&[u8]]) -> bool
    ensures { result ≡ list_any (λ w. same_name w.now name.now) words.now }
{
    words.iter().any(|word| same_name(word, name))
}

// Whether one of the words is this name, in any case.
fn is_among(name: &[u8], words: &[&[u8]]) -> bool
    ensures { result ≡ stands_in name.now (map (λ w. w.now) words.now) }
{
    any_is(name, words)
}

// Why a stage's row is refused.
#[tactic(auto, unfolding(crate::specs::Stages::stage_reasons))]
fn stage_stop(
    alloc: Global,
    groups: &[Group],
    stages: &[Stage],
    name: &[u8],
    named: &[&[u8]],
) -> Result<(), RowStop>
    ensures { MatchResult result (λ _. stage_reasons groups.now stages.now name.now (map (λ w. w.now) named.now) ≡ None)
        (λ stop. RowStopIs stop (stage_reasons groups.now stages.now name.now (map (λ w. w.now) named.now))) }
{
    if !is_name(name) || !are_names(named) {
        return Err(RowStop::Why(PuaWhy::Row));
    }
    if has_stage_name(stages, name) {
        return Err(RowStop::Why(PuaWhy::NameTwice));
    }
    match are_apart(alloc, named) {
        Ok(true) => {}
        Ok(false) => return Err(RowStop::Why(PuaWhy::NameTwice)),
        Err(_) => return Err(RowStop::Memory),
    }
    if !are_groups(groups, named) {
        Err(RowStop::Why(PuaWhy::UnknownName))
    } else if stages.len() >= 32 {
        Err(RowStop::Why(PuaWhy::Limit))
    } else {
        Ok(())
    }
}

// Whether each group is named.
#[tactic(auto, unfolding(crate::specs::Stages::greens_of))]
fn greens_of(groups: &[Group], named: &[&[u8]]) -> Wishes
    requires { length groups.now ≤ 64 }
    ensures { result ≡ greens_of groups.now (map (λ w. w.now) named.now) }
{
    let mut greens = Wishes::all_red(groups.len() as u8);
    for g in 0..groups.len() {
        greens.set(g as u8, is_among(groups[g].name.bytes(), named));
    }
    greens
}

fn is_green_in(groups: &[Group], greens: &Wishes, name: &[u8]) -> bool
    requires at_most { length groups.now ≤ 64 }
    requires greens { length groups.now ≤ length greens.now }
    ensures { result ≡ is_green_in groups.now greens.now name.now }
{
    match place_named(groups, name) {
        Some(place) => greens.get(place as u8),
        None => false,
    }
}

fn any_green(groups: &[Group], greens: &Wishes, named: &[&[u8]]) -> bool
    requires at_most { length groups.now ≤ 64 }
    requires greens { length groups.now ≤ length greens.now }
    ensures { result ≡ list_any (λ w. is_green_in groups.now greens.now w.now) named.now }
{
    named.iter().any(|name| is_green_in(groups, greens, name))
}

// Whether a group that is green in the last stage is named.
fn names_green(groups: &[Group], stages: &[Stage], named: &[&[u8]]) -> bool
    requires at_most { length groups.now ≤ 64 }
    requires greens { length stages.now ≢ 0 → length groups.now ≤ length (last_greens stages.now) }
    ensures { result ≡ list_any (is_green_in groups.now (last_greens stages.now)) (map (λ w. w.now) named.now) }
{
    if stages.is_empty() {
        return false;
    }
    let stage = &stages[stages.len() - 1];
    any_green(groups, &stage.greens, named)
}

// Why a `red` row is refused.
#[tactic(auto, unfolding(crate::specs::Stages::red_reasons))]
fn red_stop(
    alloc: Global,
    groups: &[Group],
    stages: &[Stage],
    after_stage: bool,
    named: &[&[u8]],
) -> Result<(), RowStop>
    requires greens { length stages.now ≢ 0 → length groups.now ≤ length (last_greens stages.now) }
    requires at_most { length groups.now ≤ 64 }
    ensures { MatchResult result (λ _. red_reasons groups.now stages.now after_stage (map (λ w. w.now) named.now) ≡ None)
        (λ stop. RowStopIs stop (red_reasons groups.now stages.now after_stage (map (λ w. w.now) named.now))) }
{
    if !after_stage || named.is_empty() || !are_names(named) || names_green(groups, stages, named) {
        return Err(RowStop::Why(PuaWhy::Row));
    }
    match are_apart(alloc, named) {
        Ok(true) => {}
        Ok(false) => return Err(RowStop::Why(PuaWhy::NameTwice)),
        Err(_) => return Err(RowStop::Memory),
    }
    if are_groups(groups, named) {
        Ok(())
    } else {
        Err(RowStop::Why(PuaWhy::UnknownName))
    }
}

/// Adds the stage of a row, or passes over a `red` row, where it is not refused.
pub(crate) fn read_stage(
    alloc: Global,
    groups: &[Group],
    stages: &mut Vec<Stage>,
    after_stage: &mut bool,
    words: &[&[u8]],
) -> Result<(), RowStop>
    requires greens { length stages.old.items ≢ 0 → length groups.now ≤ length (last_greens stages.old.items) }
    requires at_most { length groups.now ≤ 64 }
    ensures { MatchResult result
        (λ _. (stage_row_why groups.now stages.old.items after_stage.old (map (λ w. w.now) words.now) ≡ None)
        × (stages.new.items ≡ stages_with groups.now stages.old.items (map (λ w. w.now) words.now))
        × (after_stage.new ≡ is_stage_row (map (λ w. w.now) words.now)))
        (λ stop. RowStopIs stop (stage_row_why groups.now stages.old.items after_stage.old (map (λ w. w.now) words.now))) }
{
    let Some((name, named)) = words.split_first() else {
        return Err(RowStop::Why(PuaWhy::Row));
    };
    if same_name(name, b"red") {
        red_stop(alloc, groups, stages, *after_stage, named)?;
        *after_stage = false;
        return Ok(());
    }
    stage_stop(alloc, groups, stages, name, named)?;
    let stage = Stage {
        name: ShortName::of(name),
        greens: greens_of(groups, named),
    };
    *after_stage = true;
    match stages.push(stage) {
        Ok(()) => Ok(()),
        Err(_) => Err(RowStop::Memory),
    }
}

// The place of the stage with this name.
fn place_of_stage(stages: &[Stage], name: &[u8]) -> Option<usize>
    ensures { result ≡ position (λ s. same_name s.name name.now) stages.now }
{
    stages
        .iter()
        .position(|stage| same_name(stage.name.bytes(), name))
}

/// The stage that a word names.
#[tactic(auto, unfolding(crate::specs::Stages::stage_of))]
pub(crate) fn stage_of(stages: &[Stage], word: &[u8]) -> Option<StageNo>
    requires { length stages.now ≤ 32 }
    ensures { result ≡ stage_of stages.now word.now }
{
    if is_number(word) {
        return match number(word, 1, stages.len() as u32) {
            Some(number) => Some(StageNo(number as u8)),
            None => None,
        };
    }
    match place_of_stage(stages, word) {
        Some(place) => Some(StageNo(place as u8 + 1)),
        None => None,
    }
}

// Why the row of the starting stage is refused, or its stage.
#[tactic(auto, unfolding(crate::specs::Stages::start_reasons))]
fn start_of(stages: &[Stage], start: Option<StageNo>, word: &[u8]) -> Result<StageNo, PuaWhy>
    requires { length stages.now ≤ 32 }
    ensures { MatchResult result (λ s. (start_reasons stages.now start word.now ≡ None) × (stage_of stages.now word.now ≡ Some s))
        (λ why. start_reasons stages.now start word.now ≡ Some why) }
{
    if start.is_some() || !is_stage_word(word) {
        return Err(PuaWhy::Row);
    }
    match stage_of(stages, word) {
        Some(stage) => Ok(stage),
        None => Err(PuaWhy::UnknownName),
    }
}

/// The starting stage of a row, where the row is not refused.
pub(crate) fn read_start(
    stages: &[Stage],
    start: Option<StageNo>,
    words: &[&[u8]],
) -> Result<StageNo, PuaWhy>
    requires { length stages.now ≤ 32 }
    ensures { MatchResult result
        (λ s. (start_why stages.now start (map (λ w. w.now) words.now) ≡ None)
        × (start_with stages.now (map (λ w. w.now) words.now) ≡ Some s))
        (λ why. start_why stages.now start (map (λ w. w.now) words.now) ≡ Some why) }
{
    match words {
        [word] => start_of(stages, start, word),
        _ => Err(PuaWhy::Row),
    }
}
