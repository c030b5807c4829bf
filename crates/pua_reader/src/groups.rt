// Rows of signal groups.
ghost use Rattle.std.specs.Prelude.{nat_lt, ◌≡◌, ◌==◌, ◌≤◌, ◌<◌, ◌+◌, ℕ, map, length, OnOk, true, None, Some, Option, MatchOption, MatchResult};
ghost use Rattle.std.specs.List.{position, position_or_len};
ghost use Rattle.sig_types.specs.Text.{is_name, within, number_of};
ghost use Rattle.pua_model.specs.Plan.{is_above};
ghost use Rattle.pua_reader.specs.Groups.{HasParts, has_name, has_number, group_reasons, group_why, group_row, put, groups_with};
ghost use Rattle.pua_reader.specs.Rules.{RowStopIs};

use crate::refusal::{PuaWhy, RowStop};
use pua_model::Group;
use sig_types::ShortName;
use sig_types::text::{is_name, is_number, number, same_name};
use std::alloc::AllocError;

/// Whether a group has this name.
pub(crate) fn has_name(groups: &[Group], name: &[u8]) -> bool
    ensures { result ≡ has_name groups.now name.now }
{
    groups
        .iter()
        .any(|group| same_name(group.name.bytes(), name))
}

fn has_number(groups: &[Group], number: u8) -> bool
    ensures { result ≡ has_number groups.now number }
{
    groups.iter().any(|group| group.number == number)
}

// A group's number, where it is in its range.
fn number_in_range(word: &[u8]) -> Option<u8>
    ensures { result ≡ within 1 255 (number_of word.now) }
{
    match number(word, 1, 255) {
        Some(number) => Some(number as u8),
        None => None,
    }
}

// The name of a row, and its number where it is in its range.
fn row_parts<'a>(place: u8, words: &[&'a [u8]]) -> Option<(&'a [u8], Option<u8>)>
    requires at_least { 1 ≤ place }
    ensures { MatchOption result (group_row place (map (λ w. w.now) words.now) ≡ None)
        (λ p. HasParts place (map (λ w. w.now) words.now) p.0.now p.1) }
{
    match words {
        [name] if is_name(name) => Some((name, Some(place))),
        [name, word] if is_name(name) && is_number(word) => Some((name, number_in_range(word))),
        _ => None,
    }
}

// The number of a group that may be added, or the reason to refuse it.
#[tactic(auto, unfolding(crate::specs::Groups::group_reasons))]
fn numbered(groups: &[Group], name: &[u8], number: Option<u8>) -> Result<u8, PuaWhy>
    requires rising { is_above 0 (map (λ g. g.number) groups.now) ≡ true }
    ensures { (n : ℕ) → number ≡ within 1 255 (Some n) →
        MatchResult result (λ m. (m ≡ n) × (group_reasons groups.now (Some (record { name = name.now; number = n })) ≡ None))
        (λ why. group_reasons groups.now (Some (record { name = name.now; number = n })) ≡ Some why) }
{
    if has_name(groups, name) {
        return Err(PuaWhy::NameTwice);
    }
    let Some(number) = number else {
        return Err(PuaWhy::Range);
    };
    if has_number(groups, number) {
        Err(PuaWhy::NameTwice)
    } else if groups.len() >= 64 {
        Err(PuaWhy::Limit)
    } else {
        Ok(number)
    }
}

fn first_above(groups: &[Group], number: u8) -> Option<usize>
    ensures { result ≡ position (λ g. nat_lt number g.number) groups.now }
{
    groups.iter().position(|group| number < group.number)
}

// The place of the first group with a greater number, or past the last.
fn place_for(groups: &[Group], number: u8) -> usize
    ensures place { result ≡ position_or_len (λ g. nat_lt number g.number) groups.now }
    ensures within { result ≤ length groups.now }
{
    match first_above(groups, number) {
        Some(place) => place,
        None => groups.len(),
    }
}

// Puts a group where its number belongs.
fn put(groups: &mut Vec<Group>, group: Group) -> Result<(), AllocError>
    ensures { OnOk result (groups.new.items ≡ put group groups.old.items) }
{
    let place = place_for(groups, group.number);
    groups.insert(place, group)?;
    Ok(())
}

/// Adds the group of a row, where it is not refused.
#[tactic(auto, unfolding(crate::specs::Groups::group_reasons))]
pub(crate) fn read_group(groups: &mut Vec<Group>, words: &[&[u8]]) -> Result<(), RowStop>
    requires at_most { length groups.old.items ≤ 64 }
    requires rising { is_above 0 (map (λ g. g.number) groups.old.items) ≡ true }
    ensures { MatchResult result
        (λ _. (group_why groups.old.items (map (λ w. w.now) words.now) ≡ None)
        × (groups.new.items ≡ groups_with groups.old.items (map (λ w. w.now) words.now)))
        (λ stop. RowStopIs stop (group_why groups.old.items (map (λ w. w.now) words.now))) }
{
    let Some((name, number)) = row_parts(groups.len() as u8 + 1, words) else {
        return Err(RowStop::Why(PuaWhy::Row));
    };
    let number = match numbered(groups, name, number) {
        Ok(number) => number,
        Err(why) => return Err(RowStop::Why(why)),
    };
    let group = Group {
        name: ShortName::of(name),
        number,
    };
    match put(groups, group) {
        Ok(()) => Ok(()),
        Err(_) => Err(RowStop::Memory),
    }
}
