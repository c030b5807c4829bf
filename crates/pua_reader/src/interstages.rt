// Rows of interstages, and their ends.
ghost use Rattle.std.specs.Prelude.{[], ◌≡◌, ◌==◌, ◌≤◌, ◌<◌, ◌+◌, ℕ, map, length, IfOk, true, not, None, Some, Option, MatchOption, MatchResult, slice_index_or, is_some, IfSome};
ghost use Rattle.sig_types.specs.Text.{number_of};
ghost use Rattle.pua_model.specs.Wish.{leads};
ghost use Rattle.pua_model.specs.Plan.{has_pair as has_pair_spec};
ghost use Rattle.pua_reader.specs.Words.{signed_of};
ghost use Rattle.pua_reader.specs.Interstages.{open_at, form_of, interstage_row_why, open_after, length_reasons, stage_reasons, ends_reasons, or_none, spelled_end, word, last_word, form_why, open_after_form, interstage_by_keys, first_inconsistent, greens_in, interstage_reasons};
ghost use Rattle.pua_reader.specs.Stages.{stage_of};
ghost use Rattle.pua_reader.specs.Groups.{place_of};

use crate::form::{Form, form_of};
use crate::refusal::{PuaWhy, RowStop};
use crate::stages::stage_of;
use crate::words::{end_of, last_word, word_at};
use pua_model::{Group, Interstage, Stage, leads, place_named};
use sig_types::text::number;
use sig_types::{GroupNo, ShortName, StageNo};
use std::alloc::{AllocError, Global};

/// An interstage whose section is read: the line of its section line, what its keys gave, and the ends of each group.
#[derive(Drop)]
pub(crate) struct OpenInterstage {
    pub(crate) line: u32,
    pub(crate) length: Option<u8>,
    pub(crate) from: Option<StageNo>,
    pub(crate) to: Option<StageNo>,
    pub(crate) rows: Vec<Option<(i8, i8)>>,
}

#[tactic(auto, unfolding(crate::specs::Interstages::length_reasons))]
fn length_of(given: Option<u8>, word: &[u8]) -> Result<u8, PuaWhy>
    requires { is_some (number_of word.now) ≡ true }
    ensures { MatchResult result
        (λ n. (length_reasons given (or_none (number_of word.now)) ≡ None) × (number_of word.now ≡ Some n))
        (λ why. length_reasons given (or_none (number_of word.now)) ≡ Some why) }
{
    if given.is_some() {
        return Err(PuaWhy::Row);
    }
    match number(word, 1, 126) {
        Some(length) => Ok(length as u8),
        None => Err(PuaWhy::Range),
    }
}

#[tactic(auto, unfolding(crate::specs::Interstages::stage_reasons))]
fn stage_key(given: Option<StageNo>, stages: &[Stage], word: &[u8]) -> Result<StageNo, PuaWhy>
    requires { length stages.now ≤ 32 }
    ensures { MatchResult result
        (λ s. (stage_reasons given (stage_of stages.now word.now) ≡ None) × (stage_of stages.now word.now ≡ Some s))
        (λ why. stage_reasons given (stage_of stages.now word.now) ≡ Some why) }
{
    if given.is_some() {
        return Err(PuaWhy::Row);
    }
    match stage_of(stages, word) {
        Some(stage) => Ok(stage),
        None => Err(PuaWhy::UnknownName),
    }
}

// The place and the ends of a group's row.
#[tactic(auto, unfolding(crate::specs::Interstages::ends_reasons))]
fn ends_of(
    groups: &[Group],
    rows: &[Option<(i8, i8)>],
    name: &[u8],
    red_end: &[u8],
    green_end: &[u8],
) -> Result<(usize, (i8, i8)), PuaWhy>
    requires rows { length rows.now ≡ length groups.now }
    requires red_end { is_some (signed_of red_end.now) ≡ true }
    requires green_end { is_some (signed_of green_end.now) ≡ true }
    ensures { MatchResult result
        (λ p. (ends_reasons rows.now (place_of groups.now name.now) (spelled_end red_end.now) (spelled_end green_end.now) ≡ None)
        × (place_of groups.now name.now ≡ Some p.0)
        × (signed_of red_end.now ≡ Some p.1.0) × (signed_of green_end.now ≡ Some p.1.1))
        (λ why. ends_reasons rows.now (place_of groups.now name.now) (spelled_end red_end.now) (spelled_end green_end.now)
        ≡ Some why) }
{
    let Some(place) = place_named(groups, name) else {
        return Err(PuaWhy::UnknownName);
    };
    if rows[place].is_some() {
        return Err(PuaWhy::NameTwice);
    }
    match (end_of(red_end), end_of(green_end)) {
        (Some(red_end), Some(green_end)) => Ok((place, (red_end, green_end))),
        _ => Err(PuaWhy::Range),
    }
}

impl OpenInterstage {
    ghost use Rattle.pua_reader.specs.Views.{open_value};

    /// The interstage whose section begins in that line.
    pub(crate) fn begins(
        alloc: Global,
        line: u32,
        groups: usize,
    ) -> Result<OpenInterstage, AllocError>
        ensures { IfOk result (λ o. open_value o ≡ open_at line groups) }
    {
        Ok(OpenInterstage {
            line,
            length: None,
            from: None,
            to: None,
            rows: vec![in alloc; None; groups]?,
        })
    }

    /// No interstage.
    pub(crate) fn none(alloc: Global) -> OpenInterstage
        ensures { open_value result ≡ open_at 0 0 }
    {
        OpenInterstage {
            line: 0,
            length: None,
            from: None,
            to: None,
            rows: Vec::new(alloc),
        }
    }

    // Takes what a row of this form gives.
    fn take(
        &mut self,
        form: Form,
        groups: &[Group],
        stages: &[Stage],
        words: &[&[u8]],
    ) -> Result<(), PuaWhy>
        requires form { form_of (map (λ w. w.now) words.now) ≡ form }
        requires rows { length self.old.rows.items ≡ length groups.now }
        requires stages { length stages.now ≤ 32 }
        ensures { MatchResult result
            (λ _. (form_why form groups.now stages.now (open_value self.old) (map (λ w. w.now) words.now) ≡ None)
            × (open_value self.new
            ≡ open_after_form form groups.now stages.now (open_value self.old) (map (λ w. w.now) words.now)))
            (λ why. form_why form groups.now stages.now (open_value self.old) (map (λ w. w.now) words.now) ≡ Some why) }
    {
        match form {
            Form::NoForm => return Err(PuaWhy::Row),
            Form::Number => {}
            Form::Length => {
                let length = length_of(self.length, last_word(words))?;
                self.length = Some(length);
            }
            Form::From => {
                let from = stage_key(self.from, stages, last_word(words))?;
                self.from = Some(from);
            }
            Form::To => {
                let to = stage_key(self.to, stages, last_word(words))?;
                self.to = Some(to);
            }
            Form::Ends => {
                let (place, ends) = ends_of(
                    groups,
                    &self.rows,
                    word_at(words, 0),
                    word_at(words, 1),
                    word_at(words, 2),
                )?;
                self.rows[place] = Some(ends);
            }
        }
        Ok(())
    }

    /// Takes what a row gives, where it is not refused.
    pub(crate) fn read(
        &mut self,
        groups: &[Group],
        stages: &[Stage],
        words: &[&[u8]],
    ) -> Result<(), PuaWhy>
        requires rows { length self.old.rows.items ≡ length groups.now }
        requires stages { length stages.now ≤ 32 }
        ensures { MatchResult result
            (λ _. (interstage_row_why groups.now stages.now (open_value self.old) (map (λ w. w.now) words.now) ≡ None)
            × (open_value self.new ≡ open_after groups.now stages.now (open_value self.old) (map (λ w. w.now) words.now)))
            (λ why. interstage_row_why groups.now stages.now (open_value self.old) (map (λ w. w.now) words.now) ≡ Some why) }
    {
        self.take(form_of(words), groups, stages, words)
    }
}

/// The interstage of a section in which nothing is missing.
pub(crate) fn interstage_of(ended: OpenInterstage) -> Option<Interstage>
    ensures { MatchOption result (interstage_by_keys ended.length ended.from ended.to ended.rows.items ≡ None)
        (λ interstage. interstage_by_keys ended.length ended.from ended.to ended.rows.items ≡ Some interstage) }
{
    let OpenInterstage {
        line: _,
        length,
        from,
        to,
        rows,
    } = ended;
    match (length, from, to) {
        (Some(length), Some(from), Some(to)) => Some(Interstage::of(from, to, length, rows)),
        _ => None,
    }
}

fn has_pair(from: StageNo, to: StageNo, interstages: &[Interstage]) -> bool
    ensures { result ≡ has_pair_spec from.0 to.0 interstages.now }
{
    interstages.iter().any(|interstage| interstage.from_stage() == from
        && interstage.to_stage() == to)
}

// Whether the group is green in the stage.
fn is_green(stages: &[Stage], stage: StageNo, group: u8) -> bool
    requires stage { (1 ≤ stage.0) × (stage.0 ≤ length stages.now) }
    requires greens { (s : ℕ) → s < length stages.now →
        group < length (slice_index_or stages.now s (record { name = []; greens = [] })).greens }
    ensures { result ≡ greens_in stages.now stage.0 group }
{
    let stage = &stages[usize::from(stage.0) - 1];
    stage.greens.get(group)
}

// Whether an interstage leads a group from its place in the one stage to that in the other.
fn leads_group(stages: &[Stage], interstage: &Interstage, group: u8) -> bool
    requires rows { group < length interstage.now.rows }
    requires from { (1 ≤ interstage.now.from) × (interstage.now.from ≤ length stages.now) }
    requires to { (1 ≤ interstage.now.to) × (interstage.now.to ≤ length stages.now) }
    requires greens { (s : ℕ) → s < length stages.now →
        group < length (slice_index_or stages.now s (record { name = []; greens = [] })).greens }
    ensures { result ≡ leads (slice_index_or interstage.now.rows group None)
        (greens_in stages.now interstage.now.from group) (greens_in stages.now interstage.now.to group) interstage.now.length }
{
    let from = is_green(stages, interstage.from_stage(), group);
    let to = is_green(stages, interstage.to_stage(), group);
    leads(
        interstage.row(GroupNo(group)),
        from,
        to,
        interstage.seconds(),
    )
}

// The lowest group that an interstage does not lead from its place in the one stage to that in the other.
fn first_inconsistent(groups: usize, stages: &[Stage], interstage: &Interstage) -> Option<usize>
    requires at_most { groups ≤ 64 }
    requires rows { length interstage.now.rows ≡ groups }
    requires from { (1 ≤ interstage.now.from) × (interstage.now.from ≤ length stages.now) }
    requires to { (1 ≤ interstage.now.to) × (interstage.now.to ≤ length stages.now) }
    requires greens { (s : ℕ) → s < length stages.now →
        length (slice_index_or stages.now s (record { name = []; greens = [] })).greens ≡ groups }
    ensures found { result ≡ first_inconsistent groups stages.now interstage.now }
    ensures below { IfSome result (λ g. g < groups) }
{
    for g in 0..groups {
        if !leads_group(stages, interstage, g as u8) {
            return Some(g);
        }
    }
    None
}

/// Why an interstage is refused as a whole, after these.
#[tactic(auto, unfolding(crate::specs::Interstages::interstage_reasons))]
pub(crate) fn interstage_why(
    groups: &[Group],
    stages: &[Stage],
    interstages: &[Interstage],
    interstage: &Interstage,
) -> Option<PuaWhy>
    requires at_most { length groups.now ≤ 64 }
    requires interstages_at_most { length interstages.now ≤ 256 }
    requires rows { length interstage.now.rows ≡ length groups.now }
    requires from { (1 ≤ interstage.now.from) × (interstage.now.from ≤ length stages.now) }
    requires to { (1 ≤ interstage.now.to) × (interstage.now.to ≤ length stages.now) }
    requires greens { (s : ℕ) → s < length stages.now →
        length (slice_index_or stages.now s (record { name = []; greens = [] })).greens ≡ length groups.now }
    ensures { result ≡ interstage_reasons groups.now stages.now interstages.now (Some interstage.now) }
{
    let from = interstage.from_stage();
    let to = interstage.to_stage();
    if from == to {
        return Some(PuaWhy::Range);
    }
    if has_pair(from, to, interstages) {
        return Some(PuaWhy::PairTwice);
    }
    match first_inconsistent(groups.len(), stages, interstage) {
        Some(place) => Some(PuaWhy::Inconsistent {
            inter: interstages.len() as u16 + 1,
            group: GroupNo(place as u8),
            name: ShortName::of(groups[place].name.bytes()),
        }),
        None => None,
    }
}
