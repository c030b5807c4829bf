// Where a line of a PUA file stands.
ghost use Rattle.std.specs.Prelude.{◌≡◌, ◌<◌, ◌≤◌, ◌+◌, ◌^◌, ◌-◌, false};
ghost use Rattle.pua_reader.specs.Words.{words, kind_of};
ghost use Rattle.pua_reader.specs.Stages.{is_stage_row};
ghost use Rattle.pua_reader.specs.SectionRows.{section_with};
ghost use Rattle.pua_lines.specs.Kinds.{kind_value, section_value, place_value};
ghost use Rattle.pua_lines.specs.Parts.{gives_stage, begins_interstage, start, next};

use crate::section::{SectionWord, section_named};
use crate::words::cut_word;
use sig_types::text::same_name;

/// What a line is.
#[derive(Clone, Copy)]
pub enum LineKind {
    /// Empty, or a comment.
    Passed,
    /// A section line.
    Begins(SectionWord),
    Row,
}

/// Where a line stands: its number from 1, its section, none before the first, and how many lines up to it give a stage and begin
/// an interstage's section.
#[derive(Clone, Copy)]
pub struct Place {
    pub number: u32,
    pub section: Option<SectionWord>,
    pub stages: u32,
    pub interstages: u32,
}

/// What a line is.
pub(crate) fn kind_of(line: &[u8]) -> LineKind
    ensures { kind_value result ≡ kind_of (words false line.now) }
{
    match cut_word(false, line) {
        None => LineKind::Passed,
        Some((word, _)) => match word.split_first() {
            Some((b'$', rest)) => match section_named(rest) {
                Some(section) => LineKind::Begins(section),
                None => LineKind::Passed,
            },
            _ => LineKind::Row,
        },
    }
}

/// Whether a row of the section of stages gives a stage: one that begins with `red` tells of the stage before it.
pub(crate) fn is_stage_row(line: &[u8]) -> bool
    ensures { result ≡ is_stage_row (words false line.now) }
{
    match cut_word(false, line) {
        Some((word, _)) => !same_name(word, b"red"),
        None => false,
    }
}

// The section in which a line stands, after one of this section.
fn section_after(section: Option<SectionWord>, line: &[u8]) -> Option<SectionWord>
    ensures { section_value result ≡ section_with (section_value section) line.now }
{
    if section == Some(SectionWord::End) {
        return section;
    }
    match kind_of(line) {
        LineKind::Begins(begun) => Some(begun),
        LineKind::Passed | LineKind::Row => section,
    }
}

/// Whether a line of this section is a row that gives a stage.
pub(crate) fn gives_stage(section: Option<SectionWord>, line: &[u8]) -> bool
    ensures { result ≡ gives_stage (section_value section) line.now }
{
    match kind_of(line) {
        LineKind::Row => section == Some(SectionWord::Stages) && is_stage_row(line),
        LineKind::Passed | LineKind::Begins(_) => false,
    }
}

// Whether a line of this section begins it, and it is an interstage's.
fn begins_interstage(section: Option<SectionWord>, line: &[u8]) -> bool
    ensures { result ≡ begins_interstage (section_value section) line.now }
{
    match kind_of(line) {
        LineKind::Begins(_) => section == Some(SectionWord::Interstage),
        LineKind::Passed | LineKind::Row => false,
    }
}

impl Place {
    /// Before the first line.
    pub(crate) fn start() -> Place
        ensures { place_value result ≡ start }
    {
        Place {
            number: 0,
            section: None,
            stages: 0,
            interstages: 0,
        }
    }

    /// Where a line stands that follows one that stands here.
    #[tactic(auto, unfolding(crate::specs::Parts::next))]
    pub(crate) fn next(self, line: &[u8]) -> Place
        requires number { self.number < 2 ^ 32 - 1 }
        requires stages { self.stages ≤ self.number }
        requires interstages { self.interstages ≤ self.number }
        ensures place { place_value result ≡ next (place_value self) line.now }
        ensures number { result.number ≡ self.number + 1 }
        ensures stages { result.stages ≤ result.number }
        ensures interstages { result.interstages ≤ result.number }
    {
        let section = section_after(self.section, line);
        Place {
            number: self.number + 1,
            section,
            stages: self.stages + u32::from(gives_stage(section, line)),
            interstages: self.interstages + u32::from(begins_interstage(section, line)),
        }
    }
}
