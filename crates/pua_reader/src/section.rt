// The sections of a file.
ghost use Rattle.std.specs.Prelude.{◌≡◌, map};
ghost use Rattle.std.specs.List.{list_all};
ghost use Rattle.sig_types.specs.Text.{is_digit};
ghost use Rattle.pua_reader.specs.Words.{section_named, kind_of_word, kind_of, may_follow, is_interstage_word};

use sig_types::text::{is_digit, same_name};

/// The sections, in their order.
#[derive(Clone, Copy, PartialEq, Eq)]
pub enum Section {
    /// No section line was met.
    Before,
    Groups,
    Stages,
    Start,
    Interstage,
    End,
}

/// What a line is.
#[derive(Clone, Copy, PartialEq, Eq)]
pub enum Kind {
    /// Empty, or a comment.
    Passed,
    /// A section line.
    Begins(Section),
    Row,
}

fn are_digits(bytes: &[u8]) -> bool
    ensures { result ≡ list_all is_digit bytes.now }
{
    bytes.iter().all(|b| is_digit(*b))
}

// `interstage`, also with digits right after it.
fn is_interstage(word: &[u8]) -> bool
    ensures { result ≡ is_interstage_word word.now }
{
    if word.len() < 10 {
        return false;
    }
    let (front, rest) = word.split_at(10);
    same_name(front, b"interstage") && are_digits(rest)
}

// The section that a word after `$` begins.
#[tactic(auto, unfolding(crate::specs::Words::section_named))]
fn section_named(word: &[u8]) -> Option<Section>
    ensures { result ≡ section_named word.now }
{
    if same_name(word, b"signal_groups") {
        Some(Section::Groups)
    } else if same_name(word, b"stages") {
        Some(Section::Stages)
    } else if same_name(word, b"starting_stage") {
        Some(Section::Start)
    } else if is_interstage(word) {
        Some(Section::Interstage)
    } else if same_name(word, b"end") {
        Some(Section::End)
    } else {
        None
    }
}

fn kind_of_word(word: &[u8]) -> Kind
    ensures { result ≡ kind_of_word word.now }
{
    match word.split_first() {
        Some((b'$', rest)) => match section_named(rest) {
            Some(section) => Kind::Begins(section),
            None => Kind::Passed,
        },
        _ => Kind::Row,
    }
}

/// The kind of the line with these words.
pub(crate) fn kind_of(words: &[&[u8]]) -> Kind
    ensures { result ≡ kind_of (map (λ w. w.now) words.now) }
{
    if words.is_empty() {
        return Kind::Passed;
    }
    kind_of_word(words[0])
}

/// Whether the section may stand right after the other.
pub(crate) fn may_follow(before: Section, section: Section) -> bool
    ensures { result ≡ may_follow before section }
{
    match before {
        Section::Before => section == Section::Groups,
        Section::Groups => section == Section::Stages,
        Section::Stages => section == Section::Start,
        Section::Start | Section::Interstage => section == Section::Interstage
            || section == Section::End,
        Section::End => false,
    }
}
