// Sections that stand behind the section END of a PUA file.
ghost use Rattle.std.specs.Prelude.{◌≡◌, ◌<◌, ◌-◌, ◌^◌, length, false};
ghost use Rattle.pua_reader.specs.PlanDraft as draft;
ghost use Rattle.pua_reader.specs.Words.{words, kind_of};
ghost use Rattle.pua_lines.specs.BehindEnd as behind;
ghost use Rattle.pua_lines.specs.BehindEnd.{behind_end};
ghost use Rattle.pua_lines.specs.Kinds.{place_value, section_value};

use crate::lines::{first_line, without_mark};
use crate::place::{LineKind, Place, kind_of};
use crate::section::SectionWord;
use crate::spot::Spot;
use crate::words::first_spot;

// Whether the section is END.
fn is_over(section: Option<SectionWord>) -> bool
    ensures { result ≡ draft.is_over (section_value section) }
{
    match section {
        Some(SectionWord::End) => true,
        Some(SectionWord::SignalGroups)
        | Some(SectionWord::Stages)
        | Some(SectionWord::StartingStage)
        | Some(SectionWord::Interstage)
        | None => false,
    }
}

// Whether a line has a section word other than END.
fn begins_other(line: &[u8]) -> bool
    ensures { result ≡ behind.begins_other (kind_of (words false line.now)) }
{
    match kind_of(line) {
        LineKind::Begins(section) => !is_over(Some(section)),
        LineKind::Passed | LineKind::Row => false,
    }
}

// Whether a line that stands there stands behind the beginning of END, and has another section word.
fn is_behind_end(place: Place, line: &[u8]) -> bool
    ensures { result ≡ behind.is_behind_end (place_value place, line.now) }
{
    is_over(place.section) && begins_other(line)
}

/// The first word of the first line behind END that has another section word: nothing is read there. Lines are counted from 1, and
/// a byte order mark at the beginning is passed over.
pub fn section_behind_end(text: &[u8]) -> Option<Spot>
    requires { length text.now < 2 ^ 32 - 1 }
    ensures { result ≡ behind_end text.now }
{
    let mut rest = without_mark(text);
    let mut place = Place::start();
    while !rest.is_empty() {
        let (line, more) = first_line(rest);
        place = place.next(line);
        if is_behind_end(place, line) {
            return Some(first_spot(place.number, line));
        }
        rest = more;
    }
    None
}
