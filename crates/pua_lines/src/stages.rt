// The names of the stages of a PUA file.
ghost use Rattle.std.specs.Prelude.{◌≡◌, ◌++◌, ◌<◌, ◌-◌, ◌^◌, length, map, IfOk, OnOk, MatchOption, None, Some};
ghost use Rattle.std.specs.Option.{option_to_list};
ghost use Rattle.pua_lines.specs.Kinds.{place_value};
ghost use Rattle.pua_lines.specs.StageWords as stages_of;
ghost use Rattle.pua_lines.specs.StageWords.{stage_words};

use crate::lines::{first_line, without_mark};
use crate::place::{Place, gives_stage};
use crate::words::first_word;
use std::alloc::{AllocError, Global};

// The first word of a line that stands there, where it gives a stage.
fn stage_word(place: Place, line: &[u8]) -> Option<&[u8]>
    ensures { MatchOption result (stages_of.stage_word (place_value place, line.now) ≡ None)
        (λ w. stages_of.stage_word (place_value place, line.now) ≡ Some w.now) }
{
    if gives_stage(place.section, line) {
        Some(first_word(false, line))
    } else {
        None
    }
}

// Notes the name of the stage that a line gives.
fn note_stage(
    alloc: Global,
    place: Place,
    line: &[u8],
    names: &mut Vec<Vec<u8>>,
) -> Result<(), AllocError>
    ensures { OnOk result (map (λ v. v.items) names.new.items
        ≡ map (λ v. v.items) names.old.items ++ option_to_list (stages_of.stage_word (place_value place, line.now))) }
{
    if let Some(word) = stage_word(place, line) {
        names.push(Vec::from_slice(alloc, word)?)?;
    }
    Ok(())
}

/// The names of the stages of a PUA file, as its rows have them, in their order. A byte order mark at the beginning is passed
/// over. Its one failure is want of memory.
pub fn stage_names(alloc: Global, text: &[u8]) -> Result<Vec<Vec<u8>>, AllocError>
    requires { length text.now < 2 ^ 32 - 1 }
    ensures { IfOk result (λ names. map (λ v. v.items) names.items ≡ stage_words text.now) }
{
    let mut names = Vec::new(alloc);
    let mut rest = without_mark(text);
    let mut place = Place::start();
    while !rest.is_empty() {
        let (line, more) = first_line(rest);
        place = place.next(line);
        note_stage(alloc, place, line, &mut names)?;
        rest = more;
    }
    Ok(names)
}
