// The commands of a line.
//
// A command is `order=A-B`, the stage command from A to B; `stage=S`, that from the stage which is active before the second's
// commands to S; `green=NAME` and `red=NAME`, the wish of a group; `wishes=LETTERS`, a wish of each group by its letter, `G`, `R` or
// `.` for none; `clear_fronts=D` and `clear_rears=D`; or `cycle=N`.
ghost use Rattle.std.specs.Prelude.{All};
ghost use Rattle.controller.specs.Commanded.{IsCommand};
ghost use Rattle.test_told.specs.Asked.{IsAsked};

use pua_model::Plan;
use sig_types::{Command, DetNo, GroupNo, StagePlace};
use std::alloc::AllocError;

/// What a word asks for: a command, none, or one that names nothing.
#[derive(Clone, Copy)]
pub enum Asked {
    Command(Command),
    Nothing,
    Wrong,
}

// The number that a text has; -1, which names nothing, where it has none.
fn number_in(text: &str) -> i32 {
    text.parse::<i32>().unwrap_or(-1)
}

// The stage command between two stages.
fn order_of(plan: &Plan, from: i32, to: i32) -> Asked
    ensures { IsAsked plan.now result }
{
    match (plan.find_stage(from), plan.find_stage(to)) {
        (Some(from), Some(to)) => Asked::Command(Command::Interstage(from, to)),
        _ => Asked::Wrong,
    }
}

// The stage command that a wished stage gives.
fn stage_of(plan: &Plan, place: StagePlace, to: i32) -> Asked
    ensures { IsAsked plan.now result }
{
    match place {
        StagePlace::Stage(active) if i32::from(active.0) != to => {
            order_of(plan, i32::from(active.0), to)
        }
        StagePlace::NoPlan | StagePlace::Stage(_) | StagePlace::Inter { .. } => {
            if plan.find_stage(to).is_some() {
                Asked::Nothing
            } else {
                Asked::Wrong
            }
        }
    }
}

// The wish of a group.
fn wish_of(plan: &Plan, name: &str, is_green: bool) -> Asked
    ensures { IsAsked plan.now result }
{
    match plan.find_name(name.as_bytes()) {
        None => Asked::Wrong,
        Some(group) if is_green => Asked::Command(Command::SgGreen(group)),
        Some(group) => Asked::Command(Command::SgRed(group)),
    }
}

// The command that counts a detector anew.
fn clear_of(plan: &Plan, detector: i32, are_fronts: bool) -> Asked
    ensures { IsAsked plan.now result }
{
    match DetNo::named(detector) {
        None => Asked::Wrong,
        Some(detector) if are_fronts => Asked::Command(Command::ClearFronts(detector)),
        Some(detector) => Asked::Command(Command::ClearRears(detector)),
    }
}

// The command of a cycle.
fn cycle_of(plan: &Plan, seconds: i32) -> Asked
    ensures { IsAsked plan.now result }
{
    if seconds < 0 || 9999 < seconds {
        return Asked::Wrong;
    }
    Asked::Command(Command::SetCycle(seconds as u16))
}

// What a word asks for, by its two parts.
fn asked_by(plan: &Plan, place: StagePlace, key: &str, value: &str) -> Asked
    ensures { IsAsked plan.now result }
{
    match key {
        "order" => match value.split_once('-') {
            Some((from, to)) => order_of(plan, number_in(from), number_in(to)),
            None => Asked::Wrong,
        },
        "stage" => stage_of(plan, place, number_in(value)),
        "green" => wish_of(plan, value, true),
        "red" => wish_of(plan, value, false),
        "clear_fronts" => clear_of(plan, number_in(value), true),
        "clear_rears" => clear_of(plan, number_in(value), false),
        "cycle" => cycle_of(plan, number_in(value)),
        _ => Asked::Wrong,
    }
}

// Adds what is asked for. Answers whether it names something.
fn add_asked(plan: &Plan, asked: Asked, commands: &mut Vec<Command>) -> Result<bool, AllocError>
    requires asked { IsAsked plan.now asked }
    requires named { All (IsCommand plan.now) commands.old.items }
    ensures named { All (IsCommand plan.now) commands.new.items }
{
    match asked {
        Asked::Command(command) => commands.push(command)?,
        Asked::Nothing => {}
        Asked::Wrong => return Ok(false),
    }
    Ok(true)
}

// What a letter asks for of a group.
fn letter_of(plan: &Plan, place: u8, letter: u8) -> Asked
    ensures { IsAsked plan.now result }
{
    if plan.groups() <= place {
        return Asked::Wrong;
    }
    match letter {
        b'G' => Asked::Command(Command::SgGreen(GroupNo(place))),
        b'R' => Asked::Command(Command::SgRed(GroupNo(place))),
        b'.' => Asked::Nothing,
        _ => Asked::Wrong,
    }
}

// Adds a wish for each letter. Answers whether each names something.
fn add_letters(plan: &Plan, letters: &[u8], commands: &mut Vec<Command>) -> Result<bool, AllocError>
    requires named { All (IsCommand plan.now) commands.old.items }
    ensures named { All (IsCommand plan.now) commands.new.items }
{
    let mut place = 0u8;
    for letter in letters {
        if !add_asked(plan, letter_of(plan, place, *letter), commands)? {
            return Ok(false);
        }
        place = place.saturating_add(1);
    }
    Ok(true)
}

// Adds the commands of a word. Answers whether each names something.
fn add_word(
    plan: &Plan,
    place: StagePlace,
    word: &str,
    commands: &mut Vec<Command>,
) -> Result<bool, AllocError>
    requires named { All (IsCommand plan.now) commands.old.items }
    ensures named { All (IsCommand plan.now) commands.new.items }
{
    match word.split_once('=') {
        None => Ok(true),
        Some(("wishes", letters)) => add_letters(plan, letters.as_bytes(), commands),
        Some((key, value)) => add_asked(plan, asked_by(plan, place, key, value), commands),
    }
}

/// Adds the commands of a line in order. Answers whether each names something.
pub fn add_line(
    plan: &Plan,
    place: StagePlace,
    line: &str,
    commands: &mut Vec<Command>,
) -> Result<bool, AllocError>
    requires named { All (IsCommand plan.now) commands.old.items }
    ensures named { All (IsCommand plan.now) commands.new.items }
{
    for word in line.split_whitespace() {
        if !add_word(plan, place, word, commands)? {
            return Ok(false);
        }
    }
    Ok(true)
}
