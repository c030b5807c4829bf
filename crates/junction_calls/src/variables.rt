// The variables and the timers of a program.
ghost use Rattle.std.specs.Prelude.{◌≡◌, IfOk, length};
ghost use Rattle.vap_ast.specs.Tree.{program_of};
ghost use Rattle.std.specs.Option.{option_copied};
ghost use Rattle.std.specs.List.{slice_get};
ghost use Rattle.junction_calls.specs.Variables.{names_in, names_text, AreNamesTold, IsCountTold, IsValueTold};

use crate::copy::copy_text;
use crate::handle::{Junction, keep, take};
use junction_run::{LoadStop, judge_source};
use std::alloc::{AllocError, Global};
use vap_ast::Name;
use vap_check::Checked;

/// What a program's names are of.
#[derive(Clone, Copy, PartialEq, Eq)]
pub enum NamesOf {
    Variables,
    Timers,
}

// Frees a program. A value that goes out of scope is freed part by part in each way out of its function, and each part is a step of the
// function's proof; by this a way out has one step.
fn free_checked(_checked: Checked) {}

// How many names there are.
fn count_of(of: NamesOf, checked: &Checked) -> u16
    ensures { result ≡ length (names_in of (program_of checked.now.tree)) }
{
    match of {
        NamesOf::Variables => checked.variables(),
        NamesOf::Timers => checked.timers(),
    }
}

// The name of that number.
fn name_of(of: NamesOf, checked: &Checked, number: usize) -> Option<&Name>
    ensures { option_copied result ≡ slice_get (names_in of (program_of checked.now.tree)) number }
{
    match of {
        NamesOf::Variables => checked.variable_name(number),
        NamesOf::Timers => checked.timer_name(number),
    }
}

// The names of a checked program, each with a line feed behind it.
fn names_of(alloc: Global, of: NamesOf, checked: &Checked) -> Result<Vec<u8>, AllocError>
    ensures { IfOk result (λ text. text.items ≡ names_text of (program_of checked.now.tree)) }
{
    let mut text = Vec::new(alloc);
    for number in 0..usize::from(count_of(of, checked)) {
        if let Some(name) = name_of(of, checked, number) {
            text.extend_from_slice(name.bytes())?;
            text.push(b'\n')?;
        }
    }
    Ok(text)
}

/// Copies the names of a program's variables, or of its timers, each with a line feed behind it, as much as fits, and tells their
/// whole length. 0: they are copied; 1: memory was wanted; 5: the text is no program, or too long for one.
pub fn tell_names(
    alloc: Global,
    of: NamesOf,
    program: &[u8],
    names: &mut [u8],
    length: &mut usize,
) -> u32
    ensures { AreNamesTold of program.now names.old names.new length.old length.new result }
{
    if program.len() > 1048576 {
        return 5;
    }
    let checked = match judge_source(alloc, program, "program") {
        Ok(checked) => checked,
        Err(LoadStop::Refused { .. }) => return 5,
        Err(LoadStop::Memory | LoadStop::ReadFault(_) | LoadStop::TooLong(_)) => return 1,
    };
    match names_of(alloc, of, &checked) {
        Ok(text) => {
            free_checked(checked);
            *length = copy_text(&text, names);
            0
        }
        Err(_) => {
            free_checked(checked);
            1
        }
    }
}

/// Tells the value of the variable of that number after the last second. 0: it is told; 4: there is none of that number, or the
/// handle holds nothing.
pub fn variable_value(handle: &mut Junction, alloc: Global, number: usize, value: &mut i32) -> u32
    ensures same { handle.new.value ≡ handle.old.value }
    ensures value { IsValueTold handle.old.value number result value.old value.new }
{
    match take(handle, alloc) {
        None => 4,
        Some(controller) => {
            let found = controller.vm().variables().get(number).copied();
            *handle = keep(controller);
            match found {
                Some(found) => {
                    *value = found;
                    0
                }
                None => 4,
            }
        }
    }
}

/// Tells the seconds that the timer of that number counted up to the last second. 0: they are told; 4: there is none of that number,
/// or the handle holds nothing.
pub fn timer_count(handle: &mut Junction, alloc: Global, number: usize, count: &mut u32) -> u32
    ensures same { handle.new.value ≡ handle.old.value }
    ensures count { IsCountTold handle.old.value number result count.old count.new }
{
    match take(handle, alloc) {
        None => 4,
        Some(controller) => {
            let found = controller.vm().timers().get(number).copied();
            *handle = keep(controller);
            match found {
                Some(found) => {
                    *count = found.count;
                    0
                }
                None => 4,
            }
        }
    }
}
