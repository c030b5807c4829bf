//! What another program calls: load a junction, make its seconds by its program or by commands of the caller, ask what the second
//! that comes would refuse, for what seconds told in lists and for a variable's value, end it.
#![tactic(auto)]

ghost use Rattle.std.specs.Prelude.{◌≡◌, None};
ghost use Rattle.junction_run.specs.Form.{ProgramFile, CodeFile};
ghost use Rattle.junction_calls.specs.Numbers.{IsPlaying};
ghost use Rattle.junction_calls.specs.Seconds.{IsSecondMade};
ghost use Rattle.junction_calls.specs.Drives.{IsGivenMade};
ghost use Rattle.junction_calls.specs.Loads.{IsLoaded, source_name};
ghost use Rattle.junction_calls.specs.Masked.{IsMaskTold};
ghost use Rattle.junction_calls.specs.Named.{IsGroupName, IsStageTold};
ghost use Rattle.junction_calls.specs.Variables.{AreNamesTold, IsCountTold, IsValueTold};
ghost use Rattle.junction_calls.specs.declared.variables.NamesOf.TheVariants.{Timers, Variables};

use junction_calls::{
    ActionMask, DetectorCounts, GivenCommands, Junction, NamesOf, Refusal, RefusedStage, Told,
    group_name, load_into, make_given_second, make_second, refused_stage, take, tell_mask,
    tell_names, timer_count, variable_value,
};
use junction_run::Source;
use std::alloc::Global;

/// Frees what a handle holds.
#[unsafe(no_mangle)]
pub extern "C" fn junction_c_end(alloc: Global, handle: &mut Junction)
    ensures { handle.new.value ≡ None }
{
    let _ended = take(handle, alloc);
}

/// Puts the controller of a site and its program into a handle, whose former one is freed. It answers an exit status of `run`: 0
/// where the handle holds a controller, before its first second; 1 where memory was wanted; 5 or 7 where a text is refused. Then
/// the handle holds nothing, `note` has the beginning of `run`'s note, and `refusal` its length, the text and the line.
#[unsafe(no_mangle)]
pub extern "C" fn junction_c_load(
    alloc: Global,
    handle: &mut Junction,
    program: &[u8],
    plan: &[u8],
    times: &[u8],
    intergreens: &[u8],
    note: &mut [u8],
    refusal: &mut Refusal,
) -> u32
    ensures loaded { IsLoaded (ProgramFile source_name)
        (record { program = program.now; plan = plan.now; times = times.now; intergreens = intergreens.now })
        result handle.new.value note.old note.new refusal.old refusal.new }
    ensures playing { IsPlaying handle.new.value }
{
    load_into(
        alloc,
        &Source::Program("program"),
        handle,
        program,
        plan,
        times,
        intergreens,
        note,
        refusal,
    )
}

/// The same of a code file in the place of a program, as `exec` takes it.
#[unsafe(no_mangle)]
pub extern "C" fn junction_c_load_code(
    alloc: Global,
    handle: &mut Junction,
    code: &[u8],
    plan: &[u8],
    times: &[u8],
    intergreens: &[u8],
    note: &mut [u8],
    refusal: &mut Refusal,
) -> u32
    ensures loaded { IsLoaded (CodeFile source_name)
        (record { program = code.now; plan = plan.now; times = times.now; intergreens = intergreens.now })
        result handle.new.value note.old note.new refusal.old refusal.new }
    ensures playing { IsPlaying handle.new.value }
{
    load_into(
        alloc,
        &Source::Code("program"),
        handle,
        code,
        plan,
        times,
        intergreens,
        note,
        refusal,
    )
}

/// Makes a second. 0: it was made and is told. 3: the counts are not taken, and nothing has changed. 4: the handle holds nothing.
///
/// It takes no memory and waits for nothing.
#[unsafe(no_mangle)]
pub extern "C" fn junction_c_second(
    alloc: Global,
    handle: &mut Junction,
    counts: &DetectorCounts,
    told: &mut Told,
) -> u32
    requires { IsPlaying handle.old.value }
    ensures second { IsSecondMade result counts.now handle.old.value handle.new.value told.old told.new }
    ensures playing { IsPlaying handle.new.value }
{
    match make_second(handle, alloc, counts, told) {
        None => 4,
        Some(false) => 3,
        Some(true) => 0,
    }
}

/// Makes a second whose commands are given in the place of the program's. 0: it was made and is told. 3: the counts are not taken.
/// 4: the handle holds nothing. 9: the counts are taken, and a command names no stage or group. Where it isn't 0 nothing has
/// changed. It takes no memory and waits for nothing.
#[unsafe(no_mangle)]
pub extern "C" fn junction_c_given_second(
    alloc: Global,
    handle: &mut Junction,
    counts: &DetectorCounts,
    commands: &GivenCommands,
    told: &mut Told,
) -> u32
    requires { IsPlaying handle.old.value }
    ensures second { IsGivenMade result counts.now commands.now handle.old.value handle.new.value told.old told.new }
    ensures playing { IsPlaying handle.new.value }
{
    make_given_second(handle, alloc, counts, commands, told)
}

/// Tells what the second that comes would refuse. 0: it is told. 3: no second is left. 4: the handle holds nothing.
#[unsafe(no_mangle)]
pub extern "C" fn junction_c_mask(
    alloc: Global,
    handle: &mut Junction,
    mask: &mut ActionMask,
) -> u32
    requires { IsPlaying handle.old.value }
    ensures same { handle.new.value ≡ handle.old.value }
    ensures told { IsMaskTold handle.old.value result mask.old mask.new }
{
    tell_mask(handle, alloc, mask)
}

/// Tells the refused stage command of the last second at that place. 0: it is told; 4: there is none, or the handle holds nothing.
#[unsafe(no_mangle)]
pub extern "C" fn junction_c_refused_stage(
    alloc: Global,
    handle: &mut Junction,
    place: usize,
    told: &mut RefusedStage,
) -> u32
    ensures same { handle.new.value ≡ handle.old.value }
    ensures told { IsStageTold handle.old.value place result told.old told.new }
{
    refused_stage(handle, alloc, place, told)
}

/// Copies the name of the group at that place, as much as fits, and answers its length; 0 if there is none.
#[unsafe(no_mangle)]
pub extern "C" fn junction_c_group_name(
    alloc: Global,
    handle: &mut Junction,
    place: u8,
    name: &mut [u8],
) -> usize
    ensures same { handle.new.value ≡ handle.old.value }
    ensures name { IsGroupName handle.old.value place result name.old name.new }
{
    group_name(handle, alloc, place, name)
}

/// Copies the names of a program's variables in the order of their numbers, each with a line feed behind it, as much as fits, and
/// tells their whole length. 0: they are copied; 1: memory was wanted; 5: the text is no program, or too long for one.
#[unsafe(no_mangle)]
pub extern "C" fn junction_c_variable_names(
    alloc: Global,
    program: &[u8],
    names: &mut [u8],
    length: &mut usize,
) -> u32
    ensures { AreNamesTold Variables program.now names.old names.new length.old length.new result }
{
    tell_names(alloc, NamesOf::Variables, program, names, length)
}

/// The same of the names of its timers.
#[unsafe(no_mangle)]
pub extern "C" fn junction_c_timer_names(
    alloc: Global,
    program: &[u8],
    names: &mut [u8],
    length: &mut usize,
) -> u32
    ensures { AreNamesTold Timers program.now names.old names.new length.old length.new result }
{
    tell_names(alloc, NamesOf::Timers, program, names, length)
}

/// Tells the value of the variable of that number after the last second. 0: it is told; 4: there is none of that number, or the
/// handle holds nothing.
#[unsafe(no_mangle)]
pub extern "C" fn junction_c_variable_value(
    alloc: Global,
    handle: &mut Junction,
    number: usize,
    value: &mut i32,
) -> u32
    ensures same { handle.new.value ≡ handle.old.value }
    ensures value { IsValueTold handle.old.value number result value.old value.new }
{
    variable_value(handle, alloc, number, value)
}

/// Tells the seconds that the timer of that number counted up to the last second. 0: they are told; 4: there is none of that number,
/// or the handle holds nothing.
#[unsafe(no_mangle)]
pub extern "C" fn junction_c_timer_count(
    alloc: Global,
    handle: &mut Junction,
    number: usize,
    count: &mut u32,
) -> u32
    ensures same { handle.new.value ≡ handle.old.value }
    ensures count { IsCountTold handle.old.value number result count.old count.new }
{
    timer_count(handle, alloc, number, count)
}
