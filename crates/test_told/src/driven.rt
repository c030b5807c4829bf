// Seconds that a caller decides by any list of commands, or leaves to the program: their log, and the masks before those of them that
// ask for it.
ghost use Rattle.std.specs.Prelude.{◌≡◌};
ghost use Rattle.junction_calls.specs.Numbers.{IsPlaying};

use crate::masks::{put_mask, untold};
use crate::second::{asks_for, make_line};
use junction_calls::{Junction, empty, keep, load_into, take, tell_mask};
use sig_io::{Files, GrowSink, put_all};
use signal_log::write_header;
use std::alloc::{AllocError, Global};
use test_calls::logs::{NO_REFUSAL, let_go, source_of, text_of};

// Puts the mask of what a handle holds.
fn put_next(alloc: Global, handle: &mut Junction, told: &mut GrowSink) -> Result<(), AllocError>
    requires { IsPlaying handle.old.value }
    ensures { handle.new.value ≡ handle.old.value }
{
    let mut mask = untold();
    if tell_mask(handle, alloc, &mut mask) != 0 {
        return Ok(());
    }
    let mut text = String::new(alloc);
    match take(handle, alloc) {
        None => Ok(()),
        Some(controller) => {
            let second = controller.last().second.0.saturating_add(1);
            let put = put_mask(second, controller.plan(), &mask, &mut text);
            *handle = keep(controller);
            let _put = put_all(told, text.as_bytes());
            put
        }
    }
}

// Puts the header of the log of what a handle holds. Answers whether it holds something.
fn begin(alloc: Global, handle: &mut Junction, told: &mut GrowSink) -> bool
    ensures { handle.new.value ≡ handle.old.value }
{
    match take(handle, alloc) {
        None => false,
        Some(controller) => {
            let written = write_header(controller.plan(), told);
            *handle = keep(controller);
            written.is_ok()
        }
    }
}

// Makes the second of a line, if it can be made.
fn play_line(
    alloc: Global,
    handle: &mut Junction,
    line: &str,
    told: &mut GrowSink,
) -> Result<(), AllocError>
    requires { IsPlaying handle.old.value }
    ensures { IsPlaying handle.new.value }
{
    match take(handle, alloc) {
        None => Ok(()),
        Some(mut controller) => {
            let made = make_line(alloc, &mut controller, line, told);
            *handle = keep(controller);
            made
        }
    }
}

// Plays all lines.
fn play(
    alloc: Global,
    handle: &mut Junction,
    lines: &[u8],
    told: &mut GrowSink,
) -> Result<(), AllocError>
    requires { IsPlaying handle.old.value }
{
    let lines = lines.strip_suffix(b"\n").unwrap_or(lines);
    for line in lines.split(|byte| *byte == b'\n') {
        let line = String::from_utf8_lossy(alloc, line)?;
        if asks_for(line.as_str(), "mask") {
            put_next(alloc, handle, told)?;
        }
        play_line(alloc, handle, line.as_str(), told)?;
    }
    Ok(())
}

// A handle that holds the junction of a program, a PUA file, times and intergreens; or nothing, where one is refused.
fn load<F: Files>(alloc: Global, names: &[String], files: &mut F) -> Junction
    ensures { IsPlaying result.value }
{
    let mut handle = empty();
    let mut refusal = NO_REFUSAL;
    if let [program, plan, times, intergreens, ..] = names {
        let program = text_of(alloc, files, program.as_str());
        let plan = text_of(alloc, files, plan.as_str());
        let times = text_of(alloc, files, times.as_str());
        let intergreens = text_of(alloc, files, intergreens.as_str());
        let _status = load_into(
            alloc,
            &source_of(false),
            &mut handle,
            &program,
            &plan,
            &times,
            &intergreens,
            &mut [],
            &mut refusal,
        );
    }
    handle
}

/// Tells the log of seconds, by a program, a PUA file, times, intergreens and lines of commands. Answers whether these are taken.
pub fn tell_driven<F: Files>(
    alloc: Global,
    names: &[String],
    files: &mut F,
    told: &mut GrowSink,
) -> Result<bool, AllocError> {
    let Some(lines) = names.get(4) else {
        return Ok(false);
    };
    let mut handle = load(alloc, names, files);
    if !begin(alloc, &mut handle, told) {
        return Ok(false);
    }
    let lines = text_of(alloc, files, lines.as_str());
    let played = play(alloc, &mut handle, &lines, told);
    let_go(alloc, &mut handle);
    played?;
    Ok(true)
}
