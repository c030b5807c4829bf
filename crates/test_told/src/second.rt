// The second of a line that a caller decides.
//
// A line has words parted by one space. Those before its counts say what is asked for besides: `mask`, that the mask is told before
// the second, and `program`, that the second is the program's. Counts are words `DETECTOR:FRONTS:REARS`, and commands words
// `KEY=VALUE`, which `list` reads.
ghost use Rattle.sig_types.specs.Counts.{Takes};
ghost use Rattle.controller.specs.Controls.{StandsFor};
ghost use Rattle.controller.specs.Past.{Past};

use crate::foretold::{are_same, foretold, whole_wishes};
use crate::list::add_line;
use controller::Controller;
use sig_io::{GrowSink, put_all};
use sig_types::Frame;
use signal_log::write_second;
use std::alloc::{AllocError, Global};

// No second has more commands.
const MOST: usize = 10000;

/// Whether a line has a word.
pub fn asks_for(line: &str, asked: &str) -> bool {
    line.split_whitespace().any(|word| word == asked)
}

// The number that a text has; 0 where it has none.
fn count_in(text: Option<&str>) -> u32 {
    match text {
        Some(text) => text.parse::<u32>().unwrap_or(0),
        None => 0,
    }
}

// Puts the counts of a word into a frame, where it has counts.
fn put_word(word: &str, frame: &mut Frame) {
    let mut numbers = word.split(':');
    let detector = count_in(numbers.next());
    let fronts = count_in(numbers.next());
    let rears = count_in(numbers.next());
    if 1 <= detector && detector <= 64 {
        frame.set(detector as u8 - 1, (fronts, rears));
    }
}

// The counts of a line.
fn frame_in(line: &str) -> Frame {
    let mut frame = Frame::empty();
    for word in line.split_whitespace() {
        put_word(word, &mut frame);
    }
    frame
}

// Makes a second by the program, and writes its record.
fn make_own(controller: &mut Controller, frame: &Frame, told: &mut GrowSink)
    requires { (past : Past) × StandsFor controller.old past × Takes past.frames frame.now }
    ensures { (past : Past) × StandsFor controller.new past }
{
    controller.second(frame);
    let _written = write_second(controller.last(), controller.plan(), told);
}

// Makes a second by the commands of a line, and writes its record; or says why there is none, or that the second refused other turns
// than the guard had foretold.
fn make_given(
    alloc: Global,
    controller: &mut Controller,
    frame: &Frame,
    line: &str,
    told: &mut GrowSink,
) -> Result<&'static str, AllocError>
    requires { (past : Past) × StandsFor controller.old past × Takes past.frames frame.now }
    ensures { (past : Past) × StandsFor controller.new past }
{
    let Some(place) = controller.next_place() else {
        return Ok("no second is left\n");
    };
    let mut commands = Vec::new(alloc);
    if !add_line(controller.plan(), place, line, &mut commands)? || MOST < commands.len() {
        return Ok("a command names nothing\n");
    }
    let wishes = whole_wishes(controller.plan(), line);
    let turns = foretold(controller.guard(), &wishes);
    controller.given_second(frame, commands.as_slice());
    let _written = write_second(controller.last(), controller.plan(), told);
    if wishes.is_some() && !are_same(&turns, &controller.last().turns) {
        return Ok("other turns were foretold\n");
    }
    Ok("")
}

/// Makes the second of a line, if it can be made, and writes its record, or why it isn't made.
pub fn make_line(
    alloc: Global,
    controller: &mut Controller,
    line: &str,
    told: &mut GrowSink,
) -> Result<(), AllocError>
    requires { (past : Past) × StandsFor controller.old past }
    ensures { (past : Past) × StandsFor controller.new past }
{
    let frame = frame_in(line);
    let mut said = "the counts are not taken\n";
    if controller.takes(&frame) {
        said = "";
        if asks_for(line, "program") {
            make_own(controller, &frame, told);
        } else {
            said = make_given(alloc, controller, &frame, line, told)?;
        }
    }
    let _said = put_all(told, said.as_bytes());
    Ok(())
}
