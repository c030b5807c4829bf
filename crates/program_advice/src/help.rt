// What is told of a change.
ghost use Rattle.std.specs.Prelude.{◌≡◌, ◌++◌, OnOk};
ghost use Rattle.program_advice.specs.Help.{beside_text, change_text, done_text, help_text, is_of_line, is_told_alone, new_text, replaced_text, takes_out, then_text};

use crate::bytes::{between, has_line_end, put, put_shown, run_before, run_behind};
use std::alloc::AllocError;
use vap_repair::{Answer, Edit, Repair};

// What the reader says of the text with a change.
fn then_text(then: Answer) -> &'static [u8]
    ensures { result.now ≡ then_text then }
{
    match then {
        Answer::Program => b": with this the program is accepted",
        Answer::Tree => b": with this only a check refuses it",
        Answer::Unexpected(_) | Answer::Other => b": with this it is refused further on",
    }
}

/// Whether a change is of one line.
pub(crate) fn is_of_line(text: &[u8], edit: &Edit<'_>) -> bool
    ensures { result ≡ is_of_line text.now edit.now }
{
    !(has_line_end(between(text, edit.from, edit.to))
        || has_line_end(edit.first)
        || has_line_end(edit.middle)
        || has_line_end(edit.last))
}

/// Whether a change puts nothing in the place of what it takes out.
pub(crate) fn takes_out(edit: &Edit<'_>) -> bool
    ensures { result ≡ takes_out edit.now }
{
    edit.first.is_empty() && edit.middle.is_empty() && edit.last.is_empty()
}

// Puts what comes in the place of bytes of the text.
#[tactic(auto, unfolding(crate::specs::Help::new_text))]
fn put_new(
    text: &mut Vec<u8>,
    program: &[u8],
    edit: &Edit<'_>,
    from: usize,
    to: usize,
) -> Result<(), AllocError>
    ensures { OnOk result (text.new.items ≡ text.old.items ++ new_text program.now edit.now from to) }
{
    put_shown(text, between(program, from, edit.from))?;
    put_shown(text, edit.first)?;
    put_shown(text, edit.middle)?;
    put_shown(text, edit.last)?;
    put_shown(text, between(program, edit.to, to))
}

// Puts the same between quotes, and that it comes.
#[tactic(auto, unfolding(crate::specs::Help::replaced_text))]
fn put_replaced(
    text: &mut Vec<u8>,
    program: &[u8],
    edit: &Edit<'_>,
    from: usize,
    to: usize,
) -> Result<(), AllocError>
    ensures { OnOk result (text.new.items ≡ text.old.items ++ replaced_text program.now edit.now from to) }
{
    put(text, b"`")?;
    put_new(text, program, edit, from, to)?;
    put(text, b"` in the place of `")
}

// Puts what is done with bytes of the text.
fn put_done(
    text: &mut Vec<u8>,
    program: &[u8],
    edit: &Edit<'_>,
    from: usize,
    to: usize,
) -> Result<(), AllocError>
    ensures { OnOk result (text.new.items ≡ text.old.items ++ done_text program.now edit.now from to) }
{
    if from == edit.from && (to == edit.to && takes_out(edit)) {
        put(text, b"without `")
    } else {
        put_replaced(text, program, edit, from, to)
    }
}

// Puts a change of bytes of the text.
#[tactic(auto, unfolding(crate::specs::Help::change_text))]
fn put_change(
    text: &mut Vec<u8>,
    program: &[u8],
    repair: &Repair<'_>,
    from: usize,
    to: usize,
) -> Result<(), AllocError>
    ensures { OnOk result (text.new.items ≡ text.old.items ++ change_text program.now repair.now from to) }
{
    put_done(text, program, &repair.edit, from, to)?;
    put_shown(text, between(program, from, to))?;
    put(text, b"`")?;
    put(text, then_text(repair.then))
}

// Puts a change with what stands beside it.
fn put_beside(text: &mut Vec<u8>, program: &[u8], repair: &Repair<'_>) -> Result<(), AllocError>
    ensures { OnOk result (text.new.items ≡ text.old.items ++ beside_text program.now repair.now) }
{
    let from = repair.edit.from;
    let to = repair.edit.to;
    put_change(
        text,
        program,
        repair,
        from.saturating_sub(run_before(program, from)),
        to.saturating_add(run_behind(program, to)),
    )
}

// Whether a change takes out bytes before which a blank stands, or a line begins.
fn is_told_alone(program: &[u8], edit: &Edit<'_>) -> bool
    ensures { result ≡ is_told_alone program.now edit.now }
{
    takes_out(edit) && run_before(program, edit.from) == 0
}

/// Puts a change: what stands in the place of what, with what stands beside it, or what is taken out alone; and what the reader says
/// then.
pub(crate) fn put_help(
    text: &mut Vec<u8>,
    program: &[u8],
    repair: &Repair<'_>,
) -> Result<(), AllocError>
    ensures { OnOk result (text.new.items ≡ text.old.items ++ help_text program.now repair.now) }
{
    if is_told_alone(program, &repair.edit) {
        put_change(text, program, repair, repair.edit.from, repair.edit.to)
    } else {
        put_beside(text, program, repair)
    }
}
