// What is told of a program that its reader refuses.
ghost use Rattle.std.specs.Prelude.{◌≡◌, ◌≤◌, IfOk, IfSome, MatchOption, length};
ghost use Rattle.program_advice.specs.Advice.{IsAdvice, IsAdviceOf, IsToldAt, IsToldIn, IsToldOf, IsPlace, IsUntold, IsUntoldIn};
ghost use Rattle.program_advice.specs.Advice.{help_told, is_of_program, is_out_before, means_told, range_of_byte, range_of_edit, range_of_gap, range_of_meant, range_told};

use crate::behind::wanted_behind;
use crate::bytes::{blanks_before, blanks_behind, column_of, line_of};
use crate::help::{is_of_line, put_help, takes_out};
use crate::sentence::{meant_range, sentence};
use crate::token::tokens_before;
use std::alloc::{AllocError, Global};
use vap_lex::{LexRefusal, Token, tokens};
use vap_parse::{Reason, first_refused};
use vap_repair::{Answer, Edit, Repair, find_repair};

/// What is told of a refused program. A text is empty where there is nothing to tell.
#[derive(Drop)]
pub struct Advice {
    /// What stands at the first refused token, and what could stand there.
    pub means: Vec<u8>,
    /// A change with which the reader takes the program, or refuses it further on.
    pub help: Vec<u8>,
    /// The line of what is meant, from 1; 0 where it isn't known.
    pub line: u32,
    /// The bytes of the line that are meant: from this one,
    pub from: usize,
    /// and up to that one.
    pub to: usize,
}

/// What is told of a token, and the bytes that are meant.
#[derive(Drop)]
pub(crate) struct Meant {
    pub(crate) means: Vec<u8>,
    pub(crate) range: (usize, usize),
}

// The most tokens before a refused one of which what could stand there is asked.
const MOST_TOKENS: usize = 100_000;

// What is told of the token at a place.
fn told_at(alloc: Global, text: &[u8], tokens: &[Token], at: usize) -> Result<Meant, AllocError>
    ensures { IfOk result (IsToldAt text.now tokens.now at) }
{
    let wanted = wanted_behind(alloc, tokens_before(tokens, at))?;
    let means = sentence(alloc, text, tokens, at, &wanted.kinds, wanted.aspect)?;
    let range = meant_range(text, tokens, at, &wanted.kinds);
    Ok(Meant { means, range })
}

// What is told of tokens.
fn told_in(alloc: Global, text: &[u8], tokens: &[Token]) -> Result<Option<Meant>, AllocError>
    ensures { IfOk result (λ found. MatchOption found (IsUntoldIn tokens.now) (IsToldIn text.now tokens.now)) }
{
    match first_refused(alloc, tokens)? {
        Some(refused) => match refused.why {
            Reason::Unexpected => {
                if refused.at <= MOST_TOKENS {
                    let meant = told_at(alloc, text, tokens, refused.at)?;
                    Ok(Some(meant))
                } else {
                    Ok(None)
                }
            }
            Reason::Frequency | Reason::TooDeep => Ok(None),
        },
        None => Ok(None),
    }
}

// What is told of a text.
fn told_of(alloc: Global, text: &[u8]) -> Result<Option<Meant>, AllocError>
    requires { length text.now ≤ 1048576 }
    ensures { IfOk result (λ found. MatchOption found (IsUntold text.now) (IsToldOf text.now)) }
{
    match tokens(alloc, text) {
        Ok(tokens) => told_in(alloc, text, tokens.as_slice()),
        Err(LexRefusal::Memory) => Err(AllocError),
        Err(LexRefusal::At { line: _, why: _ }) => Ok(None),
    }
}

// Where the line feed stands that ends the line of a place; the end of the text, where none does.
fn line_end(text: &[u8], place: usize) -> usize {
    for at in place..text.len() {
        if text[at] == b'\n' {
            return at;
        }
    }
    text.len()
}

// Where a line begins.
fn line_begin(text: &[u8], line: u32) -> usize {
    let mut now = 1u32;
    for (at, b) in text.iter().enumerate() {
        if now == line {
            return at;
        }
        if *b == b'\n' {
            now = now.saturating_add(1);
        }
    }
    text.len()
}

// Where a text is refused: at a place, or in a line.
fn refused_range(text: &[u8], line: u32, place: Option<u32>) -> (usize, usize) {
    match place {
        Some(place) => (place as usize, place as usize),
        None => {
            let from = line_begin(text, line);
            (from, line_end(text, from).max(from.saturating_add(1)))
        }
    }
}

// Whether with a change the text is a program.
fn is_of_program(then: Answer) -> bool
    ensures { result ≡ is_of_program then }
{
    match then {
        Answer::Program => true,
        Answer::Tree | Answer::Unexpected(_) | Answer::Other => false,
    }
}

// One byte of a text.
fn range_of_byte(place: usize) -> (usize, usize)
    ensures { result ≡ range_of_byte place }
{
    (place, place.saturating_add(1))
}

// The byte behind what stands before a place in its line; the one at the place, where nothing does.
fn range_of_gap(text: &[u8], place: usize) -> (usize, usize)
    ensures { result ≡ range_of_gap text.now place }
{
    let blanks = blanks_before(text, place);
    if blanks == column_of(text, place) {
        range_of_byte(place)
    } else {
        range_of_byte(place.saturating_sub(blanks))
    }
}

// Whether a change takes out what stands before these bytes, with blanks between.
fn is_out_before(text: &[u8], range: (usize, usize), edit: &Edit<'_>) -> bool
    ensures { result ≡ is_out_before text.now range edit.now }
{
    takes_out(edit) && edit.to.saturating_add(blanks_behind(text, edit.to)) == range.0
}

// The bytes that a change is of, where these are meant of a token: of one that puts in the byte behind what stands before it in its
// line, and of one that takes out what stands before the token both.
fn range_of_edit(text: &[u8], meant: (usize, usize), edit: &Edit<'_>) -> (usize, usize)
    ensures { result ≡ range_of_edit text.now meant edit.now }
{
    if edit.from == edit.to {
        range_of_gap(text, edit.from)
    } else if is_out_before(text, meant, edit) {
        (edit.from, meant.1)
    } else {
        (edit.from, edit.to)
    }
}

// The bytes that are meant of a token.
fn range_of_meant(meant: &Option<Meant>) -> (usize, usize)
    ensures { result ≡ range_of_meant meant.now }
{
    match meant {
        Some(meant) => meant.range,
        None => (0, 0),
    }
}

// The bytes that are meant: those of a change of one line that makes a program of the text, or else of a token.
fn range_told(text: &[u8], meant: &Option<Meant>, repair: &Option<Repair<'_>>) -> (usize, usize)
    ensures { result ≡ range_told text.now meant.now repair.now }
{
    match repair {
        Some(repair) => {
            if is_of_line(text, &repair.edit) && is_of_program(repair.then) {
                range_of_edit(text, range_of_meant(meant), &repair.edit)
            } else {
                range_of_meant(meant)
            }
        }
        None => range_of_meant(meant),
    }
}

// What is told of a change.
fn help_told(alloc: Global, text: &[u8], repair: &Option<Repair<'_>>) -> Result<Vec<u8>, AllocError>
    ensures { IfOk result (λ v. v.items ≡ help_told text.now repair.now) }
{
    let mut help = Vec::new(alloc);
    if let Some(repair) = repair {
        if is_of_line(text, &repair.edit) {
            put_help(&mut help, text, repair)?;
        }
    }
    Ok(help)
}

// What is told of a token.
fn means_told(alloc: Global, meant: Option<Meant>) -> Vec<u8>
    ensures { result.items ≡ means_told meant }
{
    match meant {
        Some(meant) => meant.means,
        None => Vec::new(alloc),
    }
}

// Texts at the bytes that are meant.
fn advice_at(text: &[u8], means: Vec<u8>, help: Vec<u8>, range: (usize, usize)) -> Advice
    requires { length text.now ≤ 1048576 }
    ensures means { result.means.items ≡ means.items }
    ensures help { result.help.items ≡ help.items }
    ensures place { IsPlace text.now range result.line result.from result.to }
{
    if range.0 == range.1 {
        return Advice {
            means,
            help,
            line: 0,
            from: 0,
            to: 0,
        };
    }
    let from = column_of(text, range.0);
    Advice {
        means,
        help,
        line: line_of(text, range.0),
        from,
        to: from.saturating_add(range.1.saturating_sub(range.0)),
    }
}

// What is told of a token and a change.
fn advice_of(
    alloc: Global,
    text: &[u8],
    meant: Option<Meant>,
    repair: &Option<Repair<'_>>,
) -> Result<Advice, AllocError>
    requires { length text.now ≤ 1048576 }
    ensures { IfOk result (IsAdviceOf text.now meant repair.now) }
{
    let range = range_told(text, &meant, repair);
    let help = help_told(alloc, text, repair)?;
    Ok(advice_at(text, means_told(alloc, meant), help, range))
}

/// What is told of a program that is refused at a place, or in a line.
pub fn advise(
    alloc: Global,
    text: &[u8],
    line: u32,
    place: Option<u32>,
) -> Result<Advice, AllocError>
    requires { length text.now ≤ 1048576 }
    ensures { IfOk result (IsAdvice text.now) }
{
    let meant = told_of(alloc, text)?;
    let (from, to) = refused_range(text, line, place);
    let repair = find_repair(alloc, text, from, to)?;
    let advice = advice_of(alloc, text, meant, &repair)?;
    Ok(advice)
}
