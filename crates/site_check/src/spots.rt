// Where the names and the numbers of a program stand in its text.
ghost use Rattle.std.specs.Prelude.{◌≡◌, ◌≤◌, ◌<◌, ◌&&◌, ◌∷◌, ℕ, List, IfSome, false, length, slice_index_or};
ghost use Rattle.std.specs.Option.{option_copied};
ghost use Rattle.site_check.specs.Columns.{AreColumns};
ghost use Rattle.site_check.specs.Firsts.{AreFirsts, IsNamed, IsNamedAt, no_token};
ghost use Rattle.site_check.specs.Marks.{AreMarksOf};
ghost use Rattle.site_check.specs.Spots.{argument_place, argument_spot, begins_call, call_at, call_meant, call_spot, call_word};
ghost use Rattle.site_check.specs.Spots.{command_word, first_call, first_spot, is_longer, is_name, is_open, is_token_of, is_word};
ghost use Rattle.site_check.specs.Spots.{is_of_word, meant_call, meant_spot};
ghost use Rattle.site_check.specs.Spots.{name_spot, named_spot, reading_word, span_spot, token_spot, token_value, warned_spot};
ghost use Rattle.site_check.specs.Statements.{lines_of};

use crate::arguments::{argument_in, is_longer};
use crate::marks::Marks;
use crate::places::word_at;
use crate::program::Judged;
use program_check::{CallKind, Meant, ProgramWarning, Warned, constant_value};
use pua_lines::Spot;
use sig_types::{CommandKind, ReadingKind};
use vap_check::Checked;
use vap_lex::{Sign, Token, TokenKind};

// The word of a command or a reading, in lower case.
fn word(kind: CallKind) -> &'static [u8]
    ensures { result.now ≡ call_word kind }
{
    match kind {
        CallKind::Command(kind) => command_word(kind),
        CallKind::Reading(kind) => reading_word(kind),
    }
}

fn command_word(kind: CommandKind) -> &'static [u8]
    ensures { result.now ≡ command_word kind }
{
    match kind {
        CommandKind::Interstage => b"interstage",
        CommandKind::SgGreen => b"sg_green",
        CommandKind::SgRed => b"sg_red",
        CommandKind::ClearFronts => b"clear_front_ends",
        CommandKind::ClearRears => b"clear_rear_ends",
        CommandKind::SetCycle => b"set_cycle",
    }
}

fn reading_word(kind: ReadingKind) -> &'static [u8]
    ensures { result.now ≡ reading_word kind }
{
    match kind {
        ReadingKind::Detection => b"detection",
        ReadingKind::Occupancy => b"occupancy",
        ReadingKind::Headway => b"headway",
        ReadingKind::FrontEnds => b"front_ends",
        ReadingKind::RearEnds => b"rear_ends",
        ReadingKind::IsRed
        | ReadingKind::IsRedAmber
        | ReadingKind::IsGreen
        | ReadingKind::IsAmber => b"current_state",
        ReadingKind::TGreen => b"t_green",
        ReadingKind::TRed => b"t_red",
        ReadingKind::StageActive => b"stage_active",
        ReadingKind::StageDuration => b"stage_duration",
        ReadingKind::InterstageActive => b"interstage_active",
        ReadingKind::AnyInterstage => b"any_interstage_active",
        ReadingKind::CycleSecond => b"t",
        ReadingKind::CycleLength => b"tc",
    }
}

fn is_word(token: &Token, bytes: &[u8]) -> bool
    ensures { result ≡ is_word bytes.now token.now.kind }
{
    match &token.kind {
        TokenKind::Word(name) => name.bytes() == bytes,
        TokenKind::Number(_) | TokenKind::Sign(_) => false,
    }
}

fn is_open(token: &Token) -> bool
    ensures { result ≡ is_open token.now.kind }
{
    match &token.kind {
        TokenKind::Sign(sign) => *sign == Sign::Open,
        TokenKind::Word(_) | TokenKind::Number(_) => false,
    }
}

// Whether a token in this line or a later one is this word.
fn is_name(token: &Token, line: u32, bytes: &[u8]) -> bool
    ensures { result ≡ is_name line bytes.now token.now }
{
    token.line >= line && is_word(token, bytes)
}

// The value of a token that is a number or a constant.
fn token_value(checked: &Checked, token: &Token) -> Option<i32>
    ensures { result ≡ token_value checked.now.names token.now.kind }
{
    match &token.kind {
        TokenKind::Word(name) => constant_value(checked.meaning(name)),
        TokenKind::Number(number) => Some(*number),
        TokenKind::Sign(_) => None,
    }
}

// Where a token stands.
#[tactic(auto, unfolding(crate::specs::Spots::token_spot))]
fn spot_of(text: &[u8], marks: &Marks, token: &Token) -> Spot
    requires { AreColumns text.now marks.now.columns.items }
    ensures { result ≡ token_spot text.now token.now.place token.now.line }
{
    let place = token.place as usize;
    let from = marks.column(text, place);
    Spot {
        line: token.line,
        from,
        to: from + word_at(text, place).max(1),
    }
}

// Whether the token at a place is this name.
#[tactic(auto, using(crate::proofs::FirstWords::any_default))]
fn is_name_at(tokens: &[Token], k: usize, line: u32, name: &[u8]) -> bool
    requires { k < length tokens.now }
    ensures { result ≡ is_name line name.now (slice_index_or tokens.now k no_token) }
{
    is_name(&tokens[k], line, name)
}

// Whether it is, and is marked as the first of its word.
fn is_first_at(tokens: &[Token], marks: &Marks, k: usize, line: u32, name: &[u8]) -> bool
    requires { k < length tokens.now }
    ensures { result ≡ (slice_index_or marks.now.firsts.items k false && is_name line name.now (slice_index_or tokens.now k no_token)) }
{
    marks.is_first(k) && is_name_at(tokens, k, line, name)
}

// The first one between two places that is this name and that is marked as the first of its word, from a place on.
fn first_marked(
    tokens: &[Token],
    marks: &Marks,
    range: (usize, usize),
    from: usize,
    line: u32,
    name: &[u8],
) -> Option<usize>
    requires firsts { AreFirsts tokens.now marks.now.firsts.items }
    requires within { range.1 ≤ length tokens.now }
    ensures { IfSome result (λ k. IsNamedAt tokens.now range.0 range.1 line name.now k) }
{
    for k in range.0.max(from)..range.1 {
        if is_first_at(tokens, marks, k, line, name) {
            return Some(k);
        }
    }
    None
}

// The first one between two places that is this name.
fn first_named(tokens: &[Token], range: (usize, usize), line: u32, name: &[u8]) -> Option<usize>
    requires { range.1 ≤ length tokens.now }
    ensures { IsNamed tokens.now range.0 range.1 line name.now result }
{
    for k in range.0..range.1 {
        if is_name_at(tokens, k, line, name) {
            return Some(k);
        }
    }
    None
}

// The first one between two places that is this name. It is looked for from the one on that was found last, since the names of
// warnings mostly stand in the order of the text.
fn place_of_name(
    tokens: &[Token],
    marks: &Marks,
    range: (usize, usize),
    line: u32,
    name: &[u8],
    last: usize,
) -> Option<usize>
    requires firsts { AreFirsts tokens.now marks.now.firsts.items }
    requires within { range.1 ≤ length tokens.now }
    ensures { IsNamed tokens.now range.0 range.1 line name.now result }
{
    match first_marked(tokens, marks, range, last, line, name) {
        Some(k) => Some(k),
        None => first_named(tokens, range, line, name),
    }
}

// Where the token at a place stands.
#[tactic(auto, using(crate::proofs::FirstWords::any_default))]
fn place_spot(text: &[u8], marks: &Marks, tokens: &[Token], place: usize) -> Spot
    requires columns { AreColumns text.now marks.now.columns.items }
    requires place { place < length tokens.now }
    ensures { result ≡ token_spot text.now (slice_index_or tokens.now place no_token).place
        (slice_index_or tokens.now place no_token).line }
{
    spot_of(text, marks, &tokens[place])
}

// Where a name stands first in a statement of this line; that line, where it doesn't. Keeps the place of its token.
fn name_spot(
    text: &[u8],
    program: &Judged,
    marks: &Marks,
    line: u32,
    name: &[u8],
    last: &mut usize,
) -> Spot
    requires { AreMarksOf text.now program.now marks.now }
    ensures { result ≡ name_spot text.now program.now.tokens (lines_of program.now.checked) line name.now }
{
    let tokens = program.tokens.as_slice();
    let range = marks.statement_range(tokens, line);
    match place_of_name(tokens, marks, range, line, name, *last) {
        Some(place) => {
            *last = place;
            place_spot(text, marks, tokens, place)
        }
        None => Spot::line(line),
    }
}

// Whether these tokens begin in this line or a later one with this word and an opening bracket.
fn begins_call(tokens: &[Token], line: u32, word: &[u8]) -> bool
    ensures { result ≡ begins_call line word.now tokens.now }
{
    match tokens {
        [head, bracket, ..] => is_name(head, line, word) && is_open(bracket),
        [] | [_] => false,
    }
}

// What is looked for among the arguments of calls: the word of the call, which of its arguments, and the value that it has.
#[derive(Clone, Copy)]
struct Wanted {
    line: u32,
    kind: CallKind,
    second: bool,
    value: i32,
}

fn sought(line: u32, kind: CallKind, second: bool, value: i32) -> Wanted
    ensures { result ≡ record { line = line; kind = kind; second = second; value = value } }
{
    Wanted {
        line,
        kind,
        second,
        value,
    }
}

// Whether an argument is one token of this value.
fn is_token_of(checked: &Checked, arg: &[Token], value: i32) -> bool
    ensures { result ≡ is_token_of checked.now.names value arg.now }
{
    match arg {
        [token] => token_value(checked, token) == Some(value),
        _ => false,
    }
}

// The call that these tokens begin with, where its argument is one token of the value that is wanted.
fn short_at<'a>(checked: &Checked, tokens: &'a [Token], wanted: Wanted) -> Option<&'a [Token]>
    ensures { option_copied result ≡ call_at wanted.line (call_word wanted.kind) wanted.second
        (is_token_of checked.now.names wanted.value) tokens.entry.now }
{
    if begins_call(tokens, wanted.line, word(wanted.kind))
        && is_token_of(checked, argument_in(tokens, wanted.second), wanted.value)
    {
        Some(tokens)
    } else {
        None
    }
}

// The call that these tokens begin with, where its argument is several tokens.
fn long_at<'a>(tokens: &'a [Token], wanted: Wanted) -> Option<&'a [Token]>
    ensures { option_copied result ≡ call_at wanted.line (call_word wanted.kind) wanted.second is_longer tokens.entry.now }
{
    if begins_call(tokens, wanted.line, word(wanted.kind))
        && is_longer(argument_in(tokens, wanted.second))
    {
        Some(tokens)
    } else {
        None
    }
}

// The first call in these tokens whose argument is one token of the value that is wanted.
#[tactic(auto, unfolding(crate::specs::Spots::first_call), using(crate::proofs::Rests::passed, crate::proofs::Rests::found, crate::proofs::Rests::nowhere))]
fn short_call<'a>(checked: &Checked, tokens: &'a [Token], wanted: Wanted) -> Option<&'a [Token]>
    ensures { option_copied result ≡ first_call wanted.line (call_word wanted.kind) wanted.second
        (is_token_of checked.now.names wanted.value) tokens.entry.now }
{
    for i in 0..tokens.len() {
        let (_, rest) = tokens.split_at(i);
        if let Some(call) = short_at(checked, rest, wanted) {
            return Some(call);
        }
    }
    None
}

// The first call in these tokens whose argument is several tokens.
#[tactic(auto, unfolding(crate::specs::Spots::first_call), using(crate::proofs::Rests::passed, crate::proofs::Rests::found, crate::proofs::Rests::nowhere))]
fn long_call<'a>(tokens: &'a [Token], wanted: Wanted) -> Option<&'a [Token]>
    ensures { option_copied result ≡ first_call wanted.line (call_word wanted.kind) wanted.second is_longer tokens.entry.now }
{
    for i in 0..tokens.len() {
        let (_, rest) = tokens.split_at(i);
        if let Some(call) = long_at(rest, wanted) {
            return Some(call);
        }
    }
    None
}

// The call that is meant.
fn meant_call<'a>(checked: &Checked, tokens: &'a [Token], wanted: Wanted) -> Option<&'a [Token]>
    ensures { option_copied result ≡ meant_call checked.now.names wanted.line (call_word wanted.kind) wanted.second wanted.value tokens.entry.now }
{
    match short_call(checked, tokens, wanted) {
        Some(call) => Some(call),
        None => long_call(tokens, wanted),
    }
}

// From a token up to the end of another one, where that stands in the same line.
#[tactic(auto, unfolding(crate::specs::Spots::token_spot))]
fn span_spot(text: &[u8], marks: &Marks, token: &Token, last: &Token) -> Spot
    requires { AreColumns text.now marks.now.columns.items }
    ensures { result ≡ span_spot text.now token.now last.now }
{
    let spot = spot_of(text, marks, token);
    if last.line == token.line {
        Spot {
            line: spot.line,
            from: spot.from,
            to: spot_of(text, marks, last).to,
        }
    } else {
        spot
    }
}

// The last of these tokens, or the one before them where there are none.
fn last_of<'a>(token: &'a Token, others: &'a [Token]) -> &'a Token
    ensures { result.now ≡ slice_index_or (token.entry.now ∷ others.entry.now) (length others.entry.now) token.entry.now }
{
    if others.is_empty() {
        token
    } else {
        &others[others.len() - 1]
    }
}

// Where an argument stands; this line, where it has no token.
fn argument_place(text: &[u8], marks: &Marks, line: u32, arg: &[Token]) -> Spot
    requires { AreColumns text.now marks.now.columns.items }
    ensures { result ≡ argument_place text.now line (Some arg.now) }
{
    match arg {
        [token, others @ ..] => span_spot(text, marks, token, last_of(token, others)),
        [] => Spot::line(line),
    }
}

// The call in a statement that is meant.
fn call_meant<'a>(program: &'a Judged, marks: &Marks, wanted: Wanted) -> Option<&'a [Token]>
    ensures { (text : List ℕ) → AreMarksOf text program.entry.now marks.now → option_copied result ≡ call_meant text
        program.entry.now.tokens (lines_of program.entry.now.checked) program.entry.now.checked.names wanted.line wanted.kind
        wanted.second wanted.value }
{
    let tokens = program.tokens.as_slice();
    let (from, to) = marks.statement_range(tokens, wanted.line);
    meant_call(&program.checked, &tokens[from..to], wanted)
}

// Where an argument stands of a call in a statement of this line that has this value; this line, where it doesn't.
fn argument_spot(text: &[u8], program: &Judged, marks: &Marks, wanted: Wanted) -> Spot
    requires { AreMarksOf text.now program.now marks.now }
    ensures { result ≡ argument_spot text.now program.now.tokens (lines_of program.now.checked) program.now.checked.names
        wanted.line wanted.kind wanted.second wanted.value }
{
    match call_meant(program, marks, wanted) {
        Some(call) => {
            let arg = argument_in(call, wanted.second);
            argument_place(text, marks, wanted.line, arg)
        }
        None => Spot::line(wanted.line),
    }
}

// Where the first of these tokens stands; this line, where there is none.
fn first_spot(text: &[u8], marks: &Marks, line: u32, tokens: &[Token]) -> Spot
    requires { AreColumns text.now marks.now.columns.items }
    ensures { result ≡ first_spot text.now line tokens.now }
{
    match tokens {
        [token, ..] => spot_of(text, marks, token),
        [] => Spot::line(line),
    }
}

// Where the word of a call in a statement of this line stands whose first argument has this value; this line, where there is none.
fn call_spot(text: &[u8], program: &Judged, marks: &Marks, wanted: Wanted) -> Spot
    requires marks { AreMarksOf text.now program.now marks.now }
    requires first { wanted.second ≡ false }
    ensures { result ≡ call_spot text.now program.now.tokens (lines_of program.now.checked) program.now.checked.names
        wanted.line wanted.kind wanted.value }
{
    match call_meant(program, marks, wanted) {
        Some(call) => first_spot(text, marks, wanted.line, call),
        None => Spot::line(wanted.line),
    }
}

// Where the name of a warning stands.
fn named_spot(
    text: &[u8],
    program: &Judged,
    marks: &Marks,
    line: u32,
    warning: &ProgramWarning,
    last: &mut usize,
) -> Spot
    requires { AreMarksOf text.now program.now marks.now }
    ensures { result ≡ named_spot text.now program.now.tokens (lines_of program.now.checked) line warning.now }
{
    match warning {
        ProgramWarning::NoSetCycle(kind) => {
            name_spot(text, program, marks, line, reading_word(*kind), last)
        }
        ProgramWarning::Lacking(_, name)
        | ProgramWarning::NameAsNumber(_, name)
        | ProgramWarning::ConstantIndex(_, name)
        | ProgramWarning::CycleNameAssigned(name)
        | ProgramWarning::EndlessLoop(name) => {
            name_spot(text, program, marks, line, name.bytes(), last)
        }
        ProgramWarning::UnknownGroup(_)
        | ProgramWarning::UnknownStage(_)
        | ProgramWarning::UnknownDetector(_)
        | ProgramWarning::MissingInterstage(_, _)
        | ProgramWarning::SilentDetector(_)
        | ProgramWarning::NeverCleared(_, _)
        | ProgramWarning::UnreadDetector(_)
        | ProgramWarning::WrongStage(_, _)
        | ProgramWarning::ConstantCondition
        | ProgramWarning::NeverTrue
        | ProgramWarning::ConstantArgument(_)
        | ProgramWarning::DivisionByZero => Spot::line(line),
    }
}

// Whether what is meant of a call is its word, and not its argument.
fn is_of_word(warning: &ProgramWarning) -> bool
    ensures { result ≡ is_of_word warning.now }
{
    match warning {
        ProgramWarning::WrongStage(_, _) => true,
        ProgramWarning::Lacking(_, _)
        | ProgramWarning::UnknownGroup(_)
        | ProgramWarning::UnknownStage(_)
        | ProgramWarning::UnknownDetector(_)
        | ProgramWarning::MissingInterstage(_, _)
        | ProgramWarning::SilentDetector(_)
        | ProgramWarning::NeverCleared(_, _)
        | ProgramWarning::NoSetCycle(_)
        | ProgramWarning::UnreadDetector(_)
        | ProgramWarning::ConstantCondition
        | ProgramWarning::NeverTrue
        | ProgramWarning::NameAsNumber(_, _)
        | ProgramWarning::ConstantArgument(_)
        | ProgramWarning::ConstantIndex(_, _)
        | ProgramWarning::DivisionByZero
        | ProgramWarning::CycleNameAssigned(_)
        | ProgramWarning::EndlessLoop(_) => false,
    }
}

// Where a call with this first argument stands that a warning means: its word, or the argument.
fn call_place(
    text: &[u8],
    program: &Judged,
    marks: &Marks,
    warning: &ProgramWarning,
    wanted: Wanted,
) -> Spot
    requires marks { AreMarksOf text.now program.now marks.now }
    requires first { wanted.second ≡ false }
    ensures { result ≡ meant_spot text.now program.now.tokens (lines_of program.now.checked) program.now.checked.names wanted.line
        warning.now (Meant.First wanted.kind wanted.value) }
{
    if is_of_word(warning) {
        call_spot(text, program, marks, wanted)
    } else {
        argument_spot(text, program, marks, wanted)
    }
}

/// Where in the text of a program what a warning of it means stands. Keeps the place of the token of a name.
#[tactic(auto, using(crate::proofs::Spotted::first_spotted, crate::proofs::Spotted::second_spotted, crate::proofs::Spotted::name_spotted, crate::proofs::Spotted::line_spotted))]
pub(crate) fn warned_spot(
    text: &[u8],
    program: &Judged,
    marks: &Marks,
    warned: &Warned,
    last: &mut usize,
) -> Spot
    requires { AreMarksOf text.now program.now marks.now }
    ensures { result ≡ warned_spot text.now program.now.tokens (lines_of program.now.checked) program.now.checked.names warned.now }
{
    let line = warned.line;
    match warned.meant {
        Meant::Name => named_spot(text, program, marks, line, &warned.warning, last),
        Meant::Line => Spot::line(line),
        Meant::First(kind, value) => {
            let first = sought(line, kind, false, value);
            call_place(text, program, marks, &warned.warning, first)
        }
        Meant::Second(kind, value) => {
            let second = sought(line, kind, true, value);
            argument_spot(text, program, marks, second)
        }
    }
}
