// What is told of the first refused token: what stands there, and what could; and what of the text is meant.
ghost use Rattle.std.specs.Prelude.{◌≡◌, ◌++◌, IfOk, OnOk, slice_get, take};
ghost use Rattle.program_advice.specs.Sentence.{before_text, begin_text, both_text, comment_of, comment_text, could_text, end_text, here_text, if_text, is_called_sign, is_comment, is_open_sign, kind_is_called, meant_range};
ghost use Rattle.program_advice.specs.Open.{opened_by as spec_opened_by};
ghost use Rattle.program_advice.specs.Sentence.{name_is_meant, open_text, range_of_token, sentence_text};
ghost use Rattle.program_advice.specs.Tokens.{token_before as spec_token_before};

use crate::bytes::{between, put, put_number};
use crate::kinds::{Class, class_of};
use crate::open::{Open, opened_by};
use crate::token::{
    is_name, put_token, role_text, token_at, token_before, token_len, tokens_before,
};
use crate::wanted::{has, put_wanted};
use sig_types::text::same_name;
use std::alloc::{AllocError, Global};
use vap_lex::{Sign, Token, TokenKind};
use vap_parse::{Kind, kind_of};

// Puts the token before the refused one, with what it is.
#[tactic(auto, unfolding(crate::specs::Sentence::before_text))]
fn put_before(text: &mut Vec<u8>, program: &[u8], token: &Token) -> Result<(), AllocError>
    ensures { OnOk result (text.new.items ≡ text.old.items ++ before_text program.now token.now) }
{
    put(text, role_text(&token.kind))?;
    put_token(text, program, token)
}

// Puts that a text begins with a token.
#[tactic(auto, unfolding(crate::specs::Sentence::begin_text))]
fn put_begin(text: &mut Vec<u8>, program: &[u8], here: &Token) -> Result<(), AllocError>
    ensures { OnOk result (text.new.items ≡ text.old.items ++ begin_text program.now here.now) }
{
    put(text, b"this is no program: it begins with ")?;
    put_token(text, program, here)
}

// Puts that a text ends behind a token.
#[tactic(auto, unfolding(crate::specs::Sentence::end_text))]
fn put_end(text: &mut Vec<u8>, program: &[u8], before: &Token) -> Result<(), AllocError>
    ensures { OnOk result (text.new.items ≡ text.old.items ++ end_text program.now before.now) }
{
    put(text, b"the text ends behind ")?;
    put_before(text, program, before)
}

// Puts that a token stands behind another one.
#[tactic(auto, unfolding(crate::specs::Sentence::both_text))]
fn put_both(
    text: &mut Vec<u8>,
    program: &[u8],
    before: &Token,
    here: &Token,
) -> Result<(), AllocError>
    ensures { OnOk result (text.new.items ≡ text.old.items ++ both_text program.now before.now here.now) }
{
    put_token(text, program, here)?;
    put(text, b" can't stand behind ")?;
    put_before(text, program, before)
}

// Puts what stands there: the refused token, and the one before it.
fn put_here(
    text: &mut Vec<u8>,
    program: &[u8],
    tokens: &[Token],
    at: usize,
) -> Result<(), AllocError>
    ensures { OnOk result (text.new.items ≡ text.old.items
        ++ here_text program.now (spec_token_before tokens.now at) (slice_get tokens.now at)) }
{
    match (token_before(tokens, at), token_at(tokens, at)) {
        (None, None) => put(text, b"the program is empty"),
        (None, Some(here)) => put_begin(text, program, here),
        (Some(before), None) => put_end(text, program, before),
        (Some(before), Some(here)) => put_both(text, program, before, here),
    }
}

// Puts the line of the `IF` that is open.
fn put_if(text: &mut Vec<u8>, line: u32) -> Result<(), AllocError>
    ensures { OnOk result (text.new.items ≡ text.old.items ++ if_text line) }
{
    put(text, b"; the `IF` in line ")?;
    put_number(text, line)?;
    put(text, b" is open")
}

// Puts the `IF` that is open, where an `END` could stand.
#[tactic(auto, unfolding(crate::specs::Sentence::open_text))]
fn put_open(text: &mut Vec<u8>, kinds: &[Kind], opened: Open) -> Result<(), AllocError>
    ensures { OnOk result (text.new.items ≡ text.old.items ++ open_text kinds.now opened) }
{
    if has(kinds, Class::End) {
        put_if(text, opened.line)
    } else {
        Ok(())
    }
}

// What is open behind so many tokens.
fn opened_before(tokens: &[Token], at: usize) -> Open
    ensures { result ≡ spec_opened_by (take at tokens.now) }
{
    opened_by(tokens_before(tokens, at))
}

// Puts what could stand in a place, and which `IF` is open.
#[tactic(auto, unfolding(crate::specs::Sentence::could_text))]
fn put_could(
    alloc: Global,
    text: &mut Vec<u8>,
    kinds: &[Kind],
    aspect: bool,
    opened: Open,
) -> Result<(), AllocError>
    ensures { OnOk result (text.new.items ≡ text.old.items ++ could_text kinds.now aspect opened) }
{
    put(text, b"; wanted is ")?;
    put_wanted(alloc, text, kinds, aspect)?;
    put_open(text, kinds, opened)
}

// Whether a token begins with two slashes, so that a comment of another language is meant.
fn is_comment(program: &[u8], here: &Token) -> bool
    ensures { result ≡ is_comment program.now here.now }
{
    let from = here.place as usize;
    same_name(between(program, from, from.saturating_add(2)), b"//")
}

// Puts how a comment is written, where a token is meant as one.
fn put_comment_of(text: &mut Vec<u8>, program: &[u8], here: &Token) -> Result<(), AllocError>
    ensures { OnOk result (text.new.items ≡ text.old.items ++ comment_of program.now here.now) }
{
    if is_comment(program, here) {
        put(text, b"; a comment is `/* .. */`")
    } else {
        Ok(())
    }
}

// The same of the token at a place, which may not be there.
fn put_comment(
    text: &mut Vec<u8>,
    program: &[u8],
    tokens: &[Token],
    at: usize,
) -> Result<(), AllocError>
    ensures { OnOk result (text.new.items ≡ text.old.items ++ comment_text program.now (slice_get tokens.now at)) }
{
    match token_at(tokens, at) {
        Some(here) => put_comment_of(text, program, here),
        None => Ok(()),
    }
}

/// What is told of the token at a place, of which this could stand there: what stands there, behind what, what could, and which
/// `IF` is open.
pub(crate) fn sentence(
    alloc: Global,
    program: &[u8],
    tokens: &[Token],
    at: usize,
    kinds: &[Kind],
    aspect: bool,
) -> Result<Vec<u8>, AllocError>
    ensures { IfOk result (λ v. v.items ≡ sentence_text program.now tokens.now at kinds.now aspect) }
{
    let opened = opened_before(tokens, at);
    let mut text = Vec::new(alloc);
    put_here(&mut text, program, tokens, at)?;
    put_could(alloc, &mut text, kinds, aspect, opened)?;
    put_comment(&mut text, program, tokens, at)?;
    Ok(text)
}

// Whether a sign stands behind the word of a call.
fn is_open_sign(sign: Sign) -> bool
    ensures { result ≡ is_open_sign sign }
{
    match sign {
        Sign::Open => true,
        Sign::Assign | Sign::Ne | Sign::Le | Sign::Ge | Sign::Colon | Sign::Comma => false,
        Sign::Dot | Sign::Close | Sign::OpenIndex | Sign::CloseIndex | Sign::Eq => false,
        Sign::Lt | Sign::Gt | Sign::Plus | Sign::Minus | Sign::Star | Sign::Slash => false,
        Sign::Semi => false,
    }
}

// Whether a sign stands behind a statement of one word, or behind the word of a call.
fn is_called_sign(sign: Sign) -> bool
    ensures { result ≡ is_called_sign sign }
{
    match sign {
        Sign::Open | Sign::Semi => true,
        Sign::Assign | Sign::Ne | Sign::Le | Sign::Ge | Sign::Colon | Sign::Comma => false,
        Sign::Dot | Sign::Close | Sign::OpenIndex | Sign::CloseIndex | Sign::Eq => false,
        Sign::Lt | Sign::Gt | Sign::Plus | Sign::Minus | Sign::Star | Sign::Slash => false,
    }
}

// Whether what stands behind a name makes a word of the language of it, where these could stand there: a word, a number, `(` or `;`
// behind a name that could begin a statement, or `(` behind one that could be a value.
fn kind_is_called(kinds: &[Kind], kind: &TokenKind) -> bool
    ensures { result ≡ kind_is_called kinds.now kind.now }
{
    match kind {
        TokenKind::Word(_) | TokenKind::Number(_) => has(kinds, Class::Assign),
        TokenKind::Sign(sign) => {
            (is_called_sign(*sign) && has(kinds, Class::Assign))
                || (is_open_sign(*sign) && has(kinds, Class::Factor))
        }
    }
}

// Whether the name before a refused token is what is meant.
fn name_is_meant(kinds: &[Kind], before: &Token, here: &Token) -> bool
    ensures { result ≡ name_is_meant kinds.now before.now here.now }
{
    is_name(class_of(kind_of(&before.kind))) && kind_is_called(kinds, &here.kind)
}

// The bytes of a token.
fn range_of_token(program: &[u8], token: &Token) -> (usize, usize)
    ensures { result ≡ range_of_token program.now token.now }
{
    let from = token.place as usize;
    (from, from.saturating_add(token_len(program, token)))
}

/// The bytes that are meant: those of the token at a place, or of the name before it, where what stands behind it makes a word of the
/// language of it. None of an empty program.
pub(crate) fn meant_range(
    program: &[u8],
    tokens: &[Token],
    at: usize,
    kinds: &[Kind],
) -> (usize, usize)
    ensures { result ≡ meant_range program.now kinds.now (spec_token_before tokens.now at) (slice_get tokens.now at) }
{
    match (token_before(tokens, at), token_at(tokens, at)) {
        (None, None) => (0, 0),
        (None, Some(here)) => range_of_token(program, here),
        (Some(before), None) => range_of_token(program, before),
        (Some(before), Some(here)) => {
            if name_is_meant(kinds, before, here) {
                range_of_token(program, before)
            } else {
                range_of_token(program, here)
            }
        }
    }
}
