// Tokens in the text of a program.
ghost use Rattle.std.specs.Prelude.{◌≡◌, ◌++◌, OnOk, slice_get, take};
ghost use Rattle.std.specs.Option.{option_copied};
ghost use Rattle.program_advice.specs.Tokens.{is_name, quoted_token, role_text, role_of_class, sign_len, token_before, token_len};

use crate::bytes::{between, put, word_len};
use crate::kinds::{Class, class_of};
use std::alloc::AllocError;
use vap_lex::{Sign, Token, TokenKind};
use vap_parse::kind_of;

/// The token at a place of a list, if there is one.
pub(crate) fn token_at(tokens: &[Token], place: usize) -> Option<&Token>
    ensures { option_copied result ≡ slice_get tokens.now place }
{
    if place < tokens.len() {
        Some(&tokens[place])
    } else {
        None
    }
}

/// The tokens before a place of a list.
pub(crate) fn tokens_before(tokens: &[Token], place: usize) -> &[Token]
    ensures { result.now ≡ take place tokens.now }
{
    let (before, _) = tokens.split_at(place.min(tokens.len()));
    before
}

/// The token before a place of a list, if there is one.
pub(crate) fn token_before(tokens: &[Token], place: usize) -> Option<&Token>
    ensures { option_copied result ≡ token_before tokens.now place }
{
    if place == 0 {
        None
    } else {
        token_at(tokens, place - 1)
    }
}

// How many bytes a sign has.
fn sign_len(sign: Sign) -> usize
    ensures { result ≡ sign_len sign }
{
    match sign {
        Sign::Assign | Sign::Ne | Sign::Le | Sign::Ge => 2,
        Sign::Colon | Sign::Semi | Sign::Comma | Sign::Dot | Sign::Open | Sign::Close => 1,
        Sign::OpenIndex | Sign::CloseIndex | Sign::Eq | Sign::Lt | Sign::Gt => 1,
        Sign::Plus | Sign::Minus | Sign::Star | Sign::Slash => 1,
    }
}

/// How many bytes a token of a text has.
pub(crate) fn token_len(text: &[u8], token: &Token) -> usize
    ensures { result ≡ token_len text.now token.now }
{
    match &token.kind {
        TokenKind::Word(_) | TokenKind::Number(_) => word_len(text, token.place as usize),
        TokenKind::Sign(sign) => sign_len(*sign),
    }
}

/// Puts a token of a program between quotes.
pub(crate) fn put_token(text: &mut Vec<u8>, program: &[u8], token: &Token) -> Result<(), AllocError>
    ensures { OnOk result (text.new.items ≡ text.old.items ++ quoted_token program.now token.now) }
{
    let from = token.place as usize;
    put(text, b"`")?;
    put(
        text,
        between(
            program,
            from,
            from.saturating_add(token_len(program, token)),
        ),
    )?;
    put(text, b"`")
}

/// Whether a class is that of names.
pub(crate) fn is_name(class: Class) -> bool
    ensures { result ≡ is_name class }
{
    match class {
        Class::Name => true,
        Class::Alone | Class::Operand | Class::If | Class::End => false,
        Class::Command | Class::Reading | Class::Assign | Class::Equal => false,
        Class::Comparison | Class::Sum | Class::Minus | Class::Factor => false,
    }
}

// What a word of a class is.
fn role_of_class(class: Class) -> &'static [u8]
    ensures { result.now ≡ role_of_class class }
{
    if is_name(class) {
        b"the name "
    } else {
        b"the reserved word "
    }
}

/// What a word is; nothing of a number or a sign.
pub(crate) fn role_text(kind: &TokenKind) -> &'static [u8]
    ensures { result.now ≡ role_text kind.now }
{
    match kind {
        TokenKind::Word(_) => role_of_class(class_of(kind_of(kind))),
        TokenKind::Number(_) | TokenKind::Sign(_) => b"",
    }
}
