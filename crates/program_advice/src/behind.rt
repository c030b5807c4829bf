// What could stand behind tokens.
ghost use Rattle.std.specs.Prelude.{◌≡◌, ◌↔◌, IfOk, IsTrue};
ghost use Rattle.std.specs.List.{Contains};
ghost use Rattle.program_advice.specs.Stands.{AreStanding, CanStand, Stands, an_aspect, noted};
ghost use Rattle.vap_parse.specs.declared.kind.Kind.{Kind as AnyKind};
ghost use Rattle.vap_parse.specs.declared.kind.Kind.TheVariants.{Nothing};

use crate::all_kinds::KINDS;
use crate::probe::{probe, word};
use std::alloc::{AllocError, Global};
use vap_lex::{Token, TokenKind};
use vap_parse::{Kind, first_refused, is_beginning, one_answer};

/// What could stand behind tokens.
#[derive(Drop)]
pub struct Wanted {
    /// The kinds of which a token could stand there; `Nothing` where the text could end. Of a name it is told whether one
    /// could stand that names no aspect, and of a number whether 1 could.
    pub kinds: Vec<Kind>,
    /// Whether the name of an aspect could stand there.
    pub aspect: bool,
}

// A copy of what a token is.
fn copied_kind(alloc: Global, kind: &TokenKind) -> Result<TokenKind, AllocError>
    ensures { IfOk result (λ copy. copy ≡ kind.now) }
{
    match kind {
        TokenKind::Word(name) => match name.copy(alloc) {
            Ok(name) => Ok(TokenKind::Word(name)),
            Err(_) => Err(AllocError),
        },
        TokenKind::Number(number) => Ok(TokenKind::Number(*number)),
        TokenKind::Sign(sign) => Ok(TokenKind::Sign(*sign)),
    }
}

// A copy of a token.
fn copied(alloc: Global, token: &Token) -> Result<Token, AllocError>
    ensures { IfOk result (λ copy. copy ≡ token.now) }
{
    let kind = copied_kind(alloc, &token.kind)?;
    Ok(Token {
        place: token.place,
        line: token.line,
        kind,
    })
}

// Copies of tokens, in a list that takes one more.
fn copies(alloc: Global, tokens: &[Token]) -> Result<Vec<Token>, AllocError>
    ensures { IfOk result (λ list. list.items ≡ tokens.now) }
{
    let mut list = Vec::with_capacity(alloc, tokens.len().saturating_add(1))?;
    for token in tokens {
        list.push(copied(alloc, token)?)?;
    }
    Ok(list)
}

// Whether such a token can stand behind these.
fn can_stand(alloc: Global, tokens: &mut Vec<Token>, kind: TokenKind) -> Result<bool, AllocError>
    ensures same { IfOk result (λ can. tokens.new.items ≡ tokens.old.items) }
    ensures can { IfOk result (λ can. IsTrue can ↔ CanStand tokens.old.items kind) }
{
    tokens.push(Token {
        place: 0,
        line: 1,
        kind,
    })?;
    let can = is_beginning(alloc, tokens.as_slice())?;
    let _ = tokens.pop();
    Ok(can)
}

// Whether these tokens are a text.
fn is_text(alloc: Global, tokens: &[Token]) -> Result<bool, AllocError>
    ensures { IfOk result (λ is. IsTrue is ↔ Stands tokens.now Nothing) }
{
    one_answer();
    match first_refused(alloc, tokens)? {
        None => Ok(true),
        Some(_) => Ok(false),
    }
}

// Whether a token of this kind can stand behind these.
fn stands(alloc: Global, tokens: &mut Vec<Token>, kind: Kind) -> Result<bool, AllocError>
    ensures same { IfOk result (λ can. tokens.new.items ≡ tokens.old.items) }
    ensures stands { IfOk result (λ can. IsTrue can ↔ Stands tokens.old.items kind) }
{
    if let Kind::Nothing = kind {
        return is_text(alloc, tokens.as_slice());
    }
    match probe(alloc, kind) {
        Ok(what) => can_stand(alloc, tokens, what),
        Err(_) => Err(AllocError),
    }
}

// Puts a kind behind others, where it is to be told.
fn note(kinds: &mut Vec<Kind>, kind: Kind, can: bool) -> Result<(), AllocError>
    ensures { IfOk result (λ done. kinds.new.items ≡ noted kinds.old.items kind can) }
{
    if can {
        kinds.push(kind)?;
    }
    Ok(())
}

// Those of these kinds of which a token can stand behind these tokens.
fn those_standing(
    alloc: Global,
    tokens: &mut Vec<Token>,
    kinds: &[Kind],
) -> Result<Vec<Kind>, AllocError>
    ensures same { IfOk result (λ told. tokens.new.items ≡ tokens.old.items) }
    ensures told { IfOk result (λ told. AreStanding tokens.old.items kinds.now told.items) }
{
    let mut told = Vec::new(alloc);
    for kind in kinds {
        let can = stands(alloc, tokens, *kind)?;
        note(&mut told, *kind, can)?;
    }
    Ok(told)
}

// Whether the name of an aspect can stand behind these.
fn aspect_stands(alloc: Global, tokens: &mut Vec<Token>) -> Result<bool, AllocError>
    ensures { IfOk result (λ can. IsTrue can ↔ CanStand tokens.old.items an_aspect) }
{
    match word(alloc, b"red".as_slice()) {
        Ok(red) => can_stand(alloc, tokens, red),
        Err(_) => Err(AllocError),
    }
}

/// What could stand behind these tokens.
pub fn wanted_behind(alloc: Global, before: &[Token]) -> Result<Wanted, AllocError>
    ensures kinds { (kind : AnyKind) → IfOk result (λ wanted. Contains wanted.kinds.items kind ↔ Stands before.now kind) }
    ensures aspect { IfOk result (λ wanted. IsTrue wanted.aspect ↔ CanStand before.now an_aspect) }
{
    let mut tokens = copies(alloc, before)?;
    let kinds = those_standing(alloc, &mut tokens, &KINDS)?;
    let aspect = aspect_stands(alloc, &mut tokens)?;
    Ok(Wanted { kinds, aspect })
}
