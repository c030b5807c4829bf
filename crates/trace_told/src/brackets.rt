// The brackets of the TRACE statements among the tokens of a text.
ghost use Rattle.std.specs.Prelude.{◌≡◌, ◌+◌, ◌-◌, ◌^◌, ◌<◌, ◌++◌, IfOk};
ghost use Rattle.std.specs.Option.{option_to_list};
ghost use Rattle.trace_told.specs.Brackets.{behind, behind_closed, brackets_in, closed, closes, is_trace, opens};
ghost use Rattle.trace_told.specs.Level.{IsLevel};

use std::alloc::{AllocError, Global};
use vap_lex::{Sign, Token, TokenKind};

/// What stands in the brackets of a `TRACE`: from the token at `first` on, up to the bracket at `end`, which closes them.
#[derive(Clone, Copy)]
pub struct Brackets {
    pub first: usize,
    pub end: usize,
}

/// Where a token stands: outside of every TRACE, behind the word, or in its brackets, with so many others open.
#[derive(Clone, Copy)]
pub enum Where {
    Outside,
    Behind,
    Inside { first: usize, others: usize },
}

// Whether a token is the word TRACE.
fn is_trace(kind: &TokenKind) -> bool
    ensures { result ≡ is_trace kind.now }
{
    match kind {
        TokenKind::Word(name) => name.bytes() == b"trace".as_slice(),
        TokenKind::Number(_) | TokenKind::Sign(_) => false,
    }
}

// Whether a token opens a round bracket.
fn opens(kind: &TokenKind) -> bool
    ensures { result ≡ opens kind.now }
{
    matches!(kind, TokenKind::Sign(Sign::Open))
}

// Whether a token closes a round bracket.
fn closes(kind: &TokenKind) -> bool
    ensures { result ≡ closes kind.now }
{
    matches!(kind, TokenKind::Sign(Sign::Close))
}

// Where the next token stands, behind a bracket that closes.
fn behind_closed(first: usize, others: usize) -> Where
    ensures { result ≡ behind_closed first others }
{
    if others == 0 {
        return Where::Outside;
    }
    let others = others - 1;
    Where::Inside { first, others }
}

// Where the next token stands.
fn behind(at: Where, place: usize, kind: &TokenKind) -> Where
    requires level { IsLevel place at }
    requires room { place < 2 ^ 64 - 1 }
    ensures next { result ≡ behind at place kind.now }
    ensures level { IsLevel (place + 1) result }
{
    match at {
        Where::Outside if is_trace(kind) => Where::Behind,
        Where::Outside => Where::Outside,
        Where::Behind => {
            let first = place + 1;
            Where::Inside { first, others: 0 }
        }
        Where::Inside { first, others } if opens(kind) => {
            let others = others + 1;
            Where::Inside { first, others }
        }
        Where::Inside { first, others } if closes(kind) => behind_closed(first, others),
        Where::Inside { first, others } => Where::Inside { first, others },
    }
}

// The brackets that a token closes, if they are those of a TRACE.
fn closed(at: Where, place: usize, kind: &TokenKind) -> Option<Brackets>
    ensures { option_to_list result ≡ closed at place kind.now }
{
    match at {
        Where::Inside { first, others } if others == 0 && closes(kind) => {
            let end = place;
            Some(Brackets { first, end })
        }
        Where::Outside | Where::Behind | Where::Inside { .. } => None,
    }
}

// Adds brackets, if there are some.
fn add(found: &mut Vec<Brackets>, brackets: Option<Brackets>) -> Result<(), AllocError>
    ensures { IfOk result (λ _. found.new.items ≡ found.old.items ++ option_to_list brackets) }
{
    if let Some(brackets) = brackets {
        found.push(brackets)?;
    }
    Ok(())
}

/// The brackets of the `TRACE` statements of a text with these tokens, in the order in which they stand there.
pub fn brackets_in(alloc: Global, tokens: &[Token]) -> Result<Vec<Brackets>, AllocError>
    ensures { IfOk result (λ found. found.items ≡ brackets_in tokens.now) }
{
    let mut found = Vec::new(alloc);
    let mut at = Where::Outside;
    for place in 0..tokens.len() {
        let kind = &tokens[place].kind;
        add(&mut found, closed(at, place, kind))?;
        at = behind(at, place, kind);
    }
    Ok(found)
}
