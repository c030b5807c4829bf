// The tokens of a text.
ghost use Rattle.std.specs.Prelude.{◌≡◌, ◌<◌, ◌≤◌, ◌^◌, ◌+◌, ◌-◌, ◌++◌, ◌==◌, ◌⊎◌, ℕ, List, length, count_by, IfOk, IfErr, IfSome, OnOk};
ghost use Rattle.std.specs.List.{All};
ghost use Rattle.vap_ast.specs.Name.{IsWord};
ghost use Rattle.vap_lex.specs.Kept.{IsUnsigned, HasLine};
ghost use Rattle.vap_lex.specs.Piece.{IsNumbered};
ghost use Rattle.vap_lex.specs.Tokens.{HasTokens, kind_at, found, start_of};
ghost use Rattle.vap_lex.specs.Refusal.{IsRefused, IsStuck};
ghost use Rattle.vap_lex.specs.declared.piece.LexWhy.{LexWhy};
ghost use Rattle.vap_lex.specs.declared.piece.Piece.TheVariants.{Word};
ghost use Rattle.vap_lex.specs.declared.scan.LexRefusal.TheVariants.{Memory};
ghost use Rattle.vap_lex.specs.declared.token.Token.{Token};

use crate::piece::{LexWhy, Piece, beginning};
use crate::token::{Token, TokenKind, Tokens};
use sig_types::Memory as OutOfMemory;
use std::alloc::{AllocFailed, Global};
use thiserror::Error;
use vap_ast::Name;

/// Why a text has no tokens: the line of the first place that is refused, from 1, and the reason.
#[derive(Clone, Copy, Debug, Error)]
pub enum LexRefusal {
    /// Memory was wanted and could not be had.
    #[error("out of memory")]
    Memory,
    /// The first place at which no token, blank or comment stands.
    #[error("the text has no token here")]
    At { line: u32, why: LexWhy },
}

impl From<OutOfMemory> for LexRefusal {
    ghost from_gives = { λ _ e. e ≡ Memory };

    fn from(_error: OutOfMemory) -> LexRefusal {
        LexRefusal::Memory
    }
}

impl<T: Drop> From<AllocFailed<T>> for LexRefusal {
    ghost from_gives = { λ _ e. e ≡ Memory };

    fn from(_failed: AllocFailed<T>) -> LexRefusal {
        LexRefusal::Memory
    }
}

// The line feeds among these bytes.
fn lines_in(bytes: &[u8]) -> u32
    requires { length bytes.now < 2 ^ 32 }
    ensures count { result ≡ count_by (λ b. b == 10) bytes.now }
    ensures within { result ≤ length bytes.now }
{
    bytes.iter().filter(|b| **b == b'\n').count() as u32
}

// The place behind a byte order mark.
fn start(text: &[u8]) -> usize
    ensures place { result ≡ start_of text.now }
    ensures within { result ≤ length text.now }
{
    match text {
        [0xef, 0xbb, 0xbf, ..] => 3,
        _ => 0,
    }
}

/// The tokens of a text: blanks and comments part them, and of the signs the longest is taken. A byte order mark at
/// the beginning is passed over.
///
/// A text is refused at its first place at which no token, blank or comment stands.
pub fn tokens(alloc: Global, bytes: &[u8]) -> Result<Tokens, LexRefusal>
    requires { length bytes.now < 4294967295 }
    ensures tokens { IfOk result (λ ts. HasTokens bytes.now ts) }
    ensures lines { IfOk result (λ ts. All (λ t. HasLine (length bytes.now) t) ts) }
    ensures only { (ts : List Token) → HasTokens bytes.now ts → IfErr result (λ e. e ≡ Memory) }
    ensures refused { IfErr result (λ e. IsRefused bytes.now e) }
{
    let mut tokens = Vec::new(alloc);
    let mut place = start(bytes);
    let mut line = 1;
    while place < bytes.len() {
        let (_, rest) = bytes.split_at(place);
        let (piece, len) = match beginning(rest) {
            Ok(found) => found,
            Err(why) => return Err(LexRefusal::At { line, why }),
        };
        let (piece_bytes, _) = rest.split_at(len);
        let found = kind(alloc, piece, piece_bytes)?;
        note(&mut tokens, found, place, line)?;
        line += lines_in(piece_bytes);
        place += len;
    }
    Ok(Tokens::of(tokens))
}

// What kind of token a piece is, if it is one.
fn kind(alloc: Global, piece: Piece, bytes: &[u8]) -> Result<Option<TokenKind>, OutOfMemory>
    requires word { piece ≡ Word → IsWord bytes.now }
    requires number { IsNumbered piece }
    ensures kind { IfOk result (λ k. k ≡ kind_at piece bytes.now) }
    ensures unsigned { IfOk result (λ k. IfSome k IsUnsigned) }
{
    match piece {
        Piece::Gap => Ok(None),
        Piece::Word => Ok(Some(TokenKind::Word(Name::make(alloc, bytes)?))),
        Piece::Number(n) => Ok(Some(TokenKind::Number(n))),
        Piece::Sign(sign) => Ok(Some(TokenKind::Sign(sign))),
    }
}

// Puts a token at the end, if there is one.
fn note(
    tokens: &mut Vec<Token>,
    kind: Option<TokenKind>,
    place: usize,
    line: u32,
) -> Result<(), LexRefusal>
    requires { place < 2 ^ 32 }
    ensures noted { OnOk result (tokens.new.items ≡ tokens.old.items ++ found place line kind) }
    ensures memory { IfErr result (λ e. e ≡ Memory) }
{
    if let Some(kind) = kind {
        tokens.push(Token {
            place: place as u32,
            line,
            kind,
        })?;
    }
    Ok(())
}

/// A text has one list of tokens, or one refused place with one reason, and never both.
pub fn one_answer()
    ensures some { (text : List ℕ) → ((ts : List Token) × HasTokens text ts) ⊎ ((p : ℕ) × (w : LexWhy) × IsStuck text p w) }
    ensures tokens { (text : List ℕ) (ts us : List Token) → HasTokens text ts → HasTokens text us → ts ≡ us }
    ensures refusal { (text : List ℕ) (p q : ℕ) (v w : LexWhy) → IsStuck text p v → IsStuck text q w → (p ≡ q) × (v ≡ w) }
    ensures apart { (text : List ℕ) (ts : List Token) (p : ℕ) (w : LexWhy) → HasTokens text ts → IsStuck text p w → ⊥ }
{}
