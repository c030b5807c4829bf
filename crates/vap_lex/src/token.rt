// Tokens, and lists of them.
ghost use Rattle.std.specs.Prelude.{◌≡◌, ◌<◌, Some, length, slice_get};
ghost use Rattle.std.specs.List.{All};
ghost use Rattle.vap_lex.specs.Kept.{IsKept};

use std::marker::Model;
use vap_ast::Name;

/// The signs of a program's text: `:=` `:` `;` `,` `.` `(` `)` `[` `]` `=` `<>` `<` `<=` `>` `>=` `+` `-` `*` `/`.
#[derive(Clone, Copy, PartialEq, Eq)]
pub enum Sign {
    Assign,
    Colon,
    Semi,
    Comma,
    Dot,
    Open,
    Close,
    OpenIndex,
    CloseIndex,
    Eq,
    Ne,
    Lt,
    Le,
    Gt,
    Ge,
    Plus,
    Minus,
    Star,
    Slash,
}

/// What a token is: a word (reserved or a name), a number or a sign.
#[derive(Drop)]
pub enum TokenKind {
    Word(Name),
    Number(i32),
    Sign(Sign),
}

/// A token, with the place of its first byte, from 0, and the line of that byte, from 1.
#[derive(Drop)]
pub struct Token {
    pub place: u32,
    pub line: u32,
    pub kind: TokenKind,
}

/// The tokens of a text, in order. Contracts see the list. It keeps that each place is below 4,294,967,294 and that no
/// number is negative.
#[derive(Drop)]
pub struct Tokens {
    items: Vec<Token>,
}

impl Model for Tokens {
    ghost use Rattle.std.specs.Prelude.{List};
    ghost use Rattle.std.specs.List.{All};
    ghost use Rattle.vap_lex.specs.declared.token.Token.{Token};
    ghost use Rattle.vap_lex.specs.Kept.{IsKept};

    ghost Value = { List Token };

    ghost view = { λ t. t.items.items };

    ghost invariant = { λ t. All IsKept t.items.items };
}

impl Tokens {
    /// The list of these tokens.
    pub(crate) fn of(items: Vec<Token>) -> Tokens
        requires { All IsKept items.items }
        ensures { result ≡ items.items }
    {
        Tokens { items }
    }

    /// The number of tokens.
    pub fn len(&self) -> usize
        ensures { result ≡ length self.now }
    {
        self.items.len()
    }

    /// The token at that place of the list, from 0.
    pub fn get(&self, place: usize) -> &Token
        requires { place < length self.now }
        ensures { slice_get self.now place ≡ Some result.now }
    {
        &self.items[place]
    }

    /// All tokens.
    pub fn as_slice(&self) -> &[Token]
        ensures items { result.now ≡ self.now }
        ensures kept { All IsKept self.now }
    {
        self.items.as_slice()
    }
}
