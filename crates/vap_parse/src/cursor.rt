// The tokens that are left.
ghost use Rattle.std.specs.Prelude.{◌≡◌, ◌<◌, ◌≤◌, ◌+◌, [], ◌∷◌, None, Some, Ok, Err, IfOk, IfErr, IfSome, IsOk, MatchOption};
ghost use Rattle.std.specs.List.{All};
ghost use Rattle.vap_lex.specs.Kept.{IsNatural};
ghost use Rattle.vap_parse.specs.Kinds.{same_kind};
ghost use Rattle.vap_parse.specs.Input as spec;
ghost use Rattle.vap_parse.specs.Input.{Reads, Input};
ghost use Rattle.vap_parse.specs.declared.kind.Reason.TheVariants.{Unexpected};
ghost use Rattle.vap_parse.specs.declared.stop.Stop.TheVariants.{Refused};

use crate::kind::{
    Kind, Rank, Reason, aspect_of, command_of, kind_of, operator_of, reading_of, same_kind,
    timer_of,
};
use crate::stop::Stop;
use sig_types::{CommandKind, ReadingKind, TimerKind};
use std::alloc::Global;
use std::marker::Model;
use vap_ast::{BinaryOp, Name};
use vap_lex::{Token, TokenKind};

/// The tokens that are left, and how many more operators the statement may have.
#[derive(Drop)]
pub struct Cursor<'a> {
    tokens: &'a [Token],
    operators: usize,
}

impl<'a> Model for Cursor<'a> {
    ghost use Rattle.vap_parse.specs.Input.{Input};

    ghost Value = { Input };

    ghost view = { λ c. record { rest = c.tokens.now; operators = c.operators } };
}

impl<'a> Cursor<'a> {
    /// All these tokens are left.
    pub fn new(tokens: &'a [Token], operators: usize) -> Cursor<'a>
        ensures { result ≡ spec.input tokens.now operators }
    {
        Cursor { tokens, operators }
    }

    /// The kind of the next token.
    #[tactic(auto, unfolding(crate::specs::Input::kind))]
    pub fn peek(&self) -> Kind
        ensures { result ≡ spec.kind self.now }
    {
        match self.tokens {
            [] => Kind::Nothing,
            [first, ..] => kind_of(&first.kind),
        }
    }

    /// All tokens that are left.
    pub fn rest(&self) -> &'a [Token]
        ensures { result.now ≡ self.now.rest }
    {
        self.tokens
    }

    /// Whether the next token is of this kind.
    pub fn sees(&self, kind: Kind) -> bool
        ensures { result ≡ same_kind (spec.kind self.now) kind }
    {
        same_kind(self.peek(), kind)
    }

    /// The operators of a statement are counted anew.
    pub fn count_anew(&mut self, operators: usize)
        ensures { self.new ≡ spec.input self.old.rest operators }
    {
        self.operators = operators;
    }

    // The next token and those behind it.
    fn first(&self) -> Result<(&'a Token, &'a [Token]), Stop>
        ensures found { IfOk result (λ p. self.now.rest ≡ p.0.now ∷ p.1.now) }
        ensures none_left { IfErr result (λ e. (self.now.rest ≡ []) × (e ≡ Refused Unexpected)) }
    {
        match self.tokens {
            [first, rest @ ..] => Ok((first, rest)),
            [] => Err(Stop::Refused(Reason::Unexpected)),
        }
    }

    /// Takes a token of this kind; its line.
    #[tactic(auto, unfolding(crate::specs::Input::token))]
    pub fn expect(&mut self, kind: Kind) -> Result<u32, Stop>
        ensures { Reads (spec.expect kind self.old) result self.new }
    {
        let (first, rest) = self.first()?;
        let line = expected(line_where(kind, first))?;
        self.tokens = rest;
        Ok(line)
    }

    /// Takes a name; its word and its line.
    #[tactic(auto, unfolding(crate::specs::Input::token))]
    pub fn name(&mut self, alloc: Global) -> Result<(Name, u32), Stop>
        ensures { Reads (spec.name self.old) result self.new }
    {
        let (first, rest) = self.first()?;
        let name = expected(name_in(&first.kind))?.copy(alloc)?;
        self.tokens = rest;
        Ok((name, first.line))
    }

    /// Takes a number.
    #[tactic(auto, unfolding(crate::specs::Input::token))]
    pub fn number(&mut self) -> Result<i32, Stop>
        ensures reads { Reads (spec.number self.old) result self.new }
        ensures natural { IfOk result IsNatural }
    {
        let (first, rest) = self.first()?;
        let number = expected(number_in(&first.kind))?;
        self.tokens = rest;
        Ok(number)
    }

    /// Takes the number of a frequency, which is 1.
    #[tactic(auto, unfolding(crate::specs::Input::token))]
    pub fn frequency(&mut self) -> Result<i32, Stop>
        ensures { Reads (spec.frequency self.old) result self.new }
    {
        let (first, rest) = self.first()?;
        let number = expected(number_in(&first.kind))?;
        if number != 1 {
            return Err(Stop::Refused(Reason::Frequency));
        }
        self.tokens = rest;
        Ok(number)
    }

    /// Takes a token of this kind, which opens a level, where this many are left; its line.
    #[tactic(auto, unfolding(crate::specs::Input::token))]
    pub fn enter(&mut self, levels: usize, kind: Kind) -> Result<u32, Stop>
        ensures reads { Reads (spec.enter levels kind self.old) result self.new }
        ensures level_left { IsOk result → 0 < levels }
    {
        let (first, rest) = self.first()?;
        let line = expected(line_where(kind, first))?;
        if levels == 0 {
            return Err(Stop::Refused(Reason::TooDeep));
        }
        self.tokens = rest;
        Ok(line)
    }

    /// Takes an operator of this rank, where the statement may have one more.
    #[tactic(auto, unfolding(crate::specs::Input::token))]
    pub fn operator(&mut self, rank: Rank) -> Result<BinaryOp, Stop>
        ensures { Reads (spec.operator rank self.old) result self.new }
    {
        let (first, rest) = self.first()?;
        let op = expected(operator_of(rank, kind_of(&first.kind)))?;
        if self.operators == 0 {
            return Err(Stop::Refused(Reason::TooDeep));
        }
        self.operators -= 1;
        self.tokens = rest;
        Ok(op)
    }

    /// Takes the word of a reading.
    #[tactic(auto, unfolding(crate::specs::Input::token))]
    pub fn reading(&mut self) -> Result<ReadingKind, Stop>
        ensures { Reads (spec.reading self.old) result self.new }
    {
        let (first, rest) = self.first()?;
        let kind = expected(reading_of(kind_of(&first.kind)))?;
        self.tokens = rest;
        Ok(kind)
    }

    /// Takes the name of an aspect; the reading of it.
    #[tactic(auto, unfolding(crate::specs::Input::token))]
    pub fn aspect(&mut self) -> Result<ReadingKind, Stop>
        ensures { Reads (spec.aspect self.old) result self.new }
    {
        let (first, rest) = self.first()?;
        let kind = expected(aspect_in(&first.kind))?;
        self.tokens = rest;
        Ok(kind)
    }

    /// Takes the word of a command; the command and its line.
    #[tactic(auto, unfolding(crate::specs::Input::token))]
    pub fn command(&mut self) -> Result<(CommandKind, u32), Stop>
        ensures { Reads (spec.command self.old) result self.new }
    {
        let (first, rest) = self.first()?;
        let kind = expected(command_of(kind_of(&first.kind)))?;
        self.tokens = rest;
        Ok((kind, first.line))
    }

    /// Takes the word of a timer command; the command and its line.
    #[tactic(auto, unfolding(crate::specs::Input::token))]
    pub fn timer(&mut self) -> Result<(TimerKind, u32), Stop>
        ensures { Reads (spec.timer self.old) result self.new }
    {
        let (first, rest) = self.first()?;
        let kind = expected(timer_of(kind_of(&first.kind)))?;
        self.tokens = rest;
        Ok((kind, first.line))
    }

    /// Takes tokens up to the bracket that closes, round brackets being balanced before it.
    #[tactic(auto, unfolding(crate::specs::Input::skipped))]
    pub fn skip(&mut self) -> Result<(), Stop>
        ensures { Reads (spec.skipped self.old) result self.new }
    {
        let mut depth: usize = 0;
        while let [first, rest @ ..] = self.tokens {
            self.tokens = rest;
            match depth_behind(kind_of(&first.kind), depth) {
                Some(behind) => depth = behind,
                None => return Ok(()),
            }
        }
        Err(Stop::Refused(Reason::Unexpected))
    }

    /// Asks that nothing is left.
    #[tactic(auto, unfolding(crate::specs::Input::ended))]
    pub fn end(&self) -> Result<(), Stop>
        ensures { Reads (spec.ended self.now) result self.now }
    {
        match self.tokens {
            [] => Ok(()),
            [_, ..] => Err(Stop::Refused(Reason::Unexpected)),
        }
    }
}

// How many round brackets are open behind a token, beside the one that is to be closed; None behind the one that closes
// it.
fn depth_behind(kind: Kind, depth: usize) -> Option<usize>
    requires { depth < 9223372036854775808 }
    ensures depth { result ≡ spec.depth_behind kind depth }
    ensures one_more_at_most { IfSome result (λ d. d ≤ depth + 1) }
{
    match kind {
        Kind::Open => Some(depth + 1),
        Kind::Close => depth.checked_sub(1),
        _ => Some(depth),
    }
}

// What was picked of a token, or a refusal where nothing was.
fn expected<A: Drop>(picked: Option<A>) -> Result<A, Stop>
    ensures { MatchOption picked (result ≡ Err (Refused Unexpected)) (λ a. result ≡ Ok a) }
{
    match picked {
        Some(value) => Ok(value),
        None => Err(Stop::Refused(Reason::Unexpected)),
    }
}

// The line of a token, where it is of this kind.
fn line_where(kind: Kind, token: &Token) -> Option<u32>
    ensures { result ≡ spec.where_kind kind spec.line_of token.now }
{
    if same_kind(kind_of(&token.kind), kind) {
        Some(token.line)
    } else {
        None
    }
}

// The name that a token is, if it is one.
fn name_in(token: &TokenKind) -> Option<&Name>
    ensures { MatchOption result (spec.name_in token.now ≡ None) (λ n. spec.name_in token.now ≡ Some n.now) }
{
    match token {
        TokenKind::Word(name) if same_kind(kind_of(token), Kind::Name) => Some(name),
        TokenKind::Word(_) | TokenKind::Number(_) | TokenKind::Sign(_) => None,
    }
}

// The number that a token is, if it is one; a number of a text has no sign.
fn number_in(token: &TokenKind) -> Option<i32>
    ensures number { result ≡ spec.number_in token.now }
    ensures natural { IfSome result IsNatural }
{
    match token {
        TokenKind::Number(n) if *n >= 0 => Some(*n),
        TokenKind::Number(_) | TokenKind::Word(_) | TokenKind::Sign(_) => None,
    }
}

// The reading of an aspect whose name a token is, if it is one.
fn aspect_in(token: &TokenKind) -> Option<ReadingKind>
    ensures { result ≡ spec.aspect_in token.now }
{
    match token {
        TokenKind::Word(name) => aspect_of(name.bytes()),
        TokenKind::Number(_) | TokenKind::Sign(_) => None,
    }
}
