// Programs.
ghost use Rattle.std.specs.Prelude.{◌≡◌, ◌<◌, ◌⊎◌, [], List, ℕ, IfOk, IfErr};
ghost use Rattle.std.specs.List.{All};
ghost use Rattle.vap_ast.specs.Parsed.{IsLine, Parsed};
ghost use Rattle.vap_ast.specs.Syntax as plain;
ghost use Rattle.vap_ast.specs.Tree.{program_of, routine_of};
ghost use Rattle.vap_lex.specs.declared.token.Token.{Token};
ghost use Rattle.vap_parse.specs.Grammar.{Accepts, Refuses};
ghost use Rattle.vap_parse.specs.Input as spec;
ghost use Rattle.vap_parse.specs.Input.{Builds, Reads};
ghost use Rattle.vap_parse.specs.Descent as rule;
ghost use Rattle.vap_parse.specs.Refusal.{IsRefused, line_of, place_of, refusal_of};
ghost use Rattle.vap_parse.specs.View.{subs_of};
ghost use Rattle.vap_parse.specs.declared.kind.Kind.TheVariants as kind;
ghost use Rattle.vap_parse.specs.declared.kind.Reason.{Reason};
ghost use Rattle.vap_parse.specs.declared.program.ParseRefusal.TheVariants.{Memory};

use crate::cursor::Cursor;
use crate::declaration::declarations;
use crate::kind::{Kind, Reason};
use crate::statement::{MAX_OPERATORS, block, items, semis};
use crate::stop::Stop;
use std::alloc::Global;
use thiserror::Error;
use vap_ast::{Program, Routine};
use vap_lex::{Token, Tokens};

/// How deep `IF` may nest.
const MAX_IFS: usize = 100;

/// Why tokens are no program.
#[derive(Clone, Copy, Debug)]
pub enum ParseWhy {
    /// 1: a token that can't follow those before it; its place. Where the tokens end too early, it is the last token's
    /// place plus 1, and 0 without any token.
    Unexpected(u32),
    /// 2: a frequency that is not 1.
    Frequency,
    /// 3: a bracket or sign that opens level 33, an `IF` that opens level 101 of `IF`, or the 901st operator of a statement.
    TooDeep,
}

/// Why tokens have no tree: the line of the first token that is refused, from 1, and the reason. Where the tokens end too
/// early, the line is that of the last token, and 1 without any token.
#[derive(Clone, Copy, Debug, Error)]
pub enum ParseRefusal {
    /// Memory was wanted and could not be had.
    #[error("out of memory")]
    Memory,
    /// The first token that is refused.
    #[error("the program is refused at this token")]
    At { line: u32, why: ParseWhy },
}

#[tactic(auto, unfolding(crate::specs::Descent::ending))]
fn ending(tokens: &mut Cursor<'_>) -> Result<(), Stop>
    ensures { Reads (rule.ending tokens.old) result tokens.new }
{
    tokens.expect(Kind::ProgEnde)?;
    tokens.expect(Kind::Colon)?;
    tokens.expect(Kind::Dot)?;
    semis(tokens)
}

#[tactic(auto, unfolding(crate::specs::Descent::sub))]
fn sub(alloc: Global, tokens: &mut Cursor<'_>) -> Result<Routine, Stop>
    ensures { Builds routine_of (rule.sub tokens.old) result tokens.new }
{
    tokens.expect(Kind::Subroutine)?;
    let (name, line) = tokens.name(alloc)?;
    let body = block(alloc, tokens, MAX_IFS)?;
    ending(tokens)?;
    Ok(Routine { name, line, body })
}

#[tactic(auto, unfolding(crate::specs::Descent::next_sub))]
fn subs(alloc: Global, tokens: &mut Cursor<'_>) -> Result<Vec<Routine>, Stop>
    ensures { Builds subs_of (spec.many (rule.is kind.Subroutine) rule.next_sub [] tokens.old) result tokens.new }
{
    let mut subs = Vec::new(alloc);
    while tokens.sees(Kind::Subroutine) {
        let next = sub(alloc, tokens)?;
        subs.push(next)?;
    }
    Ok(subs)
}

#[tactic(auto, unfolding(crate::specs::Descent::program))]
fn program(alloc: Global, tokens: &mut Cursor<'_>) -> Result<Program, Stop>
    ensures { Builds program_of (rule.program tokens.old) result tokens.new }
{
    tokens.expect(Kind::Program)?;
    let (name, line) = tokens.name(alloc)?;
    semis(tokens)?;
    let mut consts = Vec::new(alloc);
    let mut arrays = Vec::new(alloc);
    declarations(alloc, tokens, &mut consts, &mut arrays)?;
    let subs = subs(alloc, tokens)?;
    let body = items(alloc, tokens, MAX_IFS)?;
    ending(tokens)?;
    let main = Routine { name, line, body };
    Ok(Program {
        consts,
        arrays,
        subs,
        main,
    })
}

/// The tree of the tokens that are left.
#[tactic(auto, unfolding(crate::specs::Descent::text))]
pub(crate) fn text(alloc: Global, tokens: &mut Cursor<'_>) -> Result<Program, Stop>
    ensures { Builds program_of (rule.text tokens.old) result tokens.new }
{
    let program = program(alloc, tokens)?;
    tokens.end()?;
    Ok(program)
}

fn refused_place(all: &[Token], rest: &[Token]) -> u32
    requires { All (λ t. t.place < 4294967294) all.now }
    ensures { result ≡ place_of all.now rest.now }
{
    match rest {
        [next, ..] => next.place,
        [] => all.last().map_or(0, |last| last.place + 1),
    }
}

fn refused_line(all: &[Token], rest: &[Token]) -> u32
    ensures { result ≡ line_of all.now rest.now }
{
    match rest {
        [next, ..] => next.line,
        [] => all.last().map_or(1, |last| last.line),
    }
}

fn refusal(all: &[Token], rest: &[Token], why: Reason) -> ParseRefusal
    requires { All (λ t. t.place < 4294967294) all.now }
    ensures { result ≡ refusal_of all.now rest.now why }
{
    let why = match why {
        Reason::Unexpected => ParseWhy::Unexpected(refused_place(all, rest)),
        Reason::Frequency => ParseWhy::Frequency,
        Reason::TooDeep => ParseWhy::TooDeep,
    };
    ParseRefusal::At {
        line: refused_line(all, rest),
        why,
    }
}

/// The tree of a program's tokens.
///
/// Tokens are refused at the first one with which the tokens so far are no beginning of any program, or which passes a
/// limit: brackets, `NOT` and `-` nest 32 deep in an expression, `IF` nests 100 deep, and a statement has 900 binary
/// operators, those of its branches not counted.
pub fn parse(alloc: Global, tokens: &Tokens) -> Result<Program, ParseRefusal>
    // What is read is a text with this tree.
    ensures tree { IfOk result (λ p. Accepts tokens.now (program_of p)) }
    // Its lines are lines of the tokens, and its expressions leave room for their operands.
    ensures parsed { (most : ℕ) → All (λ t. IsLine most t.line) tokens.now → IfOk result (λ p. Parsed most (program_of p)) }
    // A text is read, unless memory runs out.
    ensures only { (p : plain.Program) → Accepts tokens.now p → IfErr result (λ e. e ≡ Memory) }
    // Where the tokens are no text, the first that is refused is named.
    ensures refused { IfErr result (λ e. IsRefused tokens.now e) }
{
    let all = tokens.as_slice();
    let mut left = Cursor::new(all, MAX_OPERATORS);
    match text(alloc, &mut left) {
        Ok(tree) => Ok(tree),
        Err(Stop::Memory) => Err(ParseRefusal::Memory),
        Err(Stop::Refused(why)) => Err(refusal(all, left.rest(), why)),
    }
}

/// A list of tokens has one tree, or one refused place with one reason, and never both.
pub fn one_answer()
    ensures some { (ts : List Token) → ((p : plain.Program) × Accepts ts p) ⊎ ((w : Reason) × (r : List Token) × Refuses ts w r) }
    ensures tree { (ts : List Token) (p q : plain.Program) → Accepts ts p → Accepts ts q → p ≡ q }
    ensures refusal { (ts : List Token) (v w : Reason) (q r : List Token) → Refuses ts v q → Refuses ts w r → (v ≡ w) × (q ≡ r) }
    ensures apart { (ts : List Token) (p : plain.Program) (w : Reason) (r : List Token) → Accepts ts p → Refuses ts w r → ⊥ }
{}
