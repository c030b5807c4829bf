// Expressions.
ghost use Rattle.std.specs.Prelude.{◌≡◌, ◌<◌, ◌∷◌, [], IfOk};
ghost use Rattle.vap_ast.specs.Syntax as tree;
ghost use Rattle.vap_ast.specs.Tree.{exprs, expr_of, exprs_of};
ghost use Rattle.vap_parse.specs.Input.{Builds};
ghost use Rattle.vap_parse.specs.Descent as rule;
ghost use Rattle.vap_parse.specs.View.{args_of};
ghost use Rattle.vap_parse.specs.declared.kind.Rank.TheVariants as rank;

use crate::cursor::Cursor;
use crate::kind::{Kind, Rank, operator_of};
use crate::stop::Stop;
use sig_types::ReadingKind;
use std::alloc::{AllocError, AllocFailed, Global};
use vap_ast::{BinaryOp, Expr, Name, UnaryOp};

fn unary(alloc: Global, op: UnaryOp, arg: Expr) -> Result<Expr, AllocError>
    ensures { IfOk result (λ e. expr_of e ≡ tree.Unary op (expr_of arg)) }
{
    Ok(Expr::Unary {
        op,
        arg: Box::new(alloc, arg)?,
    })
}

fn binary(alloc: Global, op: BinaryOp, left: Expr, right: Expr) -> Result<Expr, AllocError>
    ensures { IfOk result (λ e. expr_of e ≡ tree.Binary op (expr_of left) (expr_of right)) }
{
    Ok(Expr::Binary {
        op,
        left: Box::new(alloc, left)?,
        right: Box::new(alloc, right)?,
    })
}

fn cell(alloc: Global, array: Name, index: Expr) -> Result<Expr, AllocError>
    ensures { IfOk result (λ e. expr_of e ≡ tree.Expr.Cell array (expr_of index)) }
{
    Ok(Expr::Cell {
        array,
        index: Box::new(alloc, index)?,
    })
}

fn read(kind: ReadingKind, args: Vec<Expr>) -> Expr
    ensures { expr_of result ≡ tree.Read kind (exprs_of args.items) }
{
    Expr::Read { kind, args }
}

fn read_one(alloc: Global, kind: ReadingKind, arg: Expr) -> Result<Expr, AllocFailed<Expr>>
    ensures { IfOk result (λ e. expr_of e ≡ tree.Read kind (exprs (expr_of arg ∷ []))) }
{
    let mut args = Vec::new(alloc);
    args.push(arg)?;
    Ok(read(kind, args))
}

fn is_operator(rank: Rank, kind: Kind) -> bool
    ensures { result ≡ rule.is_operator rank kind }
{
    operator_of(rank, kind).is_some()
}

#[tactic(auto, unfolding(crate::specs::Descent::literal))]
fn literal(tokens: &mut Cursor<'_>) -> Result<Expr, Stop>
    ensures { Builds expr_of (rule.literal tokens.old) result tokens.new }
{
    Ok(Expr::Literal(tokens.number()?))
}

#[tactic(auto, unfolding(crate::specs::Descent::any_interstage, crate::specs::Descent::empty_brackets))]
fn any_interstage(alloc: Global, tokens: &mut Cursor<'_>, levels: usize) -> Result<Expr, Stop>
    ensures { Builds expr_of (rule.any_interstage levels (rule.inner levels) tokens.old) result tokens.new }
{
    tokens.expect(Kind::AnyInterstageActive)?;
    if tokens.sees(Kind::Open) {
        tokens.enter(levels, Kind::Open)?;
        tokens.expect(Kind::Close)?;
    }
    Ok(read(ReadingKind::AnyInterstage, Vec::new(alloc)))
}

/// An index in brackets, where `levels` more levels may open.
#[cycle(expression)]
#[tactic(auto, unfolding(crate::specs::Descent::index))]
pub fn index(alloc: Global, tokens: &mut Cursor<'_>, levels: usize) -> Result<Expr, Stop>
    ensures { Builds expr_of (rule.index levels (rule.inner levels) tokens.old) result tokens.new }
{
    tokens.enter(levels, Kind::OpenIndex)?;
    let inner = of_rank(alloc, tokens, levels - 1, Rank::Or)?;
    tokens.expect(Kind::CloseIndex)?;
    Ok(inner)
}

#[cycle(expression)]
#[tactic(auto, unfolding(crate::specs::Descent::brackets))]
fn brackets(alloc: Global, tokens: &mut Cursor<'_>, levels: usize) -> Result<Expr, Stop>
    ensures { Builds expr_of (rule.brackets levels (rule.inner levels) tokens.old) result tokens.new }
{
    tokens.enter(levels, Kind::Open)?;
    let inner = of_rank(alloc, tokens, levels - 1, Rank::Or)?;
    tokens.expect(Kind::Close)?;
    Ok(inner)
}

/// Arguments in brackets, where `levels` more levels may open.
#[cycle(expression)]
#[tactic(auto, unfolding(crate::specs::Descent::arguments))]
pub fn arguments(alloc: Global, tokens: &mut Cursor<'_>, levels: usize) -> Result<Vec<Expr>, Stop>
    ensures { Builds args_of (rule.arguments levels (rule.inner levels) tokens.old) result tokens.new }
{
    tokens.enter(levels, Kind::Open)?;
    let mut args = Vec::new(alloc);
    if !tokens.sees(Kind::Close) {
        args = some_arguments(alloc, tokens, levels)?;
    }
    tokens.expect(Kind::Close)?;
    Ok(args)
}

#[cycle(expression)]
#[tactic(auto, unfolding(crate::specs::Descent::some_arguments, crate::specs::Descent::next_argument))]
fn some_arguments(alloc: Global, tokens: &mut Cursor<'_>, levels: usize) -> Result<Vec<Expr>, Stop>
    requires { 0 < levels }
    ensures { Builds args_of (rule.some_arguments levels (rule.inner levels) tokens.old) result tokens.new }
{
    let mut args = Vec::new(alloc);
    let first = of_rank(alloc, tokens, levels - 1, Rank::Or)?;
    args.push(first)?;
    while tokens.sees(Kind::Comma) {
        tokens.expect(Kind::Comma)?;
        let next = of_rank(alloc, tokens, levels - 1, Rank::Or)?;
        args.push(next)?;
    }
    Ok(args)
}

#[cycle(expression)]
#[tactic(auto, unfolding(crate::specs::Descent::a_reading))]
fn reading(alloc: Global, tokens: &mut Cursor<'_>, levels: usize) -> Result<Expr, Stop>
    ensures { Builds expr_of (rule.a_reading levels (rule.inner levels) tokens.old) result tokens.new }
{
    let kind = tokens.reading()?;
    let args = arguments(alloc, tokens, levels)?;
    Ok(read(kind, args))
}

#[cycle(expression)]
#[tactic(auto, unfolding(crate::specs::Descent::current_state))]
fn current_state(alloc: Global, tokens: &mut Cursor<'_>, levels: usize) -> Result<Expr, Stop>
    ensures { Builds expr_of (rule.current_state levels (rule.inner levels) tokens.old) result tokens.new }
{
    tokens.expect(Kind::CurrentState)?;
    tokens.enter(levels, Kind::Open)?;
    let group = of_rank(alloc, tokens, levels - 1, Rank::Or)?;
    tokens.expect(Kind::Comma)?;
    let kind = tokens.aspect()?;
    tokens.expect(Kind::Close)?;
    Ok(read_one(alloc, kind, group)?)
}

#[cycle(expression)]
#[tactic(auto, unfolding(crate::specs::Descent::name_or_cell, crate::specs::Descent::cell_of))]
fn name_or_cell(alloc: Global, tokens: &mut Cursor<'_>, levels: usize) -> Result<Expr, Stop>
    ensures { Builds expr_of (rule.name_or_cell levels (rule.inner levels) tokens.old) result tokens.new }
{
    let (name, _) = tokens.name(alloc)?;
    if tokens.sees(Kind::OpenIndex) {
        let index = index(alloc, tokens, levels)?;
        Ok(cell(alloc, name, index)?)
    } else {
        Ok(Expr::Name(name))
    }
}

#[cycle(expression)]
#[tactic(auto, unfolding(crate::specs::Descent::atom))]
fn atom(alloc: Global, tokens: &mut Cursor<'_>, levels: usize) -> Result<Expr, Stop>
    ensures { Builds expr_of (rule.atom levels (rule.inner levels) tokens.old) result tokens.new }
{
    if tokens.sees(Kind::Number) {
        literal(tokens)
    } else if tokens.sees(Kind::Name) {
        name_or_cell(alloc, tokens, levels)
    } else if tokens.sees(Kind::Open) {
        brackets(alloc, tokens, levels)
    } else if tokens.sees(Kind::CurrentState) {
        current_state(alloc, tokens, levels)
    } else if tokens.sees(Kind::AnyInterstageActive) {
        any_interstage(alloc, tokens, levels)
    } else {
        reading(alloc, tokens, levels)
    }
}

#[cycle(expression)]
#[tactic(auto, unfolding(crate::specs::Descent::sign, crate::specs::Descent::negative))]
fn minus(alloc: Global, tokens: &mut Cursor<'_>, levels: usize) -> Result<Expr, Stop>
    ensures { Builds expr_of (rule.sign levels (rule.inner levels) tokens.old) result tokens.new }
{
    if !tokens.sees(Kind::Minus) {
        return atom(alloc, tokens, levels);
    }
    tokens.enter(levels, Kind::Minus)?;
    let arg = of_rank(alloc, tokens, levels - 1, Rank::Sign)?;
    Ok(unary(alloc, UnaryOp::Neg, arg)?)
}

#[cycle(expression)]
#[tactic(auto, unfolding(crate::specs::Descent::chain, crate::specs::Descent::operation))]
fn chain(
    alloc: Global,
    tokens: &mut Cursor<'_>,
    levels: usize,
    rank: Rank,
    operand: Rank,
) -> Result<Expr, Stop>
    requires { rule.IsChain rank operand }
    ensures { Builds expr_of (rule.chain rank (rule.expr levels operand) tokens.old) result tokens.new }
{
    let mut left = of_rank(alloc, tokens, levels, operand)?;
    while is_operator(rank, tokens.peek()) {
        let op = tokens.operator(rank)?;
        let right = of_rank(alloc, tokens, levels, operand)?;
        left = binary(alloc, op, left, right)?;
    }
    Ok(left)
}

#[cycle(expression)]
#[tactic(auto, unfolding(crate::specs::Descent::comparison, crate::specs::Descent::operation))]
fn comparison(alloc: Global, tokens: &mut Cursor<'_>, levels: usize) -> Result<Expr, Stop>
    ensures { Builds expr_of (rule.comparison levels (rule.inner levels) tokens.old) result tokens.new }
{
    let left = of_rank(alloc, tokens, levels, Rank::Sum)?;
    if !is_operator(Rank::Compare, tokens.peek()) {
        return Ok(left);
    }
    let op = tokens.operator(Rank::Compare)?;
    let right = of_rank(alloc, tokens, levels, Rank::Sum)?;
    Ok(binary(alloc, op, left, right)?)
}

#[cycle(expression)]
#[tactic(auto, unfolding(crate::specs::Descent::negation, crate::specs::Descent::inverse))]
fn negation(alloc: Global, tokens: &mut Cursor<'_>, levels: usize) -> Result<Expr, Stop>
    ensures { Builds expr_of (rule.negation levels (rule.inner levels) tokens.old) result tokens.new }
{
    if !tokens.sees(Kind::Not) {
        return comparison(alloc, tokens, levels);
    }
    tokens.enter(levels, Kind::Not)?;
    let arg = of_rank(alloc, tokens, levels - 1, Rank::Not)?;
    Ok(unary(alloc, UnaryOp::Not, arg)?)
}

/// An expression of this rank, where `levels` more levels may open.
#[cycle(expression)]
#[tactic(auto, unfolding(crate::specs::Descent::disjunction, crate::specs::Descent::conjunction, crate::specs::Descent::sum, crate::specs::Descent::product))]
pub fn of_rank(
    alloc: Global,
    tokens: &mut Cursor<'_>,
    levels: usize,
    rank: Rank,
) -> Result<Expr, Stop>
    ensures { Builds expr_of (rule.expr levels rank tokens.old) result tokens.new }
{
    match rank {
        Rank::Or => chain(alloc, tokens, levels, Rank::Or, Rank::And),
        Rank::And => chain(alloc, tokens, levels, Rank::And, Rank::Not),
        Rank::Not => negation(alloc, tokens, levels),
        Rank::Compare => comparison(alloc, tokens, levels),
        Rank::Sum => chain(alloc, tokens, levels, Rank::Sum, Rank::Product),
        Rank::Product => chain(alloc, tokens, levels, Rank::Product, Rank::Sign),
        Rank::Sign => minus(alloc, tokens, levels),
        Rank::Atom => atom(alloc, tokens, levels),
    }
}
