// Declarations.
ghost use Rattle.std.specs.Prelude.{◌≡◌, map};
ghost use Rattle.vap_ast.specs.Tree.{array_of, constant_of};
ghost use Rattle.vap_parse.specs.Input as spec;
ghost use Rattle.vap_parse.specs.Input.{Builds, Leaves, Reads};
ghost use Rattle.vap_parse.specs.Descent as rule;
ghost use Rattle.vap_parse.specs.Kinds.{declares};
ghost use Rattle.vap_parse.specs.View.{values_of};
ghost use Rattle.vap_parse.specs.declared.kind.Kind.TheVariants as kind;

use crate::cursor::Cursor;
use crate::kind::{Kind, declares};
use crate::statement::semis;
use crate::stop::Stop;
use std::alloc::Global;
use vap_ast::{ArrayDecl, ConstDecl};

#[tactic(auto, unfolding(crate::specs::Descent::below_zero))]
fn below_zero(tokens: &mut Cursor<'_>) -> Result<i32, Stop>
    ensures { Reads (rule.below_zero tokens.old) result tokens.new }
{
    tokens.expect(Kind::Minus)?;
    let number = tokens.number()?;
    Ok(-number)
}

#[tactic(auto, unfolding(crate::specs::Descent::value))]
fn value(tokens: &mut Cursor<'_>) -> Result<i32, Stop>
    ensures { Reads (rule.value tokens.old) result tokens.new }
{
    if tokens.sees(Kind::Minus) {
        below_zero(tokens)
    } else {
        tokens.number()
    }
}

#[tactic(auto, unfolding(crate::specs::Descent::constant))]
fn constant(alloc: Global, tokens: &mut Cursor<'_>) -> Result<ConstDecl, Stop>
    ensures { Builds constant_of (rule.constant tokens.old) result tokens.new }
{
    let (name, line) = tokens.name(alloc)?;
    tokens.expect(Kind::Eq)?;
    let value = value(tokens)?;
    Ok(ConstDecl { name, line, value })
}

#[tactic(auto, unfolding(crate::specs::Descent::next_constant))]
fn more_constants(
    alloc: Global,
    tokens: &mut Cursor<'_>,
    consts: &mut Vec<ConstDecl>,
) -> Result<(), Stop>
    ensures { Leaves (spec.many (rule.is kind.Comma) rule.next_constant (map constant_of consts.old.items) tokens.old)
        result (map constant_of consts.new.items) tokens.new }
{
    while tokens.sees(Kind::Comma) {
        tokens.expect(Kind::Comma)?;
        let next = constant(alloc, tokens)?;
        consts.push(next)?;
    }
    Ok(())
}

#[tactic(auto, unfolding(crate::specs::Descent::constants))]
fn constants(
    alloc: Global,
    tokens: &mut Cursor<'_>,
    consts: &mut Vec<ConstDecl>,
) -> Result<(), Stop>
    ensures { Leaves (rule.constants (map constant_of consts.old.items) tokens.old)
        result (map constant_of consts.new.items) tokens.new }
{
    tokens.expect(Kind::Const)?;
    let first = constant(alloc, tokens)?;
    consts.push(first)?;
    more_constants(alloc, tokens, consts)
}

#[tactic(auto, unfolding(crate::specs::Descent::next_value))]
fn more_values(tokens: &mut Cursor<'_>, values: &mut Vec<i32>) -> Result<(), Stop>
    ensures { Leaves (spec.many (rule.is kind.Comma) rule.next_value values.old.items tokens.old)
        result values.new.items tokens.new }
{
    while tokens.sees(Kind::Comma) {
        tokens.expect(Kind::Comma)?;
        let next = value(tokens)?;
        values.push(next)?;
    }
    Ok(())
}

#[tactic(auto, unfolding(crate::specs::Descent::values))]
fn values(alloc: Global, tokens: &mut Cursor<'_>) -> Result<Vec<i32>, Stop>
    ensures { Builds values_of (rule.values tokens.old) result tokens.new }
{
    tokens.expect(Kind::OpenIndex)?;
    let first = value(tokens)?;
    let mut values = Vec::new(alloc);
    values.push(first)?;
    more_values(tokens, &mut values)?;
    tokens.expect(Kind::CloseIndex)?;
    Ok(values)
}

#[tactic(auto, unfolding(crate::specs::Descent::array))]
fn array(alloc: Global, tokens: &mut Cursor<'_>) -> Result<ArrayDecl, Stop>
    ensures { Builds array_of (rule.array tokens.old) result tokens.new }
{
    let (name, line) = tokens.name(alloc)?;
    tokens.expect(Kind::OpenIndex)?;
    let size = tokens.number()?;
    tokens.expect(Kind::CloseIndex)?;
    tokens.expect(Kind::Eq)?;
    let values = values(alloc, tokens)?;
    Ok(ArrayDecl {
        name,
        line,
        size,
        values,
    })
}

#[tactic(auto, unfolding(crate::specs::Descent::next_array))]
fn more_arrays(
    alloc: Global,
    tokens: &mut Cursor<'_>,
    arrays: &mut Vec<ArrayDecl>,
) -> Result<(), Stop>
    ensures { Leaves (spec.many (rule.is kind.Comma) rule.next_array (map array_of arrays.old.items) tokens.old)
        result (map array_of arrays.new.items) tokens.new }
{
    while tokens.sees(Kind::Comma) {
        tokens.expect(Kind::Comma)?;
        let next = array(alloc, tokens)?;
        arrays.push(next)?;
    }
    Ok(())
}

#[tactic(auto, unfolding(crate::specs::Descent::arrays))]
fn arrays(alloc: Global, tokens: &mut Cursor<'_>, arrays: &mut Vec<ArrayDecl>) -> Result<(), Stop>
    ensures { Leaves (rule.arrays (map array_of arrays.old.items) tokens.old) result (map array_of arrays.new.items) tokens.new }
{
    tokens.expect(Kind::Array)?;
    let first = array(alloc, tokens)?;
    arrays.push(first)?;
    more_arrays(alloc, tokens, arrays)
}

#[tactic(auto, unfolding(crate::specs::Descent::frequencies))]
fn frequency(tokens: &mut Cursor<'_>) -> Result<(), Stop>
    ensures { Reads (rule.frequencies tokens.old) result tokens.new }
{
    tokens.expect(Kind::VapFrequency)?;
    tokens.frequency()?;
    Ok(())
}

#[tactic(auto, unfolding(crate::specs::Descent::one_declaration, crate::specs::Descent::declared_frequency, crate::specs::Descent::declared_constants, crate::specs::Descent::declared_arrays))]
fn one_declaration(
    alloc: Global,
    tokens: &mut Cursor<'_>,
    consts: &mut Vec<ConstDecl>,
    arrays_: &mut Vec<ArrayDecl>,
) -> Result<(), Stop>
    ensures { Leaves (rule.one_declaration (map constant_of consts.old.items, map array_of arrays_.old.items) tokens.old)
        result (map constant_of consts.new.items, map array_of arrays_.new.items) tokens.new }
{
    if tokens.sees(Kind::VapFrequency) {
        frequency(tokens)
    } else if tokens.sees(Kind::Const) {
        constants(alloc, tokens, consts)
    } else {
        arrays(alloc, tokens, arrays_)
    }
}

#[tactic(auto, unfolding(crate::specs::Descent::declaration))]
fn declaration(
    alloc: Global,
    tokens: &mut Cursor<'_>,
    consts: &mut Vec<ConstDecl>,
    arrays: &mut Vec<ArrayDecl>,
) -> Result<(), Stop>
    ensures { Leaves (rule.declaration (map constant_of consts.old.items, map array_of arrays.old.items) tokens.old)
        result (map constant_of consts.new.items, map array_of arrays.new.items) tokens.new }
{
    one_declaration(alloc, tokens, consts, arrays)?;
    semis(tokens)
}

/// Reads declarations, whose constants and arrays are put at the end.
pub fn declarations(
    alloc: Global,
    tokens: &mut Cursor<'_>,
    consts: &mut Vec<ConstDecl>,
    arrays: &mut Vec<ArrayDecl>,
) -> Result<(), Stop>
    ensures { Leaves
        (spec.many declares rule.declaration (map constant_of consts.old.items, map array_of arrays.old.items) tokens.old)
        result (map constant_of consts.new.items, map array_of arrays.new.items) tokens.new }
{
    while declares(tokens.peek()) {
        declaration(alloc, tokens, consts, arrays)?;
    }
    Ok(())
}
