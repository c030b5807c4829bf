// The values that a TRACE prints.
ghost use Rattle.std.specs.Prelude.{◌≡◌, ◌++◌, IfOk, OnOk, filter};
ghost use Rattle.trace_told.specs.Named.{is_meant, named_behind, named_by, named_by_all, named_in};

use crate::columns::Column;
use std::alloc::{AllocError, Global};
use vap_ast::Meaning;
use vap_check::Checked;
use vap_lex::{Token, TokenKind};

// Whether a name with this meaning names a value.
fn is_meant(meaning: Option<Meaning>, column: Column) -> bool
    ensures { result ≡ is_meant meaning column }
{
    match (meaning, column) {
        (Some(Meaning::Variable(variable)), Column::Variable(v)) => v == variable,
        (Some(Meaning::Timer(timer)), Column::Timer(t)) => t == timer,
        (Some(Meaning::Array(array)), Column::Cell(a, _)) => a == array,
        (Some(Meaning::Variable(_)), Column::Timer(_) | Column::Cell(_, _))
        | (Some(Meaning::Timer(_)), Column::Variable(_) | Column::Cell(_, _))
        | (Some(Meaning::Array(_)), Column::Variable(_) | Column::Timer(_))
        | (Some(Meaning::Constant(_)) | Some(Meaning::Sub(_)) | None, _) => false,
    }
}

// Adds the values that a name with this meaning names.
fn add_meant(
    chosen: &mut Vec<Column>,
    columns: &[Column],
    meaning: Option<Meaning>,
) -> Result<(), AllocError>
    ensures { OnOk result (chosen.new.items ≡ chosen.old.items ++ filter (is_meant meaning) columns.now) }
{
    for column in columns {
        if is_meant(meaning, *column) {
            chosen.push(*column)?;
        }
    }
    Ok(())
}

// Adds the values that a token names.
fn add_by(
    chosen: &mut Vec<Column>,
    checked: &Checked,
    columns: &[Column],
    kind: &TokenKind,
) -> Result<(), AllocError>
    ensures { OnOk result (chosen.new.items ≡ chosen.old.items ++ named_by checked.now.names columns.now kind.now) }
{
    match kind {
        TokenKind::Word(name) => add_meant(chosen, columns, checked.meaning(name)),
        TokenKind::Number(_) | TokenKind::Sign(_) => Ok(()),
    }
}

// The values that tokens name, in the order of the tokens.
fn named_by_all(
    alloc: Global,
    checked: &Checked,
    columns: &[Column],
    tokens: &[Token],
) -> Result<Vec<Column>, AllocError>
    ensures { IfOk result (λ chosen. chosen.items ≡ named_by_all checked.now.names columns.now tokens.now) }
{
    let mut chosen = Vec::new(alloc);
    for token in tokens {
        add_by(&mut chosen, checked, columns, &token.kind)?;
    }
    Ok(chosen)
}

// The values of a TRACE whose first token is this word.
fn named_behind(
    alloc: Global,
    checked: &Checked,
    columns: &[Column],
    word: &[u8],
    tokens: &[Token],
) -> Result<Vec<Column>, AllocError>
    ensures { IfOk result (λ chosen. chosen.items ≡ named_behind checked.now.names columns.now word.now tokens.now) }
{
    if tokens.is_empty() {
        if word == b"all".as_slice() {
            return Vec::from_slice(alloc, columns);
        }
        return Ok(Vec::new(alloc));
    }
    if word == b"variable".as_slice() {
        return named_by_all(alloc, checked, columns, tokens);
    }
    Ok(Vec::new(alloc))
}

/// The values that the tokens in the brackets of a `TRACE` choose among these: `ALL`, alone, all of them, and `VARIABLE` those
/// that are named behind it, in their order; any other tokens none.
pub fn named_in(
    alloc: Global,
    checked: &Checked,
    columns: &[Column],
    tokens: &[Token],
) -> Result<Vec<Column>, AllocError>
    ensures { IfOk result (λ chosen. chosen.items ≡ named_in checked.now.names columns.now tokens.now) }
{
    let Some((first, rest)) = tokens.split_first() else {
        return Ok(Vec::new(alloc));
    };
    match &first.kind {
        TokenKind::Word(word) => named_behind(alloc, checked, columns, word.bytes(), rest),
        TokenKind::Number(_) | TokenKind::Sign(_) => Ok(Vec::new(alloc)),
    }
}
