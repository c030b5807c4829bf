// The values that words choose.
ghost use Rattle.std.specs.Prelude.{◌≡◌, ◌++◌, [], true, false, IfOk, OnOk, codes, filter, map, string_bytes};
ghost use Rattle.std.specs.Fmt.{decimal};
ghost use Rattle.std.specs.Str.{bytes_eq};
ghost use Rattle.vap_ast.specs.Name.{lowered};
ghost use Rattle.vap_ast.specs.Tree.{program_of};
ghost use Rattle.trace_told.specs.Choices.{IsChoice};
ghost use Rattle.trace_told.specs.Columns.{NamesSome, is_named, meant_by};

use crate::columns::{Column, name_of};
use itoa::Buffer;
use sig_types::text::strip;
use std::alloc::{AllocError, Global};
use vap_check::Checked;

/// Why words choose no values.
#[derive(Clone, Copy)]
pub enum NoChoice {
    /// Memory was wanted and could not be had.
    Memory,
    /// The word at this place is the first that names no value.
    Unknown(usize),
}

// A word in small letters.
fn lowered(alloc: Global, word: &[u8]) -> Result<Vec<u8>, AllocError>
    ensures { IfOk result (λ w. w.items ≡ lowered word.now) }
{
    word.iter().map(|b| b.to_ascii_lowercase()).collect(alloc)
}

// Whether bytes are these digits, and then a bracket.
#[tactic(auto, using(crate::proofs::ValuesNamed::fronts))]
fn ends_place(digits: &[u8], bytes: &[u8]) -> bool
    ensures { result ≡ bytes_eq (digits.now ++ codes "]") bytes.now }
{
    match strip(digits, bytes) {
        Some(rest) => b"]".as_slice() == rest,
        None => false,
    }
}

// Whether bytes are a place in brackets.
#[tactic(auto, using(crate::proofs::ValuesNamed::fronts))]
fn is_place(place: u16, bytes: &[u8]) -> bool
    ensures { result ≡ bytes_eq (codes "[" ++ (decimal place ++ codes "]")) bytes.now }
{
    match strip(b"[", bytes) {
        Some(rest) => {
            let mut digits = Buffer::new();
            ends_place(digits.format(place).as_bytes(), rest)
        }
        None => false,
    }
}

// Whether bytes are a name, and then a place in brackets.
#[tactic(auto, using(crate::proofs::ValuesNamed::fronts))]
fn is_cell(name: &[u8], place: u16, bytes: &[u8]) -> bool
    ensures { result ≡ bytes_eq (name.now ++ (codes "[" ++ (decimal place ++ codes "]"))) bytes.now }
{
    match strip(name, bytes) {
        Some(rest) => is_place(place, rest),
        None => false,
    }
}

// Whether bytes in small letters name a value: as it is named, or by the name of its array.
#[tactic(auto, using(crate::proofs::ValuesNamed::named_alone))]
fn is_named(checked: &Checked, column: Column, bytes: &[u8]) -> bool
    ensures { result ≡ is_named (program_of checked.now.tree) bytes.now column }
{
    let name = name_of(checked, column);
    match column {
        Column::Variable(_) | Column::Timer(_) => name == bytes,
        Column::Cell(_, place) => name == bytes || is_cell(name, place, bytes),
    }
}

// Adds the values that bytes in small letters name.
fn add_named(
    chosen: &mut Vec<Column>,
    checked: &Checked,
    columns: &[Column],
    bytes: &[u8],
) -> Result<(), AllocError>
    ensures { OnOk result (chosen.new.items ≡ chosen.old.items ++ filter (is_named (program_of checked.now.tree) bytes.now) columns.now) }
{
    for column in columns {
        if is_named(checked, *column, bytes) {
            chosen.push(*column)?;
        }
    }
    Ok(())
}

// Adds the values that a word names, and tells whether there are some.
fn add_meant(
    alloc: Global,
    chosen: &mut Vec<Column>,
    checked: &Checked,
    columns: &[Column],
    word: &[u8],
) -> Result<bool, AllocError>
    ensures added { OnOk result (chosen.new.items ≡ chosen.old.items ++ meant_by (program_of checked.now.tree) columns.now word.now) }
    ensures some { IfOk result (λ some. some ≡ true → NamesSome (program_of checked.now.tree) columns.now word.now) }
    ensures none { IfOk result (λ some. some ≡ false → meant_by (program_of checked.now.tree) columns.now word.now ≡ []) }
{
    let bytes = lowered(alloc, word)?;
    let before = chosen.len();
    add_named(chosen, checked, columns, bytes.as_slice())?;
    Ok(before < chosen.len())
}

/// The values that words choose among these, in the order of the words. Letters of either case are alike, and the name
/// of an array chooses all its cells.
pub fn choose(
    alloc: Global,
    checked: &Checked,
    columns: &[Column],
    words: &[String],
) -> Result<Vec<Column>, NoChoice>
    ensures choice { IsChoice (program_of checked.now.tree) columns.now (map string_bytes words.now) result }
{
    let mut chosen = Vec::new(alloc);
    for k in 0..words.len() {
        match add_meant(alloc, &mut chosen, checked, columns, words[k].as_bytes()) {
            Ok(true) => {}
            Ok(false) => return Err(NoChoice::Unknown(k)),
            Err(_) => return Err(NoChoice::Memory),
        }
    }
    Ok(chosen)
}
