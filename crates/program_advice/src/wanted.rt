// What could stand in a place, in words.
ghost use Rattle.std.specs.Prelude.{◌≡◌, ◌++◌, IfOk, OnOk, codes};
ghost use Rattle.program_advice.specs.Wanted.{each_part, group_part, has, is_aspect_told, is_covered, kind_part, kinds_text, parts_text, wanted_list};

use crate::bytes::{parted, put};
use crate::kinds::{Class, class_of, class_place, kind_word};
use std::alloc::{AllocError, Global};
use vap_parse::Kind;

/// Whether one of these kinds is of a class.
pub(crate) fn has(kinds: &[Kind], class: Class) -> bool
    ensures { result ≡ has kinds.now class }
{
    kinds
        .iter()
        .any(|kind| class_place(class_of(*kind)) == class_place(class))
}

// Whether a class is told by the word of another one, where one of that is among these kinds.
fn is_covered(kinds: &[Kind], class: Class) -> bool
    ensures { result ≡ is_covered kinds.now class }
{
    match class {
        Class::Alone | Class::End | Class::Assign => false,
        Class::Operand | Class::Reading => has(kinds, Class::Reading),
        Class::Name => has(kinds, Class::Reading) || has(kinds, Class::Command),
        Class::If | Class::Command => has(kinds, Class::Command),
        Class::Equal | Class::Comparison => has(kinds, Class::Comparison),
        Class::Sum | Class::Factor => has(kinds, Class::Factor),
        Class::Minus => has(kinds, Class::Factor) || has(kinds, Class::Reading),
    }
}

// Puts one that could stand.
fn put_part(text: &mut Vec<u8>, word: &[u8]) -> Result<(), AllocError>
    ensures { OnOk result (text.new.items ≡ text.old.items ++ group_part word.now) }
{
    put(text, b", ")?;
    put(text, word)
}

// Puts the word of a class, where one of these kinds is of it.
fn put_group(
    text: &mut Vec<u8>,
    kinds: &[Kind],
    class: Class,
    word: &[u8],
) -> Result<(), AllocError>
    ensures { OnOk result (text.new.items ≡ text.old.items ++ kinds_text (has kinds.now class) word.now) }
{
    if has(kinds, class) {
        put_part(text, word)
    } else {
        Ok(())
    }
}

// Puts the word of a kind, where no other word tells it.
fn put_kind(text: &mut Vec<u8>, kinds: &[Kind], kind: Kind) -> Result<(), AllocError>
    ensures { OnOk result (text.new.items ≡ text.old.items ++ kind_part kinds.now kind) }
{
    if is_covered(kinds, class_of(kind)) {
        Ok(())
    } else {
        put_part(text, kind_word(kind))
    }
}

// Puts the words of all kinds that no other word tells.
fn put_each(text: &mut Vec<u8>, kinds: &[Kind]) -> Result<(), AllocError>
    ensures { OnOk result (text.new.items ≡ text.old.items ++ each_part kinds.now kinds.now) }
{
    for kind in kinds {
        put_kind(text, kinds, *kind)?;
    }
    Ok(())
}

// Whether the name of an aspect is told: where one could stand, and no other name.
fn is_aspect_told(kinds: &[Kind], aspect: bool) -> bool
    ensures { result ≡ is_aspect_told kinds.now aspect }
{
    aspect && !has(kinds, Class::Name)
}

// Puts that the name of an aspect could stand.
fn put_aspect(text: &mut Vec<u8>, aspect: bool) -> Result<(), AllocError>
    ensures { OnOk result (text.new.items ≡ text.old.items ++ kinds_text aspect (codes "the name of an aspect")) }
{
    if aspect {
        put_part(text, b"the name of an aspect")
    } else {
        Ok(())
    }
}

// What could stand, one behind the other, each behind a comma and a blank.
fn parts_of(alloc: Global, kinds: &[Kind], aspect: bool) -> Result<Vec<u8>, AllocError>
    ensures { IfOk result (λ v. v.items ≡ parts_text kinds.now aspect) }
{
    let mut text = Vec::new(alloc);
    put_group(&mut text, kinds, Class::Command, b"a statement")?;
    put_group(&mut text, kinds, Class::Reading, b"a value")?;
    put_group(&mut text, kinds, Class::Factor, b"an operator")?;
    put_group(&mut text, kinds, Class::Comparison, b"a comparison")?;
    put_each(&mut text, kinds)?;
    put_aspect(&mut text, is_aspect_told(kinds, aspect))?;
    Ok(text)
}

/// Puts what could stand.
#[tactic(auto, unfolding(crate::specs::Wanted::wanted_list))]
pub(crate) fn put_wanted(
    alloc: Global,
    text: &mut Vec<u8>,
    kinds: &[Kind],
    aspect: bool,
) -> Result<(), AllocError>
    ensures { OnOk result (text.new.items ≡ text.old.items ++ wanted_list kinds.now aspect) }
{
    let parts = parts_of(alloc, kinds, aspect)?;
    let (_, list) = parted(&parts, 2);
    put(text, list)
}
