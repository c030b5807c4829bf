// The rows of an interstage that give the ends of a group.
ghost use Rattle.std.specs.Prelude.{◌≡◌, is_some, MatchOption, Some, None, true};
ghost use Rattle.pua_reader.specs.declared.form.Form.TheVariants as form;
ghost use Rattle.pua_reader.specs.Words.{words, signed_of};
ghost use Rattle.pua_reader.specs.Interstages.{form_of_three};
ghost use Rattle.pua_reader.specs.InterstageRows.{same_form};
ghost use Rattle.pua_lines.specs.Parts.{ends_name};

use crate::words::cut_word;
use sig_types::text::{is_name, is_number, number, same_name};

// Whether the word is a signed number.
fn is_signed(word: &[u8]) -> bool
    ensures { result ≡ is_some (signed_of word.now) }
{
    match word.split_first() {
        Some((b'-', rest)) => is_number(rest) && number(rest, 0, 0).is_none(),
        _ => is_number(word),
    }
}

// Whether a row of these three words gives the ends of a group and no value of a key.
#[tactic(auto, using(crate::proofs::EndsRows::ends_of_three))]
fn are_ends(a: &[u8], b: &[u8], c: &[u8]) -> bool
    ensures { result ≡ same_form form.Ends (form_of_three a.now b.now c.now) }
{
    if same_name(a, b"length") {
        false
    } else if same_name(a, b"from") && same_name(b, b"stage") {
        false
    } else if same_name(a, b"to") && same_name(b, b"stage") {
        false
    } else if same_name(a, b"interstage") && same_name(b, b"number") {
        false
    } else {
        is_name(a) && is_signed(b) && is_signed(c)
    }
}

/// The group's name in a row of an interstage that gives the group's ends.
#[tactic(auto, using(crate::proofs::EndsRows::no_ends_of_two))]
pub(crate) fn ends_name(row: &[u8]) -> Option<&[u8]>
    ensures { MatchOption result (ends_name (words true row.now) ≡ None) (λ w. ends_name (words true row.now) ≡ Some w.now) }
{
    let (a, rest) = cut_word(true, row)?;
    let (b, rest) = cut_word(true, rest)?;
    match cut_word(true, rest) {
        Some((c, rest)) if cut_word(true, rest).is_none() && are_ends(a, b, c) => Some(a),
        Some(_) | None => None,
    }
}
