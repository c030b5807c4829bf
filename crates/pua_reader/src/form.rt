// The forms of a row of an interstage.
ghost use Rattle.std.specs.Prelude.{◌≡◌, map};
ghost use Rattle.pua_reader.specs.Interstages.{number_form, stage_form, ends_form, form_of_two, form_of_three, form_of};
ghost use Rattle.pua_reader.specs.Stages.{is_stage_word};

use crate::words::is_signed;
use sig_types::text::{is_name, is_number, same_name};

/// What a row of an interstage gives.
#[derive(Clone, Copy, PartialEq, Eq)]
pub enum Form {
    Length,
    From,
    To,
    /// The interstage's number, which is passed over.
    Number,
    /// A group's red end and green end.
    Ends,
    NoForm,
}

/// A stage's name or number.
pub(crate) fn is_stage_word(word: &[u8]) -> bool
    ensures { result ≡ is_stage_word word.now }
{
    is_name(word) || is_number(word)
}

fn number_form(word: &[u8]) -> Form
    ensures { result ≡ number_form word.now }
{
    if is_number(word) {
        Form::Length
    } else {
        Form::NoForm
    }
}

fn stage_form(form: Form, word: &[u8]) -> Form
    ensures { result ≡ stage_form form word.now }
{
    if is_stage_word(word) {
        form
    } else {
        Form::NoForm
    }
}

fn ends_form(group: &[u8], red_end: &[u8], green_end: &[u8]) -> Form
    ensures { result ≡ ends_form group.now red_end.now green_end.now }
{
    if is_name(group) && is_signed(red_end) && is_signed(green_end) {
        Form::Ends
    } else {
        Form::NoForm
    }
}

#[tactic(auto, unfolding(crate::specs::Interstages::form_of_two))]
fn form_of_two(a: &[u8], b: &[u8]) -> Form
    ensures { result ≡ form_of_two a.now b.now }
{
    if same_name(a, b"length") || same_name(a, b"length[s]") {
        number_form(b)
    } else if same_name(a, b"from_stage") {
        stage_form(Form::From, b)
    } else if same_name(a, b"to_stage") {
        stage_form(Form::To, b)
    } else if same_name(a, b"interstage_number") {
        Form::Number
    } else {
        Form::NoForm
    }
}

#[tactic(auto, unfolding(crate::specs::Interstages::form_of_three))]
fn form_of_three(a: &[u8], b: &[u8], c: &[u8]) -> Form
    ensures { result ≡ form_of_three a.now b.now c.now }
{
    if same_name(a, b"length") {
        if same_name(b, b"[s]") {
            number_form(c)
        } else {
            Form::NoForm
        }
    } else if same_name(a, b"from") && same_name(b, b"stage") {
        stage_form(Form::From, c)
    } else if same_name(a, b"to") && same_name(b, b"stage") {
        stage_form(Form::To, c)
    } else if same_name(a, b"interstage") && same_name(b, b"number") {
        Form::Number
    } else {
        ends_form(a, b, c)
    }
}

/// The form of the row with these words.
pub(crate) fn form_of(words: &[&[u8]]) -> Form
    ensures { result ≡ form_of (map (λ w. w.now) words.now) }
{
    match words {
        [a, b] => form_of_two(a, b),
        [a, b, c] => form_of_three(a, b, c),
        _ => Form::NoForm,
    }
}
