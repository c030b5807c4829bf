// Warnings that are allowed, so that they are not told.
ghost use Rattle.std.specs.Prelude.{◌≡◌, [], map, string_bytes, true, IfOk};
ghost use Rattle.site_findings.specs.Allowed.{IsKept, allowed_in, allows, behind_allowed, has_word, has_words, is_allowed, is_among, is_allowed_told, kept, parts_words};
ghost use Rattle.site_findings.specs.Warnings.{warning_name, warning_text};

use crate::finding::{Examined, Finding, Told, Warning};
use crate::text::Text;
use crate::warned::{put_warning, warning_name};
use pua_model::Plan;
use sig_types::text::{cut_at, is_digit, is_letter, same_name};
use std::alloc::{AllocError, Global};

// Whether a byte parts words.
fn parts_words(b: u8) -> bool
    ensures { result ≡ parts_words b }
{
    !is_letter(b) && !is_digit(b)
}

// Whether one of the words of a sentence is this text, whatever its case.
fn is_among(sentence: &[u8], word: &[u8]) -> bool
    ensures { result ≡ is_among sentence.now word.now }
{
    sentence
        .split(|b| parts_words(*b))
        .any(|w| same_name(word, w))
}

// Whether a sentence has this word, whatever its case. No sentence has an empty one.
fn has_word(sentence: &[u8], word: &[u8]) -> bool
    ensures { result ≡ has_word sentence.now word.now }
{
    !word.is_empty() && is_among(sentence, word)
}

// Whether a sentence has each of these words, which commas part.
fn has_words(sentence: &[u8], subject: &[u8]) -> bool
    ensures { result ≡ has_words sentence.now subject.now }
{
    subject
        .split(|b| *b == b',')
        .all(|word| has_word(sentence, word))
}

// Whether WORD, or WORD:SUBJECT, allows a warning with this name and this sentence.
#[tactic(auto, unfolding(crate::specs::Allowed::allows))]
fn allows(text: &[u8], name: &[u8], sentence: &[u8]) -> bool
    ensures { result ≡ allows text.now name.now sentence.now }
{
    match cut_at(b':', text) {
        Some((word, subject)) => same_name(word, name) && has_words(sentence, subject),
        None => same_name(text, name),
    }
}

// Whether what the words of a call allow has a warning with this name and this sentence.
fn is_allowed(words: &[String], name: &[u8], sentence: &[u8]) -> bool
    ensures { result ≡ is_allowed (allowed_in (map string_bytes words.now)) name.now sentence.now }
{
    let mut rest = words;
    while let [flag, text, behind @ ..] = rest {
        if flag.as_str() != "--allow" {
            return false;
        }
        if allows(text.as_bytes(), name, sentence) {
            return true;
        }
        rest = behind;
    }
    false
}

// Whether a warning is allowed by the words of a call.
fn is_allowed_warning(
    alloc: Global,
    plan: &Option<Plan>,
    words: &[String],
    warning: &Warning,
) -> Result<bool, AllocError>
    ensures { IfOk result (λ r. r ≡ is_allowed (allowed_in (map string_bytes words.now)) (warning_name warning.now) (warning_text plan.now warning.now)) }
{
    let mut sentence = Text::new(alloc);
    put_warning(&mut sentence, plan, warning)?;
    Ok(is_allowed(words, warning_name(warning), &sentence.bytes))
}

// Whether what is told is a warning that the words of a call allow.
fn is_allowed_told(
    alloc: Global,
    plan: &Option<Plan>,
    words: &[String],
    told: &Told,
) -> Result<bool, AllocError>
    ensures { IfOk result (λ r. r ≡ is_allowed_told plan.now (allowed_in (map string_bytes words.now)) told.now) }
{
    match told {
        Told::Warned(warning) => is_allowed_warning(alloc, plan, words, warning),
        Told::Refused(_) | Told::Unread | Told::NotJudged => Ok(false),
    }
}

// The findings that are told.
#[tactic(auto, using(crate::proofs::AllowedMore::kept_more, crate::proofs::AllowedMore::kept_same))]
fn kept(
    alloc: Global,
    plan: &Option<Plan>,
    words: &[String],
    findings: Vec<Finding>,
) -> Result<Vec<Finding>, AllocError>
    ensures { IfOk result (λ v. v.items ≡ kept plan.now (allowed_in (map string_bytes words.now)) findings.items) }
{
    let mut told = Vec::new(alloc);
    for finding in findings {
        if !is_allowed_told(alloc, plan, words, &finding.told)? {
            told.push(finding)?;
        }
    }
    Ok(told)
}

// Whether the words of a call begin with nothing that they allow.
fn allows_none(words: &[String]) -> bool
    ensures { result ≡ true → allowed_in (map string_bytes words.now) ≡ [] }
{
    match words {
        [flag, _, ..] => flag.as_str() != "--allow",
        [] | [_] => true,
    }
}

/// What was found, less the warnings that the words of a call allow: each word that follows an `--allow`, from the first word on.
#[tactic(auto, using(crate::proofs::AllowedMore::all_kept))]
pub fn allow(alloc: Global, examined: Examined, words: &[String]) -> Result<Examined, AllocError>
    ensures { IfOk result (IsKept (allowed_in (map string_bytes words.now)) examined) }
{
    if allows_none(words) {
        return Ok(examined);
    }
    let Examined {
        findings,
        plan,
        worst,
        advice,
        pua,
        times,
        intergreens,
        program,
        detectors,
    } = examined;
    let findings = kept(alloc, &plan, words, findings)?;
    Ok(Examined {
        findings,
        plan,
        worst,
        advice,
        pua,
        times,
        intergreens,
        program,
        detectors,
    })
}

/// The words of a call behind what it allows.
pub fn behind_allowed(words: &[String]) -> &[String]
    ensures { map string_bytes result.now ≡ behind_allowed (map string_bytes words.now) }
{
    let mut rest = words;
    while let [flag, _, behind @ ..] = rest {
        if flag.as_str() != "--allow" {
            return rest;
        }
        rest = behind;
    }
    rest
}
