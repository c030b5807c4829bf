// Which tokens of a program are the first of their word.
ghost use Rattle.std.specs.Prelude.{◌≡◌, not, IfOk, OnOk};
ghost use Rattle.vap_check.specs.Names.{among, with_name};
ghost use Rattle.site_check.specs.Firsts.{AreFirsts, is_new, with_word};

use indexmap::IndexSet;
use std::alloc::{AllocError, Global};
use vap_ast::Name;
use vap_lex::{Token, TokenKind};

// Notes a word. Whether it was not noted before.
fn note_name(alloc: Global, words: &mut IndexSet<Name>, name: &Name) -> Result<bool, AllocError>
    ensures words { OnOk result (words.new.keys ≡ with_name words.old.keys name.now) }
    ensures first { IfOk result (λ first. first ≡ not (among words.old.keys name.now)) }
{
    if words.contains(name) {
        return Ok(false);
    }
    let Ok(name) = name.copy(alloc) else {
        return Err(AllocError);
    };
    match words.insert(name) {
        Ok(_) => Ok(true),
        Err(_) => Err(AllocError),
    }
}

// Notes the word of a token. Whether it is one that was not noted before.
fn note_word(alloc: Global, words: &mut IndexSet<Name>, token: &Token) -> Result<bool, AllocError>
    ensures words { OnOk result (words.new.keys ≡ with_word words.old.keys token.now.kind) }
    ensures first { IfOk result (λ first. first ≡ is_new words.old.keys token.now.kind) }
{
    match &token.kind {
        TokenKind::Word(name) => note_name(alloc, words, name),
        TokenKind::Number(_) | TokenKind::Sign(_) => Ok(false),
    }
}

/// For each token whether it is a word that no token before it is.
#[tactic(auto, using(crate::proofs::FirstWords::none_seen, crate::proofs::FirstWords::one_more, crate::proofs::FirstWords::all_noted))]
pub(crate) fn firsts_in(alloc: Global, tokens: &[Token]) -> Result<Vec<bool>, AllocError>
    ensures { IfOk result (λ v. AreFirsts tokens.now v.items) }
{
    let mut words = IndexSet::new(alloc);
    let mut firsts = Vec::with_capacity(alloc, tokens.len())?;
    for token in tokens {
        let first = note_word(alloc, &mut words, token)?;
        firsts.push(first)?;
    }
    Ok(firsts)
}
