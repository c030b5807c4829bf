// How far tokens are a beginning of a text.
ghost use Rattle.std.specs.Prelude.{◌↔◌, ◌≤◌, ◌++◌, ◌∷◌, [], List, IfOk, IfSome, IsTrue, MatchOption, drop, length};
ghost use Rattle.vap_lex.specs.declared.token.Token.{Token as AnyToken};
ghost use Rattle.vap_parse.specs.Same.{Same};
ghost use Rattle.vap_ast.specs.Syntax as plain;
ghost use Rattle.vap_parse.specs.Forms.{fines};
ghost use Rattle.vap_parse.specs.Grammar.{Accepts, Begins, Refuses};
ghost use Rattle.vap_parse.specs.declared.kind.Reason.{Reason};

use crate::cursor::Cursor;
use crate::kind::Reason;
use crate::program::text;
use crate::statement::MAX_OPERATORS;
use crate::stop::Stop;
use std::alloc::{AllocError, Global};
use vap_lex::Token;

/// The first refused token: how many tokens stand before it, and why it is refused. Where the tokens end too early, all
/// stand before it.
#[derive(Clone, Copy)]
pub struct Refused {
    pub at: usize,
    pub why: Reason,
}

/// The first of these tokens that is refused; None where they are a text.
pub fn first_refused(alloc: Global, all: &[Token]) -> Result<Option<Refused>, AllocError>
    ensures first { IfOk result (λ found. MatchOption found
        ((p : plain.Program) × Accepts all.now p) (λ refused. Refuses all.now refused.why (drop refused.at all.now))) }
    ensures within { IfOk result (λ found. IfSome found (λ refused. refused.at ≤ length all.now)) }
{
    let mut left = Cursor::new(all, MAX_OPERATORS);
    match text(alloc, &mut left) {
        Ok(_tree) => Ok(None),
        Err(Stop::Memory) => Err(AllocError),
        Err(Stop::Refused(why)) => Ok(Some(Refused {
            at: all.len() - left.rest().len(),
            why,
        })),
    }
}

/// Whether these tokens, each of them within the limits, are a beginning of a text.
pub fn is_beginning(alloc: Global, all: &[Token]) -> Result<bool, AllocError>
    ensures { IfOk result (λ is. IsTrue is ↔ Begins (fines all.now)) }
{
    match first_refused(alloc, all)? {
        None => Ok(true),
        Some(refused) if refused.at < all.len() => Ok(false),
        Some(_) => Ok(true),
    }
}

/// Where a token can stand behind others, each can that is alike to the grammar: of the same kind, a name, a number, 1 or an aspect
/// as well.
pub fn one_for_all()
    ensures { (before : List AnyToken) (t u : AnyToken) → Same t u → Begins (fines (before ++ t ∷ [])) → Begins (fines (before ++ u ∷ [])) }
{}
