// Names that stand twice in a row.
ghost use Rattle.std.specs.Prelude.{◌≡◌, map, IfOk};
ghost use Rattle.sig_types.specs.Text.{lower};
ghost use Rattle.pua_model.specs.Plan.{are_apart};

use sig_types::text::lower;
use std::alloc::{AllocError, Global};
use std::collections::BTreeSet;

// The word in small letters.
fn lowered(alloc: Global, word: &[u8]) -> Result<Vec<u8>, AllocError>
    ensures { IfOk result (λ v. v.items ≡ map lower word.now) }
{
    word.iter().map(|b| lower(*b)).collect(alloc)
}

/// Whether no word stands twice, without regard to ASCII case. The words so far are kept in a sorted set, since a row may
/// have very many.
pub(crate) fn are_apart(alloc: Global, words: &[&[u8]]) -> Result<bool, AllocError>
    ensures { IfOk result (λ apart. apart ≡ are_apart (map (λ w. w.now) words.now)) }
{
    let mut seen = BTreeSet::new(alloc);
    for word in words {
        let key = lowered(alloc, word)?;
        match seen.insert(key) {
            Ok(true) => {}
            Ok(false) => return Ok(false),
            Err(_) => return Err(AllocError),
        }
    }
    Ok(true)
}
