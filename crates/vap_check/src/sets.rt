// Sets of names, in the order of their bytes.
ghost use Rattle.std.specs.Prelude.{◌≡◌, OnOk, IfOk};
ghost use Rattle.vap_check.specs.Names.{among, with_name};

use sig_types::Memory;
use std::alloc::Global;
use std::collections::BTreeSet;
use vap_ast::Name;

/// Whether a name is in a set.
#[tactic(auto, using(crate::proofs::Notes::among_set))]
pub fn has(names: &BTreeSet<Name>, name: &Name) -> bool
    ensures { result ≡ among names.now.keys name.now }
{
    names.contains(name)
}

#[tactic(auto, using(crate::proofs::Notes::among_set, crate::proofs::Notes::among_more))]
/// Puts a name into a set, and tells whether it was there already.
pub fn note(alloc: Global, names: &mut BTreeSet<Name>, name: &Name) -> Result<bool, Memory>
    ensures names { OnOk result (among names.new.keys ≡ among (with_name names.old.keys name.now)) }
    ensures was_there { IfOk result (λ was_there. was_there ≡ among names.old.keys name.now) }
{
    let name = name.copy(alloc)?;
    let Ok(is_new) = names.insert(name) else {
        return Err(Memory);
    };
    Ok(!is_new)
}
