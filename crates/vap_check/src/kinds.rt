// What the names of a program are. Those that it declares lie in std's ordered maps, spread over some by their letters: each
// holds few of usual names, and no choice of names makes a look-up slow.
ghost use Rattle.std.specs.Prelude.{◌≡◌, ◌<◌, ℕ, List, length, OnOk, IfOk, None, is_some};
ghost use Rattle.vap_check.specs.KeptNames.{declared_in, held_at, held_in, with_declared, kind_in};
ghost use Rattle.vap_check.specs.Names.{is_kind};
ghost use Rattle.vap_check.specs.Trees.{tree_of};

use crate::known::{Known, TREES};
use indexmap::IndexSet;
use sig_types::Memory;
use std::alloc::Global;
use std::collections::BTreeMap;
use vap_ast::Name;

/// What a name of a program is.
#[derive(Clone, Copy, PartialEq, Eq)]
pub enum Kind {
    Constant,
    Array,
    Sub,
    Timer,
    Variable,
}

/// Whether a kind is this one.
pub fn is_kind(wanted: Kind, kind: Kind) -> bool
    ensures { result ≡ is_kind wanted kind }
{
    wanted == kind
}

/// The first declaration of a constant.
#[derive(Clone, Copy)]
pub struct First {
    pub line: u32,
    pub value: i32,
}

/// What a name is by its first declaration; a timer is declared by a timer command.
#[derive(Clone, Copy)]
pub enum Declared {
    Constant(First),
    Array,
    Sub,
    Timer,
}

/// All names of a program: the arrays and the subroutines in the order of their declarations, the timers and the variables
/// in the order of first use.
#[derive(Drop)]
pub struct Names {
    pub known: Known,
    pub arrays: IndexSet<Name>,
    pub subs: IndexSet<Name>,
    pub timers: IndexSet<Name>,
    pub variables: IndexSet<Name>,
}

// The tree that a name lies in.
#[tactic(auto, unfolding(crate::specs::Trees::tree_of))]
fn tree_of(name: &Name) -> usize
    ensures { (result ≡ tree_of name.now) × (result < 1024) }
{
    let mut tree = 0;
    for letter in name.bytes() {
        tree = (tree * 37 + usize::from(*letter)) % TREES;
    }
    tree
}

// Trees that hold no name.
#[tactic(auto, using(crate::proofs::Spread::none_more))]
fn no_names(alloc: Global) -> Result<Vec<BTreeMap<Name, Declared>>, Memory>
    ensures count { IfOk result (λ trees. length trees.items ≡ 1024) }
    ensures none { IfOk result (λ trees. (name : List ℕ) (tree : ℕ) → held_at trees.items tree name ≡ None) }
{
    let mut trees = Vec::new(alloc);
    for _ in 0..TREES {
        if trees.push(BTreeMap::new(alloc)).is_err() {
            return Err(Memory);
        }
    }
    Ok(trees)
}

// Notes what a name is in its tree, unless it is something already, and tells whether it was.
#[tactic(auto, using(crate::proofs::Notes::noted, crate::proofs::Notes::kept))]
fn note_in(
    alloc: Global,
    tree: &mut BTreeMap<Name, Declared>,
    name: &Name,
    what: Declared,
) -> Result<bool, Memory>
    ensures noted { OnOk result (held_in tree.new ≡ with_declared what (held_in tree.old) name.now) }
    ensures was_there { IfOk result (λ was_there. was_there ≡ is_some (held_in tree.old name.now)) }
{
    if tree.contains_key(name) {
        return Ok(true);
    }
    let name = name.copy(alloc)?;
    let Ok(_) = tree.insert(name, what) else {
        return Err(Memory);
    };
    Ok(false)
}

// Declares a name in its tree, and tells whether it is something already, which then stands. Other than `note_in` this looks for
// the place of a new name once, and twice for one that is there.
fn declare_in(
    alloc: Global,
    tree: &mut BTreeMap<Name, Declared>,
    name: &Name,
    what: Declared,
) -> Result<bool, Memory>
    ensures noted { OnOk result (held_in tree.new ≡ with_declared what (held_in tree.old) name.now) }
    ensures was_there { IfOk result (λ was_there. was_there ≡ is_some (held_in tree.old name.now)) }
{
    let key = name.copy(alloc)?;
    let Ok(before) = tree.insert(key, what) else {
        return Err(Memory);
    };
    let Some(first) = before else {
        return Ok(false);
    };
    let key = name.copy(alloc)?;
    let Ok(_) = tree.insert(key, first) else {
        return Err(Memory);
    };
    Ok(true)
}

impl Known {
    /// No names.
    #[tactic(auto, unfolding(crate::specs::KeptNames::declared_in))]
    pub fn new(alloc: Global) -> Result<Known, Memory>
        ensures none { IfOk result (λ known. declared_in known ≡ (λ name. None)) }
    {
        let trees = no_names(alloc)?;
        Ok(Known { trees })
    }

    /// What a name is by its first declaration; `None` where it has none.
    #[tactic(auto, using(crate::proofs::Spread::held_there), unfolding(crate::specs::KeptNames::declared_in))]
    pub fn get(&self, name: &Name) -> Option<Declared>
        ensures { result ≡ declared_in self.now name.now }
    {
        self.trees[tree_of(name)].get(name).copied()
    }

    /// Notes what a name is, unless it is something already, and tells whether it was.
    #[tactic(auto, using(crate::proofs::Spread::held_there, crate::proofs::Spread::noted_there), unfolding(crate::specs::KeptNames::declared_in))]
    pub fn note(&mut self, alloc: Global, name: &Name, what: Declared) -> Result<bool, Memory>
        ensures noted { OnOk result (declared_in self.new ≡ with_declared what (declared_in self.old) name.now) }
        ensures was_there { IfOk result (λ was_there. was_there ≡ is_some (declared_in self.old name.now)) }
    {
        note_in(alloc, &mut self.trees[tree_of(name)], name, what)
    }

    /// Declares a name, unless it is something already, and tells whether it was: `note` for names that are mostly new.
    #[tactic(auto, using(crate::proofs::Spread::held_there, crate::proofs::Spread::noted_there), unfolding(crate::specs::KeptNames::declared_in))]
    pub fn declare(&mut self, alloc: Global, name: &Name, what: Declared) -> Result<bool, Memory>
        ensures noted { OnOk result (declared_in self.new ≡ with_declared what (declared_in self.old) name.now) }
        ensures was_there { IfOk result (λ was_there. was_there ≡ is_some (declared_in self.old name.now)) }
    {
        declare_in(alloc, &mut self.trees[tree_of(name)], name, what)
    }

    /// What a name is.
    pub fn kind(&self, name: &Name) -> Kind
        ensures { result ≡ kind_in self.now name.now }
    {
        match self.get(name) {
            Some(Declared::Constant(_)) => Kind::Constant,
            Some(Declared::Array) => Kind::Array,
            Some(Declared::Sub) => Kind::Sub,
            Some(Declared::Timer) => Kind::Timer,
            None => Kind::Variable,
        }
    }
}
