// What is kept of the names that a program declares.
ghost use Rattle.std.specs.Prelude.{◌≡◌, length};

use crate::kinds::Declared;
use std::collections::BTreeMap;
use vap_ast::Name;

/// How many trees the declared names are spread over.
pub const TREES: usize = 1024;

/// The declared names of a program, and the names in its timer commands. Each lies in one of the trees, by its letters.
#[derive(Drop)]
pub struct Known {
    pub trees: Vec<BTreeMap<Name, Declared>>,
    ghost all: { length trees.items ≡ 1024 },
}
