// Names with their numbers, up to a limit.
ghost use Rattle.std.specs.Prelude.{◌≡◌, [], false, OnOk};
ghost use Rattle.vap_check.specs.UpTo.{up_to, with_name_up_to};

use indexmap::IndexSet;
use sig_types::Memory;
use std::alloc::Global;
use vap_ast::Name;

/// Names in the order in which they came, each once and as many as `most`; and whether there were more. What comes past the
/// limit is not kept.
#[derive(Drop)]
pub struct Numbered {
    pub names: IndexSet<Name>,
    pub most: usize,
    pub is_over: bool,
}

impl Numbered {
    /// No names, of which there may be as many as `most`.
    pub fn new(alloc: Global, most: u16) -> Numbered
        ensures { up_to result ≡ record { keys = []; most = most; is_over = false } }
    {
        Numbered {
            names: IndexSet::new(alloc),
            most: usize::from(most),
            is_over: false,
        }
    }

    /// Puts a name behind the others, unless it is there or there are as many as there may be.
    pub fn note(&mut self, alloc: Global, name: &Name) -> Result<(), Memory>
        ensures { OnOk result (up_to self.new ≡ with_name_up_to (up_to self.old) name.now) }
    {
        if self.is_over || self.names.contains(name) {
            return Ok(());
        }
        if self.names.len() >= self.most {
            self.is_over = true;
            return Ok(());
        }
        let name = name.copy(alloc)?;
        match self.names.insert(name) {
            Ok(_) => Ok(()),
            Err(_) => Err(Memory),
        }
    }
}
