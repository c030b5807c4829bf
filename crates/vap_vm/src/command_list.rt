// The commands of a pass, in room that is taken once.

ghost use Rattle.std.specs.Prelude.{◌≡◌, ◌∷◌, ◌++◌, [], ◌<◌, ◌≤◌, length, IfOk};
ghost use Rattle.sig_types.specs.declared.numbers.Command.{Command};

use sig_types::Command;
use std::alloc::{AllocError, Global};
use std::marker::Model;

// The most commands of a pass.
const MOST_COMMANDS: usize = 10_000;

/// The commands given so far, in order.
#[derive(Drop)]
pub struct CommandList {
    items: Vec<Command>,
}

impl Model for CommandList {
    ghost use Rattle.std.specs.Prelude.{List, vec_capacity, vec_len, ◌≤◌};
    ghost use Rattle.sig_types.specs.declared.numbers.Command.{Command};

    ghost Value = { List Command };

    ghost view = { λ list. list.items.items };

    ghost invariant = { λ list. (vec_len list.items ≤ 10000) × (10000 ≤ vec_capacity list.items) };
}

impl CommandList {
    /// No command, and room for all.
    pub fn with_room(alloc: Global) -> Result<CommandList, AllocError>
        ensures { IfOk result (λ list. list ≡ []) }
    {
        Ok(CommandList {
            items: Vec::with_capacity(alloc, MOST_COMMANDS)?,
        })
    }

    /// Puts a command at the end.
    pub fn push(&mut self, command: Command)
        requires { length self.old < 10000 }
        ensures { self.new ≡ self.old ++ command ∷ [] }
    {
        let pushed = self.items.push(command);
        prove!(pushed.is_ok());
    }

    /// Takes all commands away.
    pub fn clear(&mut self)
        ensures { self.new ≡ [] }
    {
        self.items.clear();
    }

    /// The commands.
    pub fn as_slice(&self) -> &[Command]
        ensures same { result.now ≡ self.now }
        ensures few { length self.now ≤ 10000 }
    {
        self.items.as_slice()
    }
}
