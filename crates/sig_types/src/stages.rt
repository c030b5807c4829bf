// The refused stage commands of a second.
ghost use Rattle.std.specs.Prelude.{◌≡◌, ◌<◌, ◌≤◌, ◌++◌, ◌∷◌, [], Some, length, vec_len, vec_capacity, IfOk};
ghost use Rattle.std.specs.List.{slice_get};

use crate::{Memory, StageRefusal};
use std::alloc::Global;
use std::marker::Model;

const ROOM: usize = 10000;

/// At most 10,000 refused stage commands, in the order in which they were given. Contracts see it as that list.
#[derive(Drop)]
pub struct StageRefusals {
    orders: Vec<StageRefusal>,
}

impl Model for StageRefusals {
    ghost use Rattle.std.specs.Prelude.{◌≡◌, ◌≤◌, List, length, vec_len, vec_capacity};
    ghost use Rattle.sig_types.specs.declared.refused.StageRefusal.{StageRefusal};

    ghost Value = { List StageRefusal };

    ghost view = { λ r. r.orders.items };

    ghost invariant = { λ r. (vec_len r.orders ≤ 10000) × (10000 ≤ vec_capacity r.orders) };
}

impl StageRefusals {
    /// An empty list; its memory, for 10,000 entries, is taken here.
    pub fn with_room(alloc: Global) -> Result<StageRefusals, Memory>
        ensures { IfOk result (λ r. r ≡ []) }
    {
        match Vec::with_capacity(alloc, ROOM) {
            Ok(orders) => Ok(StageRefusals { orders }),
            Err(_) => Err(Memory),
        }
    }

    /// Puts a refused stage command at the end.
    pub fn push(&mut self, item: StageRefusal)
        requires { length self.old < 10000 }
        ensures { self.new ≡ self.old ++ item ∷ [] }
    {
        let pushed = self.orders.push(item);
        prove!(pushed.is_ok());
    }

    /// Takes all out and keeps the room.
    pub fn clear(&mut self)
        ensures { self.new ≡ [] }
    {
        self.orders.clear();
    }

    /// The number of refused stage commands.
    pub fn len(&self) -> usize
        ensures len { result ≡ length self.now }
        ensures at_most { length self.now ≤ 10000 }
    {
        self.orders.len()
    }

    /// The refused stage command at that place.
    pub fn get(&self, place: usize) -> StageRefusal
        requires { place < length self.now }
        ensures { slice_get self.now place ≡ Some result }
    {
        self.orders[place]
    }
}
