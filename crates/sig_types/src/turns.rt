// The refused turns of a second.
ghost use Rattle.std.specs.Prelude.{◌≡◌, ◌<◌, ◌≤◌, ◌++◌, ◌∷◌, [], Some, length};
ghost use Rattle.std.specs.List.{slice_get};

use crate::{GroupNo, Rule, TurnRefusal};
use std::marker::Model;

const NO_TURN: TurnRefusal = TurnRefusal {
    group: GroupNo(0),
    rule: Rule::Sequence,
    other: None,
};

/// At most 64 refused turns, in the order in which they were decided. Contracts see it as that list.
#[derive(Drop)]
pub struct TurnRefusals {
    turns: [TurnRefusal; 64],
    count: usize,
}

impl Model for TurnRefusals {
    ghost use Rattle.std.specs.Prelude.{◌≡◌, ◌≤◌, List, length, take};
    ghost use Rattle.sig_types.specs.declared.refused.TurnRefusal.{TurnRefusal};

    ghost Value = { List TurnRefusal };

    ghost view = { λ r. take r.count r.turns };

    ghost invariant = { λ r. (r.count ≤ 64) × (length r.turns ≡ 64) };
}

impl TurnRefusals {
    /// No refused turn.
    pub fn empty() -> TurnRefusals
        ensures { result ≡ [] }
    {
        TurnRefusals {
            turns: [NO_TURN; 64],
            count: 0,
        }
    }

    /// Puts a refused turn at the end.
    pub fn push(&mut self, item: TurnRefusal)
        requires { length self.old < 64 }
        ensures { self.new ≡ self.old ++ item ∷ [] }
    {
        self.turns[self.count] = item;
        self.count += 1;
    }

    /// Takes all out.
    pub fn clear(&mut self)
        ensures { self.new ≡ [] }
    {
        self.count = 0;
    }

    /// The number of refused turns.
    pub fn len(&self) -> usize
        ensures len { result ≡ length self.now }
        ensures at_most { length self.now ≤ 64 }
    {
        self.count
    }

    /// The refused turn at that place.
    pub fn get(&self, place: usize) -> TurnRefusal
        requires { place < length self.now }
        ensures { slice_get self.now place ≡ Some result }
    {
        let turns = &self.turns[..self.count];
        turns[place]
    }
}
