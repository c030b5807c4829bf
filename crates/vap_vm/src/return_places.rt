// The return places of a pass, in room that is taken once.

ghost use Rattle.std.specs.Prelude.{◌≡◌, ◌∷◌, [], ◌<◌, ◌≤◌, length, IfOk, MatchOption};

use std::alloc::{AllocError, Global};
use std::marker::Model;

// The most places that verified code keeps.
const MOST_CALLS: usize = 65;

/// The return places, seen as a list whose first is the one that was kept last.
#[derive(Drop)]
pub struct ReturnPlaces {
    items: Vec<usize>,
}

impl Model for ReturnPlaces {
    ghost use Rattle.std.specs.Prelude.{List, ℕ, reverse, vec_capacity, vec_len, ◌≤◌};

    ghost Value = { List ℕ };

    ghost view = { λ places. reverse places.items.items };

    ghost invariant = { λ places. (vec_len places.items ≤ 65) × (65 ≤ vec_capacity places.items) };
}

impl ReturnPlaces {
    /// No place, and room for all.
    pub fn with_room(alloc: Global) -> Result<ReturnPlaces, AllocError>
        ensures { IfOk result (λ places. places ≡ []) }
    {
        Ok(ReturnPlaces {
            items: Vec::with_capacity(alloc, MOST_CALLS)?,
        })
    }

    /// Keeps a place.
    pub fn push(&mut self, place: usize)
        requires { length self.old < 65 }
        ensures { self.new ≡ place ∷ self.old }
    {
        let pushed = self.items.push(place);
        prove!(pushed.is_ok());
    }

    /// Takes the place that was kept last, if there is one.
    pub fn pop(&mut self) -> Option<usize>
        ensures some { MatchOption result (self.old ≡ []) (λ place. self.old ≡ place ∷ self.new) }
        ensures none { MatchOption result (self.new ≡ []) (λ _. Unit {0}) }
    {
        self.items.pop()
    }

    /// How many places are kept.
    pub fn count(&self) -> usize
        ensures { result ≡ length self.now }
    {
        self.items.len()
    }

    /// Takes all places away.
    pub fn clear(&mut self)
        ensures { self.new ≡ [] }
    {
        self.items.clear();
    }
}
