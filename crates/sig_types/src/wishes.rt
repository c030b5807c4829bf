// The wishes of a second.
ghost use Rattle.std.specs.Prelude.{◌≡◌, ◌<◌, ◌≤◌, List, length, take, replicate, slice_index_or, slice_set, false};

use std::marker::Model;

/// One wish for each of at most 64 groups; true is green, false is red. Contracts see it as that list.
#[derive(Drop)]
pub struct Wishes {
    greens: [bool; 64],
    len: u8,
}

impl Model for Wishes {
    ghost use Rattle.std.specs.Prelude.{◌≡◌, ◌≤◌, Bool, List, length, take};

    ghost Value = { List Bool };

    ghost view = { λ p. take p.len p.greens };

    ghost invariant = { λ p. (p.len ≤ 64) × (length p.greens ≡ 64) };
}

impl Wishes {
    /// The wish of red for `n` groups.
    pub fn all_red(n: u8) -> Wishes
        requires { n ≤ 64 }
        ensures { result ≡ replicate n false }
    {
        Wishes {
            greens: [false; 64],
            len: n,
        }
    }

    /// The same wishes.
    pub fn copy(&self) -> Wishes
        ensures { result ≡ self.now }
    {
        Wishes {
            greens: self.greens,
            len: self.len,
        }
    }

    /// The number of groups.
    pub fn len(&self) -> u8
        ensures len { result ≡ length self.now }
        ensures at_most { length self.now ≤ 64 }
    {
        self.len
    }

    /// The wish of the group at that place.
    pub fn get(&self, place: u8) -> bool
        requires { place < length self.now }
        ensures { result ≡ slice_index_or self.now place false }
    {
        self.greens[place as usize]
    }

    /// Puts a wish at that place.
    pub fn set(&mut self, place: u8, item: bool)
        requires { place < length self.old }
        ensures { self.new ≡ slice_set self.old place item }
    {
        self.greens[place as usize] = item;
    }
}
