// The picture of a second.
ghost use Rattle.std.specs.Prelude.{◌≡◌, ◌<◌, ◌≤◌, List, length, take, replicate, slice_index_or, slice_set};

use crate::Aspect;
use std::marker::Model;

/// One aspect for each of at most 64 groups, in rising order of group numbers. Contracts see it as that list.
#[derive(Drop)]
pub struct Picture {
    aspects: [Aspect; 64],
    len: u8,
}

impl Model for Picture {
    ghost use Rattle.std.specs.Prelude.{◌≡◌, ◌≤◌, List, length, take};
    ghost use Rattle.sig_types.specs.declared.aspect.Aspect.{Aspect};

    ghost Value = { List Aspect };

    ghost view = { λ p. take p.len p.aspects };

    ghost invariant = { λ p. (p.len ≤ 64) × (length p.aspects ≡ 64) };
}

impl Picture {
    /// The picture of `n` red groups.
    pub fn all_red(n: u8) -> Picture
        requires { n ≤ 64 }
        ensures { result ≡ replicate n Aspect.Red }
    {
        Picture {
            aspects: [Aspect::Red; 64],
            len: n,
        }
    }

    /// The same picture.
    pub fn copy(&self) -> Picture
        ensures { result ≡ self.now }
    {
        Picture {
            aspects: self.aspects,
            len: self.len,
        }
    }

    /// The number of groups.
    pub fn len(&self) -> u8
        ensures len { result ≡ length self.now }
        ensures at_most { length self.now ≤ 64 }
    {
        self.len
    }

    /// The aspect of the group at that place.
    pub fn get(&self, place: u8) -> Aspect
        requires { place < length self.now }
        ensures { result ≡ slice_index_or self.now place Aspect.Red }
    {
        self.aspects[place as usize]
    }

    /// The aspects of all 64 places. Those of the groups are the first, and what the others are isn't told.
    pub fn places(&self) -> &[Aspect; 64]
        ensures aspects { take (length self.now) result.now ≡ self.now }
        ensures at_most { length self.now ≤ 64 }
    {
        &self.aspects
    }

    /// Puts an aspect at that place.
    pub fn set(&mut self, place: u8, item: Aspect)
        requires { place < length self.old }
        ensures { self.new ≡ slice_set self.old place item }
    {
        self.aspects[place as usize] = item;
    }
}
