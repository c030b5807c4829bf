// The name of a signal group or a stage.
ghost use Rattle.std.specs.Prelude.{◌≡◌, ◌<◌, ◌≤◌, length};

use std::marker::Model;

/// A name of 1 to 32 bytes, of fixed size. Contracts see it as its bytes.
#[derive(Drop)]
pub struct ShortName {
    text: [u8; 32],
    len: usize,
}

impl Model for ShortName {
    ghost use Rattle.std.specs.Prelude.{◌≡◌, ◌<◌, ◌≤◌, ℕ, List, length, take};

    ghost Value = { List ℕ };

    ghost view = { λ n. take n.len n.text };

    ghost invariant = { λ n. (0 < n.len) × (n.len ≤ 32) × (length n.text ≡ 32) };
}

impl ShortName {
    /// The name of these bytes.
    pub fn of(bytes: &[u8]) -> ShortName
        requires not_empty { 0 < length bytes.now }
        requires at_most { length bytes.now ≤ 32 }
        ensures { result ≡ bytes.now }
    {
        let mut text = [0; 32];
        text[..bytes.len()].copy_from_slice(bytes);
        ShortName {
            text,
            len: bytes.len(),
        }
    }

    /// The bytes of the name.
    pub fn bytes(&self) -> &[u8]
        ensures bytes { result.now ≡ self.now }
        ensures not_empty { 0 < length self.now }
        ensures at_most { length self.now ≤ 32 }
    {
        &self.text[..self.len]
    }
}
