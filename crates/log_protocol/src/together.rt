// For how many seconds two groups were green together.
ghost use Rattle.std.specs.Prelude.{◌≡◌, ℕ, ◌+◌, ◌*◌, ◌<◌, ◌≤◌, length};
ghost use Rattle.sig_types.specs.Turns.{shown};
ghost use Rattle.log_protocol.specs.Steps.{with_both, with_second, together_at};

use sig_types::{Aspect, Picture};

/// In how many seconds two groups were green together, and the first of them.
#[derive(Clone, Copy)]
pub struct Together {
    pub seconds: u32,
    pub first: u32,
}

impl Together {
    // With a second more.
    fn with(self, second: u32) -> Together
        ensures { result ≡ with_second self second }
    {
        Together {
            seconds: self.seconds.saturating_add(1),
            first: if self.seconds == 0 {
                second
            } else {
                self.first
            },
        }
    }
}

// With a second in which the two groups show these.
fn with_both(together: Together, one: Aspect, other: Aspect, second: u32) -> Together
    ensures { result ≡ with_both together one other second }
{
    if one == Aspect::Green && other == Aspect::Green {
        return together.with(second);
    }
    together
}

// Adds a second of group g with each group.
fn add_with(picture: &Picture, second: u32, g: u8, pairs: &mut Vec<Together>)
    requires size { length pairs.old.items ≡ 4096 }
    requires group { g < length picture.now }
    requires few { length picture.now ≤ 64 }
    ensures size { length pairs.new.items ≡ length pairs.old.items }
    ensures each { (i : ℕ) → i < length picture.now → together_at pairs.new.items (64 * g + i) ≡
        with_both (together_at pairs.old.items (64 * g + i)) (shown picture.now g) (shown picture.now i) second }
    ensures below { (q : ℕ) → q < 64 * g → together_at pairs.new.items q ≡ together_at pairs.old.items q }
    ensures above { (q : ℕ) → 64 * g + 64 ≤ q → together_at pairs.new.items q ≡ together_at pairs.old.items q }
{
    let aspect = picture.get(g);
    if aspect != Aspect::Green {
        return;
    }
    for i in 0..picture.len() {
        let place = 64 * g as usize + i as usize;
        pairs[place] = with_both(pairs[place], aspect, picture.get(i), second);
    }
}

/// Adds a second that shows this picture, of each two groups.
pub(crate) fn add_together(picture: &Picture, second: u32, pairs: &mut Vec<Together>)
    requires size { length pairs.old.items ≡ 4096 }
    ensures size { length pairs.new.items ≡ length pairs.old.items }
    ensures each { (g i : ℕ) → g < length picture.now → i < length picture.now → together_at pairs.new.items (64 * g + i) ≡
        with_both (together_at pairs.old.items (64 * g + i)) (shown picture.now g) (shown picture.now i) second }
{
    for g in 0..picture.len() {
        add_with(picture, second, g, pairs);
    }
}
