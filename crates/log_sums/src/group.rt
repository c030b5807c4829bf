// What the seconds of a group add up to.
ghost use Rattle.std.specs.Prelude.{◌≡◌, ◌+◌, ◌^◌, ◌<◌, ◌≤◌, ◌&&◌, ◌==◌, ℕ, if◌then◌else◌};
ghost use Rattle.sig_types.specs.declared.aspect.Aspect.{Aspect};
ghost use Rattle.sig_types.specs.Turns.{is_green, is_red};

use crate::gaps::Gaps;
use crate::spells::Spells;
use sig_types::Aspect;

/// What the seconds of a group add up to.
#[derive(Clone, Copy)]
pub struct GroupSums {
    /// Its greens.
    pub greens: Spells,
    /// Its reds.
    pub reds: Spells,
    /// Its cycles: from one beginning of green to the next.
    pub cycles: Gaps,
}

/// Whether it is green.
pub(crate) fn is_green(aspect: Aspect) -> bool
    ensures { result ≡ is_green aspect }
{
    match aspect {
        Aspect::Red => false,
        Aspect::RedAmber => false,
        Aspect::Green => true,
        Aspect::Amber => false,
    }
}

// Whether it is red.
fn is_red(aspect: Aspect) -> bool
    ensures { result ≡ is_red aspect }
{
    match aspect {
        Aspect::Red => true,
        Aspect::RedAmber => false,
        Aspect::Green => false,
        Aspect::Amber => false,
    }
}

impl GroupSums {
    ghost use Rattle.log_sums.specs.Groups.{AreGroupSums};

    /// Those of no second.
    pub fn none() -> GroupSums
        ensures { (a : ℕ → Aspect) (from : ℕ) → AreGroupSums a from 0 result }
    {
        GroupSums {
            greens: Spells::none(),
            reds: Spells::none(),
            cycles: Gaps::none(),
        }
    }

    /// Those with a second more, in which the group shows this; they count from a second on.
    pub fn show(self, from: u32, second: u32, aspect: Aspect) -> GroupSums
        ensures { (a : ℕ → Aspect) (n : ℕ) → second ≡ n + 1 → second < 2 ^ 31 → a second ≡ aspect → AreGroupSums a from n self →
            AreGroupSums a from second result }
    {
        let green = is_green(aspect);
        GroupSums {
            greens: self.greens.show(from, second, green),
            reds: self.reds.show(from, second, is_red(aspect)),
            cycles: self.cycles.show(from, second, self.greens.begins(green)),
        }
    }
}
