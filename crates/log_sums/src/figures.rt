// What a series of numbers adds up to.
ghost use Rattle.std.specs.Prelude.{◌≡◌, ◌+◌, ◌*◌, ◌^◌, ◌<◌, ◌≤◌, ◌==◌, nat_le, ℕ, max, min, if◌then◌else◌};
ghost use Rattle.log_sums.specs.Series.{lesser, since};

/// What a series of numbers adds up to, one for each second, of which 0 says that there is nothing to count.
#[derive(Clone, Copy)]
pub struct Figures {
    /// In how many seconds there was something to count.
    pub count: u32,
    /// The sum.
    pub sum: u64,
    /// The least number that counts; 0 where none does.
    pub least: u32,
    /// The greatest number.
    pub most: u32,
    /// The first second with the greatest number; 0 where none counts.
    pub at: u32,
}

// The lesser of two numbers, of which 0 doesn't count.
fn lesser(one: u32, other: u32) -> u32
    ensures { result ≡ lesser one other }
{
    if one == 0 {
        other
    } else if other == 0 {
        one
    } else {
        one.min(other)
    }
}

/// A number where it is counted: not before this second.
pub(crate) fn counted(from: u32, second: u32, number: u32) -> u32
    ensures { result ≡ (if nat_le from second then number else 0) }
{
    if from <= second { number } else { 0 }
}

impl Figures {
    ghost use Rattle.log_sums.specs.Series.{AreFigures, since};

    /// Those of no second.
    pub fn none() -> Figures
        ensures zero { (f : ℕ → ℕ) → AreFigures f 0 result }
        ensures never { (f : ℕ → ℕ) (n : ℕ) → ((t : ℕ) → 1 ≤ t → t ≤ n → f t ≡ 0) → AreFigures f n result }
    {
        Figures {
            count: 0,
            sum: 0,
            least: 0,
            most: 0,
            at: 0,
        }
    }

    /// Those with a second more.
    pub fn with(self, second: u32, number: u32) -> Figures
        ensures { (f : ℕ → ℕ) (n : ℕ) → second ≡ n + 1 → second < 2 ^ 31 → f second ≡ number → AreFigures f n self → AreFigures f second result }
    {
        if number == 0 {
            return self;
        }
        Figures {
            count: self.count.saturating_add(1),
            sum: self.sum.saturating_add(u64::from(number)),
            least: lesser(self.least, number),
            most: self.most.max(number),
            at: if self.most < number { second } else { self.at },
        }
    }

    /// Those with a second more, which count from a second on.
    pub(crate) fn with_from(self, from: u32, second: u32, number: u32) -> Figures
        ensures { (f : ℕ → ℕ) (n : ℕ) → second ≡ n + 1 → second < 2 ^ 31 → f second ≡ number → AreFigures (since from f) n self →
            AreFigures (since from f) second result }
    {
        self.with(second, counted(from, second, number))
    }
}
