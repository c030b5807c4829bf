// What a series of long numbers adds up to.
ghost use Rattle.std.specs.Prelude.{◌≡◌, ◌+◌, ◌*◌, ◌^◌, ◌<◌, ◌≤◌, ◌==◌, nat_le, ℕ, max, min, if◌then◌else◌};
ghost use Rattle.log_sums.specs.Series.{lesser};

/// What a series of numbers of up to 64 bits adds up to, one for each second, of which 0 says that there is nothing to count.
#[derive(Clone, Copy)]
pub struct LongFigures {
    /// In how many seconds there was something to count.
    pub count: u32,
    /// The sum.
    pub sum: u64,
    /// The least number that counts; 0 where none does.
    pub least: u64,
    /// The greatest number.
    pub most: u64,
}

// The lesser of two numbers, of which 0 doesn't count.
fn lesser(one: u64, other: u64) -> u64
    ensures { result ≡ lesser one other }
{
    if one == 0 {
        other
    } else if other == 0 {
        one
    } else {
        one.min(other)
    }
}

/// A number where it is counted: not before this second.
pub(crate) fn long_counted(from: u32, second: u32, number: u64) -> u64
    ensures { result ≡ (if nat_le from second then number else 0) }
{
    if from <= second { number } else { 0 }
}

impl LongFigures {
    ghost use Rattle.log_sums.specs.Series.{AreLongFigures};

    /// Those of no second.
    pub fn none() -> LongFigures
        ensures zero { (f : ℕ → ℕ) → AreLongFigures f 0 result }
        ensures never { (f : ℕ → ℕ) (n : ℕ) → ((t : ℕ) → 1 ≤ t → t ≤ n → f t ≡ 0) → AreLongFigures f n result }
    {
        LongFigures {
            count: 0,
            sum: 0,
            least: 0,
            most: 0,
        }
    }

    /// Those with a second more.
    pub fn with(self, second: u32, number: u64) -> LongFigures
        ensures { (f : ℕ → ℕ) (n : ℕ) → second ≡ n + 1 → second < 2 ^ 31 → self.sum + number < 2 ^ 64 → f second ≡ number →
            AreLongFigures f n self → AreLongFigures f second result }
    {
        if number == 0 {
            return self;
        }
        LongFigures {
            count: self.count.saturating_add(1),
            sum: self.sum.saturating_add(number),
            least: lesser(self.least, number),
            most: self.most.max(number),
        }
    }
}
