// The numbers by which stages, refusals and faults are told apart.
ghost use Rattle.std.specs.Prelude.{◌≡◌, ◌+◌, ◌*◌, ◌^◌, ◌<◌, ◌≤◌, ℕ, Option};
ghost use Rattle.log_sums.specs.Keys.{other_code};

use sig_types::{Fault, GroupNo, StagePlace, StageRefusal, TurnRefusal};

/// Something that is told apart by a number.
pub trait Key: Copy + Drop {
    /// The number.
    ghost code: { Self → ℕ };

    /// The number by which it is told apart.
    fn code(self) -> u64
        ensures { result ≡ code self };
}

// The other group, or none.
fn other_code(other: Option<GroupNo>) -> u64
    ensures code { result ≡ other_code other }
    ensures small { result ≤ 256 }
{
    match other {
        None => 0,
        Some(group) => 1 + u64::from(group.0),
    }
}

impl Key for StagePlace {
    ghost use Rattle.log_sums.specs.Keys.{place_code};

    ghost code = { place_code };

    fn code(self) -> u64 {
        match self {
            StagePlace::NoPlan => 0,
            StagePlace::Stage(stage) => 1 + u64::from(stage.0),
            StagePlace::Inter { from, to, t: _ } => {
                1000 + u64::from(from.0) * 1000 + u64::from(to.0)
            }
        }
    }
}

impl Key for StageRefusal {
    ghost use Rattle.log_sums.specs.Keys.{command_code};

    ghost code = { command_code };

    fn code(self) -> u64 {
        (u64::from(self.from.0) * 1000 + u64::from(self.to.0)) * 1000
            + u64::from(self.rule.number())
    }
}

impl Key for TurnRefusal {
    ghost use Rattle.log_sums.specs.Keys.{turn_code};

    ghost code = { turn_code };

    fn code(self) -> u64 {
        (u64::from(self.group.0) * 1000 + other_code(self.other)) * 1000
            + u64::from(self.rule.number())
    }
}

impl Key for Fault {
    ghost use Rattle.log_sums.specs.Keys.{fault_code};

    ghost code = { fault_code };

    fn code(self) -> u64 {
        u64::from(self.line) * 1000 + u64::from(self.kind.number())
    }
}
