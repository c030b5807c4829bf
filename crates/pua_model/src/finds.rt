// Groups by their numbers and names, and interstages by their pairs of stages.
ghost use Rattle.std.specs.Prelude.{◌≡◌, ◌==◌, ◌<◌, ◌≤◌, None, Option};
ghost use Rattle.std.specs.List.{position};
ghost use Rattle.sig_types.specs.Text.{same_name};
ghost use Rattle.pua_model.specs.Plan.{joins};

use crate::parts::{Group, Interstage};
use sig_types::text::same_name;
use sig_types::{GroupNo, InterNo, StageNo};

// The place of the group with this number.
pub(crate) fn place_numbered(groups: &[Group], number: u32) -> Option<usize>
    ensures { result ≡ position (λ g. g.number == number) groups.now }
{
    groups
        .iter()
        .position(|group| u32::from(group.number) == number)
}

/// The place of the group with this name without regard to ASCII case; None where there is none.
pub fn place_named(groups: &[Group], name: &[u8]) -> Option<usize>
    ensures { result ≡ position (λ g. same_name g.name name.now) groups.now }
{
    groups
        .iter()
        .position(|group| same_name(group.name.bytes(), name))
}

// The place of the interstage of the pair.
pub(crate) fn place_between(interstages: &[Interstage], a: StageNo, b: StageNo) -> Option<usize>
    ensures { result ≡ position (joins a.0 b.0) interstages.now }
{
    interstages
        .iter()
        .position(|each| each.from_stage() == a && each.to_stage() == b)
}
