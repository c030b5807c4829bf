// The parts of a plan that have a line in its PUA file.
ghost use Rattle.std.specs.Prelude.{◌≡◌};
ghost use Rattle.pua_lines.specs.Parts.{same_part};

use crate::spot::Spot;
use sig_types::GroupNo;

/// A part of a plan; its stages and interstages are numbered from 1, in the order of the file.
#[derive(Clone, Copy)]
pub enum Part {
    Stage(u32),
    Interstage(u32),
    Group(GroupNo),
    /// The ends of a group in an interstage.
    Ends(u32, GroupNo),
}

/// A part and the first word of its line.
#[derive(Clone, Copy)]
pub struct PlacedPart {
    pub part: Part,
    pub spot: Spot,
}

/// Whether two parts are one.
pub(crate) fn same_part(a: Part, b: Part) -> bool
    ensures { result ≡ same_part a b }
{
    match (a, b) {
        (Part::Stage(m), Part::Stage(n)) => m == n,
        (Part::Interstage(m), Part::Interstage(n)) => m == n,
        (Part::Group(g), Part::Group(h)) => g.0 == h.0,
        (Part::Ends(m, g), Part::Ends(n, h)) => m == n && g.0 == h.0,
        (Part::Stage(_), _)
        | (Part::Interstage(_), _)
        | (Part::Group(_), _)
        | (Part::Ends(_, _), _) => false,
    }
}
