// Who is given the picture of each second.
ghost use Rattle.std.specs.Prelude.{◌≡◌, ◌+◌, ◌≤◌, ◌++◌, ◌∷◌, [], ℕ, List, MatchOption, length};
ghost use Rattle.sig_types.specs.Turns.{History};
ghost use Rattle.picture_cell.specs.Sides.{Watching};
ghost use Rattle.junction_live.specs.Watch.{AreFewWatchersOf};

use picture_cell::PictureCell;
use sig_types::Picture;

/// Who is given the picture of each second, by a cell into which watchers may look meanwhile.
pub(crate) trait Audience {
    /// Where the pictures are put.
    type Cell;

    /// It can be given so many more pictures of so many groups, by this cell.
    ghost takes: { Self.Cell → Self → ℕ → ℕ → Type 0 };

    /// What it is after it was given these pictures, one after the other.
    ghost given: { Self → Self → History → Type 0 };

    /// These watchers look into this cell.
    ghost watches: { Self.Cell → List Watching → Type 0 };

    /// Is given the picture of one second more.
    fn show(&mut self, cell: &Self::Cell, picture: &Picture)
        requires { takes cell.now self.old (length picture.now) 1 }
        ensures { (begun : Self) (past : History) → given begun self.old past →
            given begun self.new (past ++ picture.now ∷ []) };

    /// The cell into which watchers look, if there is one.
    fn looked_at(cell: &Self::Cell) -> Option<&PictureCell>
        ensures { (watchers : List Watching) → watches cell.now watchers →
            MatchOption result (length watchers ≡ 0) (λ pictures. AreFewWatchersOf pictures.now watchers) };

    /// Before the first picture it was given none.
    ghost begins: { (audience : Self) → given audience audience [] };

    /// The room that pictures leave.
    ghost stays: { (cell : Self.Cell) (before after : Self) (groups room more : ℕ) (pictures : History) →
        takes cell before groups room → given before after pictures → length pictures + more ≤ room →
        takes cell after groups more };
}

/// Nobody is given a picture, and nobody looks.
#[derive(Clone, Copy, Drop)]
pub(crate) struct Nobody;

impl Audience for Nobody {
    type Cell = ();

    ghost takes = { λ _ _ _ _. Unit {0} };

    ghost given = { λ _ _ _. Unit {0} };

    ghost watches = { λ _ watchers. length watchers ≡ 0 };

    #[inline(always)]
    fn show(&mut self, _cell: &(), _picture: &Picture) {}

    fn looked_at(_cell: &()) -> Option<&PictureCell> {
        None
    }

    ghost begins = { λ _. tt };

    ghost stays = { λ _ _ _ _ _ _ _ _ _ _. tt };
}
