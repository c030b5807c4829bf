// The publisher of a cell is given the pictures.
ghost use Rattle.std.specs.Prelude.{◌≡◌};
ghost use Rattle.junction_live.specs.Rooms.{none_shown, room_stays};
ghost use Rattle.junction_live.specs.Watch.{AreFewWatchersOf, HasRoom, with_pictures};

use crate::audience::Audience;
use picture_cell::{PictureCell, Publisher};
use sig_types::Picture;

impl Audience for Publisher {
    type Cell = PictureCell;

    ghost takes = { HasRoom };

    ghost given = { λ before after pictures. after ≡ with_pictures before pictures };

    ghost watches = { AreFewWatchersOf };

    fn show(&mut self, cell: &PictureCell, picture: &Picture) {
        self.publish(cell, picture);
    }

    fn looked_at(cell: &PictureCell) -> Option<&PictureCell> {
        Some(cell)
    }

    ghost begins = { none_shown };

    ghost stays = { room_stays };
}
