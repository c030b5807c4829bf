// The names of stages.
ghost use Rattle.std.specs.Prelude.{◌≡◌, ◌++◌, codes};
ghost use Rattle.std.specs.Fmt.{decimal};
ghost use Rattle.sig_io.specs.Draft.{Puts};
ghost use Rattle.sums_text.specs.Words.{pair_text, place_name};

use crate::numbers::put_pair;
use sig_io::{Draft, Sink};
use sig_types::StagePlace;

/// Puts the name of a stage or an interstage.
pub(crate) fn put_place_name<O: Sink>(draft: &mut Draft, sink: &mut O, place: StagePlace)
    ensures { Puts O.taken O.faults draft.old draft.new sink.old sink.new (place_name place) }
{
    match place {
        StagePlace::NoPlan => draft.put(sink, b"NO_STAGE"),
        StagePlace::Stage(stage) => put_pair(draft, sink, b"STAGE ", u32::from(stage.0)),
        StagePlace::Inter { from, to, t: _ } => {
            put_pair(draft, sink, b"INTERSTAGE ", u32::from(from.0));
            put_pair(draft, sink, b"-", u32::from(to.0));
        }
    }
}
