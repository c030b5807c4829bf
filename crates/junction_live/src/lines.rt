// The lines of the watchers.
ghost use Rattle.std.specs.Prelude.{◌≤◌, List, length};
ghost use Rattle.sig_io.specs.Draft.{Puts};
ghost use Rattle.sig_io.specs.Outside.{HasCause};
ghost use Rattle.picture_cell.specs.Sides.{IsPublisherOf};
ghost use Rattle.junction_live.specs.Sights.{Sight, AreSights, watch_text, watches_from};
ghost use Rattle.junction_live.specs.Watch.{AreWatchersOf, WroteLines};

use picture_cell::{PictureCell, Publisher, Watched, Watcher};
use sig_io::{Draft, Failed, Sink};
use signal_log::put_letters;

// Puts the line of the watcher of this number at the end of a draft.
fn put_watch<O: Sink>(number: u32, seen: &Watched, draft: &mut Draft, sink: &mut O)
    ensures { Puts O.taken O.faults draft.old draft.new sink.old sink.new
        (watch_text number (seen.now.second.0, seen.now.picture)) }
{
    draft.put(sink, b"WATCH ");
    draft.put_number(sink, number);
    draft.put(sink, b" ");
    draft.put_number(sink, seen.second.0);
    draft.put(sink, b" ");
    put_letters(&seen.picture, draft, sink);
    draft.put(sink, b"\n");
}

// Closes the watchers, one after the other, and puts a line for each at the end of a draft.
fn put_watches<O: Sink>(
    cell: &PictureCell,
    publisher: &mut Publisher,
    watchers: Vec<Watcher>,
    draft: &mut Draft,
    sink: &mut O,
)
    requires publisher { IsPublisherOf cell.now publisher.old }
    requires watchers { AreWatchersOf cell.now watchers.items }
    requires few { length watchers.items ≤ 8 }
    ensures { (sights : List Sight) × AreSights (length watchers.items) publisher.old.entries sights
        × Puts O.taken O.faults draft.old draft.new sink.old sink.new (watches_from 1 sights) }
{
    let mut number = 0u32;
    for watcher in watchers {
        number += 1;
        let seen = watcher.close(cell, publisher);
        put_watch(number, &seen, draft, sink);
    }
}

/// Closes the watchers, one after the other, and writes a line for each.
pub(crate) fn write_watches<O: Sink>(
    cell: &PictureCell,
    publisher: Publisher,
    watchers: Vec<Watcher>,
    sink: &mut O,
) -> Result<(), Failed>
    requires publisher { IsPublisherOf cell.now publisher }
    requires watchers { AreWatchersOf cell.now watchers.items }
    requires few { length watchers.items ≤ 8 }
    ensures lines { (sights : List Sight) × AreSights (length watchers.items) publisher.entries sights
        × WroteLines result sights (O.taken sink.old) (O.taken sink.new) }
    ensures cause { HasCause (O.faults sink.old) (O.faults sink.new) result }
{
    let mut publisher = publisher;
    let mut draft = Draft::new();
    put_watches(cell, &mut publisher, watchers, &mut draft, sink);
    match draft.finish(sink) {
        Ok(()) => Ok(()),
        Err(_fault) => Err(Failed),
    }
}
