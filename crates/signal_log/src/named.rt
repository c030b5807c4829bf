// Refused turns, told with the names of the groups from a list.
ghost use Rattle.std.specs.Prelude.{◌≡◌, ◌++◌, List, ℕ, Option};
ghost use Rattle.sig_io.specs.Draft.{Puts};
ghost use Rattle.signal_log.specs.Log.{name_of, other_text, turn_text};

use crate::refused::other_of;
use crate::words::rule_name;
use sig_io::{Draft, Sink};
use sig_types::{GroupNo, ShortName, TurnRefusal};

/// Puts the name of a group at the end of a draft, if the list has it.
///
/// No memory is taken.
pub fn put_group_name<O: Sink>(group: GroupNo, names: &[ShortName], draft: &mut Draft, sink: &mut O)
    ensures { Puts O.taken O.faults draft.old draft.new sink.old sink.new (name_of names.now group) }
{
    let place = usize::from(group.0);
    if place < names.len() {
        draft.put(sink, names[place].bytes());
    }
}

// Puts the other group where there is one.
fn put_other<O: Sink>(other: Option<GroupNo>, names: &[ShortName], draft: &mut Draft, sink: &mut O)
    ensures { Puts O.taken O.faults draft.old draft.new sink.old sink.new (other_text names.now other) }
{
    match other {
        None => {}
        Some(other) => {
            draft.put(sink, b":");
            put_group_name(other, names, draft, sink);
        }
    }
}

/// Puts a refused turn at the end of a draft, as `put_turn` does, with names from a list.
///
/// No memory is taken.
pub fn put_named_turn<O: Sink>(
    turn: TurnRefusal,
    names: &[ShortName],
    draft: &mut Draft,
    sink: &mut O,
)
    ensures { Puts O.taken O.faults draft.old draft.new sink.old sink.new (turn_text names.now turn) }
{
    put_group_name(turn.group, names, draft, sink);
    draft.put(sink, b":");
    draft.put(sink, rule_name(turn.rule));
    put_other(other_of(turn.rule, turn.other), names, draft, sink);
}
