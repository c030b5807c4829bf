// The text of what was refused in a log.
ghost use Rattle.sig_io.specs.Draft.{Puts};
ghost use Rattle.refusal_text.specs.Kept.{told_text};
ghost use Rattle.refusal_text.specs.Order.{AreInOrder};
ghost use Rattle.refusal_text.specs.Text.{found_text};

use crate::finder::Refusals;
use crate::line::put_words;
use crate::refusal::Refusal;
use crate::row::put_table;
use pua_model::Plan;
use sig_io::{Draft, Sink};

// Puts refusals, as a table or in words.
#[tactic(auto, unfolding(crate::specs::Text::found_text))]
fn put_found<O: Sink>(
    draft: &mut Draft,
    sink: &mut O,
    plan: &Plan,
    first: u32,
    found: &[Refusal],
    csv: bool,
)
    requires { AreInOrder found.now }
    ensures { Puts O.taken O.faults draft.old draft.new sink.old sink.new (found_text csv plan.now.names first found.now) }
{
    if csv {
        put_table(draft, sink, plan, first, found);
    } else {
        put_words(draft, sink, plan, first, found);
    }
}

/// Puts what was refused in the records of a log, at the end of a draft: as a table of comma-separated values, or in words, with
/// the sums after them.
#[tactic(auto, unfolding(crate::specs::Kept::told_text))]
pub fn put_refusals<O: Sink>(
    draft: &mut Draft,
    sink: &mut O,
    plan: &Plan,
    refusals: &Refusals,
    csv: bool,
)
    ensures { Puts O.taken O.faults draft.old draft.new sink.old sink.new (told_text csv plan.now.names refusals.now) }
{
    put_found(draft, sink, plan, refusals.first, &refusals.found, csv);
}
