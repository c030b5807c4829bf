// The text of what came in a record.
ghost use Rattle.std.specs.Prelude.{◌≡◌, ◌≤◌, length};
ghost use Rattle.sig_io.specs.Draft.{Puts};
ghost use Rattle.pua_model.specs.Plan.{groups_in};
ghost use Rattle.tenth_report.specs.Kept.{gathered_text};
ghost use Rattle.tenth_report.specs.Protocol.{style_of};
ghost use Rattle.tenth_report.specs.Search.{rules_in};

use crate::gathering::Gathered;
use judge_text::Tick;
use log_protocol::{Sheet, Style, Told, put_head, put_unknown};
use pua_model::Plan;
use sig_io::{Draft, Sink};
use sig_tables::Limits;

// As a table, or in words.
fn style_of(csv: bool) -> Style
    ensures { result ≡ style_of csv }
{
    if csv { Style::Table } else { Style::Lines }
}

/// Puts what came in a record, as a table or in words.
pub(crate) fn put_gathered<O: Sink>(
    draft: &mut Draft,
    sink: &mut O,
    plan: &Plan,
    limits: &Limits<'_>,
    csv: bool,
    gathered: &Gathered,
)
    requires times { length limits.now.times ≡ groups_in plan.now }
    requires pairs { limits.now.pairs.count ≡ groups_in plan.now }
    requires few { groups_in plan.now ≤ 64 }
    ensures { Puts O.taken O.faults draft.old draft.new sink.old sink.new
        (gathered_text csv plan.now.names (rules_in limits.now) gathered.now) }
{
    let style = style_of(csv);
    let sheet = Sheet {
        style,
        tick: Tick::Tenth,
        plan,
        limits,
        first: 0,
        told: Told::Totals(&gathered.totals),
    };
    put_head(
        draft,
        sink,
        Tick::Tenth,
        style,
        gathered.known,
        gathered.first,
    );
    sheet.put(draft, sink);
    put_unknown(draft, sink, Tick::Tenth, style, gathered.unknown);
}
