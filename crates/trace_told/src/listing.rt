// The listing of a second.
ghost use Rattle.sig_io.specs.Draft.{Puts};
ghost use Rattle.sig_types.specs.Recorded.{IsRecord};
ghost use Rattle.pua_model.specs.Plan.{groups_in};
ghost use Rattle.vap_ast.specs.Tree.{program_of};
ghost use Rattle.trace_told.specs.Listing.{fault_text, full_text, listing_text};

use crate::changes::put_changes;
use crate::events::put_events;
use crate::kept::Kept;
use pua_model::Plan;
use sig_io::{Draft, Sink};
use sig_types::{Fault, Record};
use signal_log::{fault_name, put_second};
use trace_watch::Event;
use vap_check::Checked;
use vap_vm::Vm;

// Puts the fault and its line, if there is one.
fn put_fault<O: Sink>(fault: Option<Fault>, draft: &mut Draft, out: &mut O)
    ensures { Puts O.taken O.faults draft.old draft.new out.old out.new (fault_text fault) }
{
    match fault {
        None => {}
        Some(fault) => {
            draft.put(out, b"\nfault ");
            draft.put(out, fault_name(fault.kind));
            draft.put(out, b" in line ");
            draft.put_number(out, fault.line);
        }
    }
}

// Puts that no more than so many events are listed, where so many are.
fn put_full<O: Sink>(count: usize, draft: &mut Draft, out: &mut O)
    ensures { Puts O.taken O.faults draft.old draft.new out.old out.new (full_text count) }
{
    if count == 1_000_000 {
        draft.put(out, b"\nno more than 1000000 events are listed");
    }
}

/// Puts the listing of a second with these events and this record, before which these values were kept.
#[tactic(auto, unfolding(crate::specs::Listing::listing_text))]
pub(crate) fn put_listing<O: Sink>(
    checked: &Checked,
    plan: &Plan,
    events: &[Event],
    rec: &Record,
    vm: &Vm,
    kept: &[Kept],
    draft: &mut Draft,
    out: &mut O,
)
    requires { IsRecord (groups_in plan.now) rec.now }
    ensures { Puts O.taken O.faults draft.old draft.new out.old out.new
        (listing_text plan.now (program_of checked.now.tree) events.now rec.now vm.now.store kept.now) }
{
    draft.put(out, b"second ");
    draft.put_number(out, rec.second.0);
    put_events(checked, plan, rec, events, draft, out);
    put_full(events.len(), draft, out);
    put_fault(rec.fault, draft, out);
    put_changes(checked, vm, kept, draft, out);
    draft.put(out, b"\nrecord ");
    put_second(rec, plan, draft, out);
}
