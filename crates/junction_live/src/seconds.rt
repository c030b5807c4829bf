// The controller's side.
ghost use Rattle.std.specs.Prelude.{◌≡◌, ◌≤◌, ℕ, [], slice_index_or};
ghost use Rattle.sig_io.specs.Draft.{FailsOnly};
ghost use Rattle.sig_io.specs.Outside.{Rose};
ghost use Rattle.pua_model.specs.Plan.{groups_in};
ghost use Rattle.controller.specs.Controls.{site_of, logic_of, plan_of};
ghost use Rattle.junction_live.specs.Outcome.{HasMadeNone, SecondsGiven, SecondsPut};

use crate::audience::Audience;
use controller::Controller;
use det_board::{Board, TickPass};
use junction_run::Status;
use sig_io::{Draft, Gate, Sink};
use sig_types::Frame;
use signal_log::put_second;

// Takes a frame, makes a second, shows its picture and puts its record, `seconds` times. After a fault of the sink no further
// second is made.
fn put_seconds<A: Audience, O: Sink, G: Gate>(
    controller: &mut Controller,
    tick: &mut TickPass,
    board: &Board,
    seconds: u32,
    draft: &mut Draft,
    out: &mut O,
    gate: &G,
    cell: &A::Cell,
    audience: &mut A,
)
    requires board { (tick.old.table ≡ board.now.table) × (board.now.detectors ≡ 64) }
    requires none_made { HasMadeNone controller.old }
    requires unread { (w : ℕ) → slice_index_or tick.old.loads w [] ≡ [] }
    requires at_most { seconds ≤ 604800 }
    requires takes { A.takes cell.now audience.old (groups_in (plan_of controller.old)) seconds }
    ensures table { tick.new.table ≡ tick.old.table }
    ensures put { SecondsPut (A.given audience.old audience.new) seconds controller.old controller.new tick.new
        draft.old draft.new (O.taken out.old) (O.taken out.new) }
    ensures site { site_of controller.new ≡ site_of controller.old }
    ensures logic { logic_of controller.new ≡ logic_of controller.old }
    ensures cause { FailsOnly (O.faults out.old) (O.faults out.new) draft.old.failed draft.new.failed }
{
    let mut frame = Frame::empty();
    for k in 0..seconds {
        gate.pass(0, k);
        tick.take(board, &mut frame);
        controller.second(&frame);
        let record = controller.last();
        audience.show(cell, &record.picture);
        put_second(record, controller.plan(), draft, out);
        if draft.failed() {
            return;
        }
    }
}

/// Takes a frame, makes a second and shows its picture, `seconds` times. After a fault of the sink no further second is made.
/// All records go through one draft, and what is held goes out before it returns.
pub(crate) fn run_seconds<A: Audience, O: Sink, G: Gate>(
    controller: &mut Controller,
    tick: &mut TickPass,
    board: &Board,
    seconds: u32,
    out: &mut O,
    gate: &G,
    cell: &A::Cell,
    audience: &mut A,
) -> Status
    requires board { (tick.old.table ≡ board.now.table) × (board.now.detectors ≡ 64) }
    requires none_made { HasMadeNone controller.old }
    requires unread { (w : ℕ) → slice_index_or tick.old.loads w [] ≡ [] }
    requires at_most { seconds ≤ 604800 }
    requires takes { A.takes cell.now audience.old (groups_in (plan_of controller.old)) seconds }
    ensures table { tick.new.table ≡ tick.old.table }
    ensures made { SecondsGiven (A.given audience.old audience.new) seconds result controller.old controller.new tick.new
        (O.taken out.old) (O.taken out.new) }
    ensures site { site_of controller.new ≡ site_of controller.old }
    ensures logic { logic_of controller.new ≡ logic_of controller.old }
    ensures later { O.faults out.old ≤ O.faults out.new }
    ensures cause { result ≡ Status.WriteFault → Rose (O.faults out.old) (O.faults out.new) }
{
    let mut draft = Draft::new();
    put_seconds(
        controller, tick, board, seconds, &mut draft, out, gate, cell, audience,
    );
    if draft.failed() {
        return Status::WriteFault;
    }
    match draft.finish(out) {
        Ok(()) => Status::Done,
        Err(_fault) => Status::WriteFault,
    }
}
