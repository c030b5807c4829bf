// The observer that prints, and what tells by it.
ghost use Rattle.std.specs.Prelude.{◌≡◌, ◌^◌, ◌<◌, ◌+◌, map};
ghost use Rattle.sig_io.specs.Draft.{Puts};
ghost use Rattle.sig_types.specs.Counts.{Counts, Takes};
ghost use Rattle.vap_ast.specs.Tree.{program_of};
ghost use Rattle.controller.specs.Controls.{StandsFor, code_of, logic_of, site_of};
ghost use Rattle.controller.specs.Past.{Past, next_second};
ghost use Rattle.controller.specs.Second.{past_after_second};
ghost use Rattle.controller.specs.Seen.{sights_in};
ghost use Rattle.trace_told.specs.Printed.{printed_in};
ghost use Rattle.trace_told.specs.Traces.{trace_in};

use crate::print_lines::put_seen;
use crate::traces::Trace;
use controller::Controller;
use run_seconds::Teller;
use sig_io::{Draft, Sink};
use sig_types::Frame;
use vap_check::Checked;
use vap_code::Instr;
use vap_vm::{Head, Machine, Observer, Sight};

/// An observer of the pass of a second that puts what the pass prints while it runs, so that nothing is kept.
#[derive(Drop)]
pub struct Printing<'a, O: Sink> {
    checked: &'a Checked,
    traces: &'a [Trace],
    second: u32,
    draft: &'a mut Draft,
    out: &'a mut O,
}

impl<'a, O: Sink> Observer for Printing<'a, O> {
    ghost use Rattle.std.specs.Prelude.{◌≡◌, map};
    ghost use Rattle.sig_io.specs.Draft.{Puts};
    ghost use Rattle.vap_ast.specs.Tree.{program_of};
    ghost use Rattle.trace_told.specs.Printed.{printed_in};
    ghost use Rattle.trace_told.specs.Traces.{trace_in};

    ghost saw = { λ first now sights.
        (now.draft.ghost_name ≡ first.draft.ghost_name) × (now.out.ghost_name ≡ first.out.ghost_name)
        × (now.checked.now ≡ first.checked.now) × (now.traces.now ≡ first.traces.now) × (now.second ≡ first.second)
        × Puts O.taken O.faults first.draft.now now.draft.now first.out.now now.out.now
        (printed_in (program_of first.checked.now.tree) (map trace_in first.traces.now) first.second sights) };

    fn look(&mut self, instr: Instr, head: &Head, machine: &Machine) {
        let sight = Sight::of(instr, head, machine);
        put_seen(
            self.checked,
            self.second,
            &sight,
            self.traces,
            self.draft,
            self.out,
        );
    }
}

// The second that comes.
fn next_second(controller: &Controller) -> u32
    requires { (past : Past) × (frame : Counts) × StandsFor controller.now past × Takes past.frames frame }
    ensures { (past : Past) → StandsFor controller.now past → result ≡ next_second past }
{
    controller.last().second.0 + 1
}

// Makes a second, and prints meanwhile.
fn see<O: Sink>(controller: &mut Controller, frame: &Frame, printing: &mut Printing<'_, O>)
    requires { (past : Past) × StandsFor controller.old past × Takes past.frames frame.now }
    ensures stands { (past : Past) → StandsFor controller.old past →
        StandsFor controller.new (past_after_second (logic_of controller.old) (site_of controller.old) past frame.now) }
    ensures same_draft { printing.new.draft.ghost_name ≡ printing.old.draft.ghost_name }
    ensures same_out { printing.new.out.ghost_name ≡ printing.old.out.ghost_name }
    ensures puts { (past : Past) → StandsFor controller.old past → Puts O.taken O.faults
        printing.old.draft.now printing.new.draft.now printing.old.out.now printing.new.out.now
        (printed_in (program_of printing.old.checked.now.tree) (map trace_in printing.old.traces.now) printing.old.second
        (sights_in (code_of controller.old) (site_of controller.old) past frame.now)) }
    ensures code { code_of controller.new ≡ code_of controller.old }
    ensures site { site_of controller.new ≡ site_of controller.old }
{
    controller.second_seen(frame, printing)
}

/// What tells of the seconds of a run by what their passes print.
#[derive(Drop)]
pub struct Prints<'a> {
    /// The program.
    pub checked: &'a Checked,
    /// Its TRACE statements.
    pub traces: &'a [Trace],
}

impl<'a> Teller for Prints<'a> {
    ghost use Rattle.std.specs.Prelude.{map};
    ghost use Rattle.vap_ast.specs.Tree.{program_of};
    ghost use Rattle.trace_told.specs.Printed.{prints_told};
    ghost use Rattle.trace_told.specs.Traces.{trace_in};

    ghost telling = { λ prints code site past frame.
        prints_told (program_of prints.checked.now.tree) (map trace_in prints.traces.now) code site past frame };

    ghost knows = { λ prints code site first frames. Unit {0} };

    fn tell<O: Sink>(
        &mut self,
        controller: &mut Controller,
        frame: &Frame,
        draft: &mut Draft,
        out: &mut O,
    ) {
        let mut printing = Printing {
            checked: self.checked,
            traces: self.traces,
            second: next_second(controller),
            draft,
            out,
        };
        see(controller, frame, &mut printing);
    }
}
