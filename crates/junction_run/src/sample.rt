// A sample: what the seconds of a controller add up to, over frames that are drawn from a seed.
ghost use Rattle.std.specs.Prelude.{◌≡◌, ◌≤◌, false, ℕ, List, OnOk, OnErr, IfErr};
ghost use Rattle.std.specs.Option.{ForSome};
ghost use Rattle.std.specs.Io.KnownBytes.{append_known};
ghost use Rattle.sig_io.specs.Draft.{IsCut};
ghost use Rattle.sig_io.specs.Outside.{HasCause, Rose};
ghost use Rattle.sig_types.specs.Pass.{Store};
ghost use Rattle.sig_types.specs.declared.record.Record.{Record};
ghost use Rattle.pua_model.specs.Plan.{groups_in};
ghost use Rattle.controller.specs.Past.{opening};
ghost use Rattle.controller.specs.Controls.{StandsFor, site_of, plan_of};
ghost use Rattle.signal_log.specs.Summary.{StandsFor as SummaryStands, summary_text};
ghost use Rattle.junction_run.specs.Answers.{may_write};
ghost use Rattle.junction_run.specs.Drawn.{drawn};
ghost use Rattle.junction_run.specs.Ended.{IsEnded};
ghost use Rattle.junction_run.specs.Form.{Sample, files_of};
ghost use Rattle.junction_run.specs.FormWords.{site_in};
ghost use Rattle.junction_run.specs.Played.{playing_of};
ghost use Rattle.junction_run.specs.Records.{records_of};
ghost use Rattle.junction_run.specs.Stop.{StopsAmong, StopsWith, status_of};
ghost use Rattle.junction_run.specs.declared.status.Status.TheVariants as status;

use crate::draw::{draw_frame, generator_of};
use crate::form::Source;
use crate::load::load_source;
use crate::run::{free_controller, make_controller};
use crate::seconds::SampleSeconds;
use crate::stop::{LoadStop, PlayStop, Stop};
use controller::Controller;
use pua_model::Plan;
use sig_io::{Draft, Files, PutFault, Sink};
use sig_types::Frame;
use signal_log::{Summary, put_summary};
use site_load::SiteWords;
use std::alloc::Global;

// Makes so many seconds, each with a frame that is drawn from the seed, and adds their records up. It takes no memory.
fn sample_seconds(controller: &mut Controller, seed: u64, seconds: u32) -> Summary
    requires begun { (store : Store) × StandsFor controller.old (opening (site_of controller.old) store) }
    requires few { seconds ≤ 604800 }
    ensures summed { (store : Store) → StandsFor controller.old (opening (site_of controller.old) store) →
        SummaryStands result
        (groups_in (plan_of controller.old)) (records_of (playing_of controller.old store) (drawn seed seconds)) }
    ensures plan { plan_of controller.new ≡ plan_of controller.old }
{
    let mut summary = Summary::new(controller.plan().groups());
    let mut generator = generator_of(seed);
    let mut frame = Frame::empty();
    for second in 0..seconds {
        draw_frame(&mut generator, &mut frame);
        controller.second(&frame);
        summary.add(controller.last());
    }
    summary
}

// Writes the text of a summary.
fn write_summary<O: Sink>(
    summary: &Summary,
    plan: &Plan,
    seed: u64,
    seconds: u32,
    out: &mut O,
) -> Result<(), PutFault>
    ensures ok { (rs : List Record) → SummaryStands summary.now (groups_in plan.now) rs →
        OnOk result (O.taken out.new ≡ append_known (O.taken out.old) (summary_text plan.now.names seed seconds rs)) }
    ensures fault { (rs : List Record) → SummaryStands summary.now (groups_in plan.now) rs →
        OnErr result ((n : ℕ) × IsCut (O.taken out.old) (O.taken out.new) n (summary_text plan.now.names seed seconds rs)) }
    ensures cause { HasCause (O.faults out.old) (O.faults out.new) result }
{
    let mut draft = Draft::new();
    put_summary(summary, plan, seed, seconds, &mut draft, out);
    draft.finish(out)
}

/// Loads a program at its site, makes the seconds of a sample, and writes what they add up to. All memory is taken before the
/// first byte is written.
pub(crate) fn sample<'a, F: Files, O: Sink>(
    alloc: Global,
    program: &'a str,
    words: &SiteWords<'a>,
    seed: u64,
    seconds: SampleSeconds,
    files: &mut F,
    out: &mut O,
) -> Result<(), Stop<'a>>
    ensures ended { ForSome (F.told files.old) (λ file.
        IsEnded (Sample program.now (site_in words.now) seed seconds.count) file result (O.taken out.old) (O.taken out.new)) }
    ensures unwritten { IfErr result (λ stop. may_write false (status_of stop) ≡ false → O.taken out.new ≡ O.taken out.old) }
    ensures line { StopsWith status_of status.RefusedLine result → ⊥ }
    ensures word { IfErr result (λ stop. StopsAmong (files_of (Sample program.now (site_in words.now) seed seconds.count)) stop) }
    ensures contents_stay { F.told files.new ≡ F.told files.old }
    ensures later_files { F.faults files.old ≤ F.faults files.new }
    ensures later_out { O.faults out.old ≤ O.faults out.new }
    ensures read { StopsWith status_of status.ReadFault result → Rose (F.faults files.old) (F.faults files.new) }
    ensures write { StopsWith status_of status.WriteFault result → Rose (O.faults out.old) (O.faults out.new) }
{
    let site = match load_source(alloc, &Source::Program(program), words, files) {
        Ok(site) => site,
        Err(stop) => return Err(Stop::Load(stop)),
    };
    let mut controller = match make_controller(alloc, site) {
        Ok(controller) => controller,
        Err(_memory) => return Err(Stop::Load(LoadStop::Memory)),
    };
    let summary = sample_seconds(&mut controller, seed, seconds.count);
    match write_summary(&summary, controller.plan(), seed, seconds.count, out) {
        Ok(()) => {
            free_controller(controller);
            Ok(())
        }
        Err(_fault) => {
            free_controller(controller);
            Err(Stop::Play(PlayStop::WriteFault))
        }
    }
}
