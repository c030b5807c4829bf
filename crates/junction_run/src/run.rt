// The commands that play a detector file.
ghost use Rattle.std.specs.Prelude.{true, false, ◌≡◌, ◌≤◌, IfOk, IfErr, length};
ghost use Rattle.std.specs.Option.{ForSome};
ghost use Rattle.sig_io.specs.Outside.{Rose};
ghost use Rattle.sig_types.specs.Rules.{IsTwoWay};
ghost use Rattle.pua_model.specs.Plan.{groups_in};
ghost use Rattle.vap_code.specs.Machine.{machine};
ghost use Rattle.vap_code.specs.Valid.{Valid};
ghost use Rattle.vap_code.specs.Stores.{first_store};
ghost use Rattle.controller.specs.Past.{opening};
ghost use Rattle.controller.specs.Controls.{StandsFor, site_of, logic_of};
ghost use Rattle.det_stream.specs.Stream.{stream_of};
ghost use Rattle.junction_run.specs.Answers.{may_write};
ghost use Rattle.junction_run.specs.Ended.{IsEnded};
ghost use Rattle.junction_run.specs.Form.{Play, files_of};
ghost use Rattle.junction_run.specs.FormWords.{site_in, source_in};
ghost use Rattle.junction_run.specs.Guarded.{IsGuardedLog};
ghost use Rattle.junction_run.specs.Played.{IsPlayedAt};
ghost use Rattle.junction_run.specs.Sites as sites;
ghost use Rattle.junction_run.specs.Stop.{StopsAt, StopsAmong, StopsWith, status_of};
ghost use Rattle.junction_run.specs.declared.status.Status.TheVariants as status;

use crate::form::Source;
use crate::load::{Site, load_source};
use crate::play::play;
use crate::stop::{LoadStop, Stop};
use controller::Controller;
use det_stream::Lines;
use sig_io::{Files, Sink};
use sig_types::Memory;
use site_load::SiteWords;
use std::alloc::Global;

/// A controller of a site, before its first second. The tables were read against the plan.
pub fn make_controller(alloc: Global, site: Site) -> Result<Controller, Memory>
    requires times { length site.times ≡ groups_in site.plan }
    requires intergreens { site.intergreens.count ≡ groups_in site.plan }
    ensures site { IfOk result (λ c. site_of c ≡ sites.site_in site) }
    ensures logic { IfOk result (λ c. logic_of c ≡ machine site.code) }
    ensures stands { IfOk result (λ c. StandsFor c (opening (site_of c) (first_store site.code))) }
    ensures valid { Valid site.code }
    ensures two_way { IsTwoWay (sites.site_in site).rules }
{
    let Site {
        plan,
        times,
        intergreens,
        code,
    } = site;
    // Their contracts tell that the pairs are listed both ways, and that verified code is valid.
    intergreens.groups();
    code.code();
    Controller::make(alloc, plan, times, intergreens, code)
}

// Frees a controller. A value that goes out of scope is freed part by part in each way out of its function, and each part is a step of
// the function's proof; by this a way out has one step.
pub(crate) fn free_controller(_controller: Controller) {}

// Frees what seconds are made with.
fn free_run(_controller: Controller, _lines: Lines) {}

// Plays a detector file at a site. All memory is taken before the first byte is written.
fn play_site<'a, F: Files, O: Sink>(
    alloc: Global,
    site: Site,
    detectors: &'a str,
    files: &mut F,
    out: &mut O,
) -> Result<(), Stop<'a>>
    requires times { length site.times ≡ groups_in site.plan }
    requires intergreens { site.intergreens.count ≡ groups_in site.plan }
    ensures played { ForSome (F.told files.old) (λ file.
        IsPlayedAt (sites.playing_in site) detectors.now (stream_of (file detectors.now))
        result (O.taken out.old) (O.taken out.new)) }
    ensures valid { Valid site.code }
    ensures guarded { IsGuardedLog (O.taken out.old) (O.taken out.new) }
    ensures unwritten { IfErr result (λ stop. may_write true (status_of stop) ≡ false → O.taken out.new ≡ O.taken out.old) }
    ensures word { IfErr result (λ stop. StopsAt detectors.now stop) }
    ensures contents_stay { F.told files.new ≡ F.told files.old }
    ensures later_files { F.faults files.old ≤ F.faults files.new }
    ensures later_out { O.faults out.old ≤ O.faults out.new }
    ensures read { StopsWith status_of status.ReadFault result → Rose (F.faults files.old) (F.faults files.new) }
    ensures write { StopsWith status_of status.WriteFault result → Rose (O.faults out.old) (O.faults out.new) }
{
    let mut controller = match make_controller(alloc, site) {
        Ok(controller) => controller,
        Err(_memory) => return Err(Stop::Load(LoadStop::Memory)),
    };
    let mut lines = match Lines::make(alloc, detectors) {
        Ok(lines) => lines,
        Err(_memory) => {
            free_controller(controller);
            return Err(Stop::Load(LoadStop::Memory));
        }
    };
    match play(&mut controller, &mut lines, detectors, files, out) {
        Ok(()) => {
            free_run(controller, lines);
            Ok(())
        }
        Err(stop) => {
            free_run(controller, lines);
            Err(Stop::Play(stop))
        }
    }
}

/// Loads a program or a code at its site, and plays a detector file. All memory is taken before the first byte is written.
pub(crate) fn run<'a, F: Files, O: Sink>(
    alloc: Global,
    source: &Source<'a>,
    words: &SiteWords<'a>,
    detectors: &'a str,
    files: &mut F,
    out: &mut O,
) -> Result<(), Stop<'a>>
    ensures ended { ForSome (F.told files.old) (λ file.
        IsEnded (Play (source_in source.now) (site_in words.now) detectors.now) file result (O.taken out.old) (O.taken out.new)) }
    ensures guarded { IsGuardedLog (O.taken out.old) (O.taken out.new) }
    ensures unwritten { IfErr result (λ stop. may_write true (status_of stop) ≡ false → O.taken out.new ≡ O.taken out.old) }
    ensures word { IfErr result (λ stop.
        StopsAmong (files_of (Play (source_in source.now) (site_in words.now) detectors.now)) stop) }
    ensures contents_stay { F.told files.new ≡ F.told files.old }
    ensures later_files { F.faults files.old ≤ F.faults files.new }
    ensures later_out { O.faults out.old ≤ O.faults out.new }
    ensures read { StopsWith status_of status.ReadFault result → Rose (F.faults files.old) (F.faults files.new) }
    ensures write { StopsWith status_of status.WriteFault result → Rose (O.faults out.old) (O.faults out.new) }
{
    let site = match load_source(alloc, source, words, files) {
        Ok(site) => site,
        Err(stop) => return Err(Stop::Load(stop)),
    };
    play_site(alloc, site, detectors, files, out)
}
