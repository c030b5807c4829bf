// What is told of: a program at its site.
ghost use Rattle.std.specs.Prelude.{◌≡◌, ◌≤◌, ◌∷◌, [], ◌++◌, IfOk, IfErr, length};
ghost use Rattle.std.specs.Option.{ForSome};
ghost use Rattle.sig_io.specs.Outside.{Rose};
ghost use Rattle.pua_model.specs.Plan.{groups_in};
ghost use Rattle.junction_run.specs.Form.{site_files};
ghost use Rattle.junction_run.specs.FormWords.{site_in};
ghost use Rattle.junction_run.specs.Stop.{IsAmong, StopsWith, load_status};
ghost use Rattle.junction_run.specs.declared.status.Status.TheVariants as status;
ghost use Rattle.trace_call.specs.Loaded.{IsToldLoad};

use crate::program::{Program, take_program};
use junction_run::{LoadStop, Site, SiteTables, SiteWords, take_site};
use sig_io::Files;
use std::alloc::Global;
use vap_check::Checked;

/// A program at its site: the site with the code that does what the program does, the program as it was checked, and
/// its text.
#[derive(Drop)]
pub struct Loaded {
    pub site: Site,
    pub checked: Checked,
    pub text: Vec<u8>,
}

// The site of these tables with this program.
fn with_program(tables: SiteTables, program: Program) -> Loaded
    ensures { result ≡ record {
      site = record { plan = tables.plan; times = tables.times; intergreens = tables.intergreens; code = program.code };
      checked = program.checked;
      text = program.text;
    } }
{
    let SiteTables {
        plan,
        times,
        intergreens,
    } = tables;
    let Program {
        text,
        checked,
        code,
    } = program;
    let site = Site {
        plan,
        times,
        intergreens,
        code,
    };
    Loaded {
        site,
        checked,
        text,
    }
}

/// Reads and judges the plan, the times, the intergreens and a program, one after the other, each file once, as
/// `junction run` does. What is wrong is told as it tells it.
pub fn load_program<'a, F: Files>(
    alloc: Global,
    program: &'a str,
    words: &SiteWords<'a>,
    files: &mut F,
) -> Result<Loaded, LoadStop<'a>>
    // Where the files tell what they hold, they give this program at this site, or they are refused so.
    ensures loaded { ForSome (F.told files.old) (λ file. IsToldLoad program.now (site_in words.now) file result) }
    ensures short { IfOk result (λ l. length l.text.items ≤ 1048576) }
    ensures times { IfOk result (λ l. length l.site.times ≡ groups_in l.site.plan) }
    ensures intergreens { IfOk result (λ l. l.site.intergreens.count ≡ groups_in l.site.plan) }
    ensures word { IfErr result (λ stop. IsAmong (site_files (site_in words.now) ++ program.now ∷ []) stop) }
    ensures contents_stay { F.told files.new ≡ F.told files.old }
    ensures later { F.faults files.old ≤ F.faults files.new }
    ensures cause { StopsWith load_status status.ReadFault result → Rose (F.faults files.old) (F.faults files.new) }
{
    let tables = match take_site(alloc, words, files) {
        Ok(tables) => tables,
        Err(stop) => return Err(stop),
    };
    match take_program(alloc, program, files) {
        Ok(program) => Ok(with_program(tables, program)),
        Err(stop) => Err(stop),
    }
}
