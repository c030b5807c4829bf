// A site that was loaded, once more.
ghost use Rattle.std.specs.Prelude.{◌≡◌, ◌≤◌, IfOk, length};
ghost use Rattle.std.specs.Option.{ForSome};
ghost use Rattle.sig_io.specs.Outside.{Rose};
ghost use Rattle.pua_model.specs.Plan.{groups_in};
ghost use Rattle.vap_ast.specs.Tree.{program_of};
ghost use Rattle.vap_check.specs.Numbers.{checked_of};
ghost use Rattle.junction_run.specs.FormWords.{site_in};
ghost use Rattle.junction_run.specs.Loading.{ReachedInSite, site_of};
ghost use Rattle.junction_run.specs.Sites as sites;
ghost use Rattle.junction_run.specs.Stop.{IsLoading, StopsWith, load_status};
ghost use Rattle.junction_run.specs.declared.status.Status.TheVariants as status;
ghost use Rattle.trace_call.specs.Loaded.{code_for};

use junction_run::{LoadStop, Site, SiteTables, SiteWords, take_site};
use sig_io::Files;
use std::alloc::Global;
use vap_check::Checked;
use vap_compile::compile;

/// Judges the plan, the times and the intergreens once more, for another run of a program that was checked, whose code is made
/// anew. A run takes its site with it. [`KeptFiles`](crate::KeptFiles) gives their bytes without another read.
pub fn load_again<'a, F: Files>(
    alloc: Global,
    words: &SiteWords<'a>,
    checked: &Checked,
    files: &mut F,
) -> Result<Site, LoadStop<'a>>
    ensures site { ForSome (F.told files.old) (λ file.
        IsLoading (λ w. ReachedInSite (site_in words.now) file w) sites.site_in result (site_of (site_in words.now) file)) }
    ensures code { checked.now ≡ checked_of checked.now.tree →
        IfOk result (λ s. s.code ≡ code_for (program_of checked.now.tree)) }
    ensures times { IfOk result (λ s. length s.times ≡ groups_in s.plan) }
    ensures intergreens { IfOk result (λ s. s.intergreens.count ≡ groups_in s.plan) }
    ensures contents_stay { F.told files.new ≡ F.told files.old }
    ensures later { F.faults files.old ≤ F.faults files.new }
    ensures cause { StopsWith load_status status.ReadFault result → Rose (F.faults files.old) (F.faults files.new) }
{
    let SiteTables {
        plan,
        times,
        intergreens,
    } = match take_site(alloc, words, files) {
        Ok(tables) => tables,
        Err(stop) => return Err(stop),
    };
    match compile(alloc, checked) {
        Ok(code) => Ok(Site {
            plan,
            times,
            intergreens,
            code,
        }),
        Err(_memory) => Err(LoadStop::Memory),
    }
}
