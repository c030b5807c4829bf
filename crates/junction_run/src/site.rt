// The plan of a site and its tables.
ghost use Rattle.std.specs.Prelude.{◌≡◌, ◌≤◌, IfOk, IfErr, length};
ghost use Rattle.std.specs.Option.{ForSome};
ghost use Rattle.sig_io.specs.Outside.{Rose};
ghost use Rattle.pua_model.specs.Plan.{groups_in};
ghost use Rattle.junction_run.specs.Form.{site_files};
ghost use Rattle.junction_run.specs.FormWords.{site_in};
ghost use Rattle.junction_run.specs.Loading.{site_of, ReachedInSite};
ghost use Rattle.junction_run.specs.Sites.{site_of_tables};
ghost use Rattle.junction_run.specs.Stop.{IsLoading, IsAmong, StopsWith, load_status};
ghost use Rattle.junction_run.specs.declared.status.Status.TheVariants as status;

use crate::stop::{LoadStop, load_stop};
use sig_io::Files;
use site_load::{SiteTables, SiteWords};
use std::alloc::Global;

/// Reads and judges the plan, the times and the intergreens, one after the other.
///
/// The error is the first file that is not as it must be, or that could not be read, or `Memory`.
pub fn take_site<'a, F: Files>(
    alloc: Global,
    words: &SiteWords<'a>,
    files: &mut F,
) -> Result<SiteTables, LoadStop<'a>>
    ensures site { ForSome (F.told files.old)
        (λ file. IsLoading (λ w. ReachedInSite (site_in words.now) file w) site_of_tables result
        (site_of (site_in words.now) file)) }
    ensures times { IfOk result (λ s. length s.times ≡ groups_in s.plan) }
    ensures intergreens { IfOk result (λ s. s.intergreens.count ≡ groups_in s.plan) }
    ensures word { IfErr result (λ stop. IsAmong (site_files (site_in words.now)) stop) }
    ensures contents_stay { F.told files.new ≡ F.told files.old }
    ensures later { F.faults files.old ≤ F.faults files.new }
    ensures cause { StopsWith load_status status.ReadFault result → Rose (F.faults files.old) (F.faults files.new) }
{
    match site_load::take_site(alloc, words, files) {
        Ok(tables) => Ok(tables),
        Err(stop) => Err(load_stop(stop)),
    }
}
