// The plan of a site and its tables.
ghost use Rattle.std.specs.Prelude.{◌≡◌, ◌≤◌, ℕ, IfOk, IfErr, None, length};
ghost use Rattle.std.specs.Option.{ForSome};
ghost use Rattle.sig_io.specs.Outside.{Rose};
ghost use Rattle.pua_model.specs.Plan.{groups_in};
ghost use Rattle.pua_reader.specs.Accepted.{refusal_of, plan_of_text};
ghost use Rattle.sig_tables.specs.TimesTable.{times_refusal, times_of};
ghost use Rattle.sig_tables.specs.IntergreenTable.{intergreens_refusal, intergreen_of};
ghost use Rattle.sig_tables.specs.Pairs.{between};
ghost use Rattle.site_load.specs.Loading.{files_in, plan_refusal, table_refusal, plan_at, times_at, intergreens_at, site_of, ReachedInSite};
ghost use Rattle.site_load.specs.Sites.{site_in, site_of_tables};
ghost use Rattle.site_load.specs.Stop.{IsAmong, IsAt, IsLoading, IsReadFault, IsRefusedText};

use crate::stop::{Reason, SiteStop};
use crate::text::read_text;
use pua_model::Plan;
use pua_reader::{PuaRefusal, read_plan};
use sig_io::Files;
use sig_tables::{Intergreens, TableRefusal, Times, read_intergreens, read_times};
use std::alloc::Global;

/// The names of the files of a site.
#[derive(Clone, Copy)]
pub struct SiteWords<'a> {
    /// The PUA file.
    pub plan: &'a str,
    /// The table of times.
    pub times: &'a str,
    /// The table of intergreens.
    pub intergreens: &'a str,
}

/// A plan, and the tables that were read against it.
#[derive(Drop)]
pub struct SiteTables {
    pub plan: Plan,
    pub times: Times,
    pub intergreens: Intergreens,
}

fn judge_plan<'a>(alloc: Global, text: &[u8], word: &'a str) -> Result<Plan, SiteStop<'a>>
    requires { length text.now ≤ 1048576 }
    ensures accepted { IfOk result (λ plan. plan_refusal (refusal_of text.now) ≡ None) }
    ensures plan { IfOk result (λ plan. plan ≡ plan_of_text text.now) }
    ensures refused { IfErr result (λ stop. IsRefusedText stop (plan_refusal (refusal_of text.now))) }
    ensures word { IfErr result (λ stop. IsAt word.now stop) }
{
    match read_plan(alloc, text) {
        Ok(plan) => Ok(plan),
        Err(PuaRefusal::Memory) => Err(SiteStop::Memory),
        Err(PuaRefusal::At { line, why }) => Err(SiteStop::Refused {
            word,
            line,
            reason: Reason::Pua(why),
        }),
    }
}

fn judge_times<'a>(
    alloc: Global,
    text: &[u8],
    plan: Plan,
    word: &'a str,
) -> Result<(Plan, Times), SiteStop<'a>>
    ensures accepted { IfOk result (λ r. table_refusal plan (times_refusal plan text.now) ≡ None) }
    ensures plan { IfOk result (λ r. r.0 ≡ plan) }
    ensures times { IfOk result (λ r. r.1 ≡ times_of plan text.now) }
    ensures groups { IfOk result (λ r. length r.1 ≡ groups_in plan) }
    ensures refused { IfErr result (λ stop. IsRefusedText stop (table_refusal plan (times_refusal plan text.now))) }
    ensures word { IfErr result (λ stop. IsAt word.now stop) }
{
    match read_times(alloc, text, &plan) {
        Ok(times) => Ok((plan, times)),
        Err(TableRefusal::Memory) => Err(SiteStop::Memory),
        Err(TableRefusal::At { line, why }) => Err(SiteStop::Refused {
            word,
            line,
            reason: Reason::Table(why, plan),
        }),
    }
}

fn judge_intergreens<'a>(
    alloc: Global,
    text: &[u8],
    plan: Plan,
    word: &'a str,
) -> Result<(Plan, Intergreens), SiteStop<'a>>
    ensures accepted { IfOk result (λ r. table_refusal plan (intergreens_refusal plan text.now) ≡ None) }
    ensures plan { IfOk result (λ r. r.0 ≡ plan) }
    ensures seconds { IfOk result (λ r. (i g : ℕ) → between r.1 i g ≡ intergreen_of plan text.now i g) }
    ensures groups { IfOk result (λ r. r.1.count ≡ groups_in plan) }
    ensures refused { IfErr result (λ stop. IsRefusedText stop (table_refusal plan (intergreens_refusal plan text.now))) }
    ensures word { IfErr result (λ stop. IsAt word.now stop) }
{
    match read_intergreens(alloc, text, &plan) {
        Ok(intergreens) => Ok((plan, intergreens)),
        Err(TableRefusal::Memory) => Err(SiteStop::Memory),
        Err(TableRefusal::At { line, why }) => Err(SiteStop::Refused {
            word,
            line,
            reason: Reason::Table(why, plan),
        }),
    }
}

// Reads and judges the plan.
fn take_plan<'a, F: Files>(
    alloc: Global,
    word: &'a str,
    files: &mut F,
) -> Result<Plan, SiteStop<'a>>
    ensures plan { ForSome (F.told files.old)
        (λ file. IsLoading (λ w. w ≡ word.now) (λ plan. plan) result (plan_at file word.now)) }
    ensures word { IfErr result (λ stop. IsAt word.now stop) }
    ensures contents_stay { F.told files.new ≡ F.told files.old }
    ensures later { F.faults files.old ≤ F.faults files.new }
    ensures cause { IsReadFault result → Rose (F.faults files.old) (F.faults files.new) }
{
    let text = match read_text(alloc, files, word) {
        Ok(text) => text,
        Err(stop) => return Err(stop),
    };
    judge_plan(alloc, &text, word)
}

// Reads and judges the times.
fn take_times<'a, F: Files>(
    alloc: Global,
    word: &'a str,
    files: &mut F,
    plan: Plan,
) -> Result<(Plan, Times), SiteStop<'a>>
    ensures times { ForSome (F.told files.old)
        (λ file. IsLoading (λ w. w ≡ word.now) (λ r. r.1) result (times_at file word.now plan)) }
    ensures plan { IfOk result (λ r. r.0 ≡ plan) }
    ensures groups { IfOk result (λ r. length r.1 ≡ groups_in plan) }
    ensures word { IfErr result (λ stop. IsAt word.now stop) }
    ensures contents_stay { F.told files.new ≡ F.told files.old }
    ensures later { F.faults files.old ≤ F.faults files.new }
    ensures cause { IsReadFault result → Rose (F.faults files.old) (F.faults files.new) }
{
    let text = match read_text(alloc, files, word) {
        Ok(text) => text,
        Err(stop) => return Err(stop),
    };
    judge_times(alloc, &text, plan, word)
}

// Reads and judges the intergreens.
fn take_intergreens<'a, F: Files>(
    alloc: Global,
    word: &'a str,
    files: &mut F,
    plan: Plan,
) -> Result<(Plan, Intergreens), SiteStop<'a>>
    ensures intergreens { ForSome (F.told files.old)
        (λ file. IsLoading (λ w. w ≡ word.now) (λ r. between r.1) result (intergreens_at file word.now plan)) }
    ensures plan { IfOk result (λ r. r.0 ≡ plan) }
    ensures groups { IfOk result (λ r. r.1.count ≡ groups_in plan) }
    ensures word { IfErr result (λ stop. IsAt word.now stop) }
    ensures contents_stay { F.told files.new ≡ F.told files.old }
    ensures later { F.faults files.old ≤ F.faults files.new }
    ensures cause { IsReadFault result → Rose (F.faults files.old) (F.faults files.new) }
{
    let text = match read_text(alloc, files, word) {
        Ok(text) => text,
        Err(stop) => return Err(stop),
    };
    judge_intergreens(alloc, &text, plan, word)
}

/// Reads and judges the plan, the times and the intergreens, one after the other. Each has at most 1,048,576 bytes.
///
/// It answers `ReadFault` only where a read failed.
pub fn take_site<'a, F: Files>(
    alloc: Global,
    words: &SiteWords<'a>,
    files: &mut F,
) -> Result<SiteTables, SiteStop<'a>>
    ensures site { ForSome (F.told files.old)
        (λ file. IsLoading (λ w. ReachedInSite (site_in words.now) file w) site_of_tables result
        (site_of (site_in words.now) file)) }
    ensures times { IfOk result (λ s. length s.times ≡ groups_in s.plan) }
    ensures intergreens { IfOk result (λ s. s.intergreens.count ≡ groups_in s.plan) }
    ensures word { IfErr result (λ stop. IsAmong (files_in (site_in words.now)) stop) }
    ensures contents_stay { F.told files.new ≡ F.told files.old }
    ensures later { F.faults files.old ≤ F.faults files.new }
    ensures cause { IsReadFault result → Rose (F.faults files.old) (F.faults files.new) }
{
    let plan = match take_plan(alloc, words.plan, files) {
        Ok(plan) => plan,
        Err(stop) => return Err(stop),
    };
    let (plan, times) = match take_times(alloc, words.times, files, plan) {
        Ok(taken) => taken,
        Err(stop) => return Err(stop),
    };
    match take_intergreens(alloc, words.intergreens, files, plan) {
        Ok((plan, intergreens)) => Ok(SiteTables {
            plan,
            times,
            intergreens,
        }),
        Err(stop) => Err(stop),
    }
}
