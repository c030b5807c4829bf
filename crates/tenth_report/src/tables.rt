// The tables by which a record is judged.
ghost use Rattle.std.specs.Prelude.{◌≡◌, ◌≤◌, ◌<◌, ℕ, IfOk, IfErr, None, length};
ghost use Rattle.std.specs.Option.{ForSome};
ghost use Rattle.sig_io.specs.Outside.{Rose};
ghost use Rattle.pua_model.specs.Plan.{groups_in};
ghost use Rattle.sig_tables.specs.Pairs.{between};
ghost use Rattle.site_load.specs.Loading.{table_refusal};
ghost use Rattle.site_load.specs.Stop.{IsAt, IsLoading, IsReadFault, IsRefusedText, IsUnread};
ghost use Rattle.tenth_tables.specs.Times.{times_refusal, times_of};
ghost use Rattle.tenth_tables.specs.Intergreens.{intergreens_refusal, intergreen_of};
ghost use Rattle.tenth_report.specs.Tables.{ReachedInTables, intergreens_at, rules_at, rules_by_tables, times_at};

use pua_model::Plan;
use sig_io::{Files, ReadRefusal, TEXT_LIMIT, read_whole};
use sig_tables::TableRefusal;
use site_load::{Reason, SiteStop};
use std::alloc::Global;
use tenth_tables::{TenthIntergreens, TenthTimes, read_tenth_intergreens, read_tenth_times};

/// Both tables, and the groups against which they were read.
#[derive(Drop)]
pub(crate) struct RecordTables {
    pub(crate) plan: Plan,
    pub(crate) times: TenthTimes,
    pub(crate) intergreens: TenthIntergreens,
}

// Reads a text within its limit.
fn read_text<'a, F: Files>(
    alloc: Global,
    files: &mut F,
    word: &'a str,
) -> Result<Vec<u8>, SiteStop<'a>>
    ensures bytes { ForSome (F.told files.old) (λ file. IfOk result (λ v. v.items ≡ file word.now)) }
    ensures within { IfOk result (λ v. length v.items ≤ 1048576) }
    ensures unread { ForSome (F.told files.old) (λ file. IfErr result (λ stop. IsUnread (file word.now) stop)) }
    ensures word { IfErr result (λ stop. IsAt word.now stop) }
    ensures contents_stay { F.told files.new ≡ F.told files.old }
    ensures later { F.faults files.old ≤ F.faults files.new }
    ensures cause { IsReadFault result → Rose (F.faults files.old) (F.faults files.new) }
{
    match read_whole(alloc, files, word, TEXT_LIMIT) {
        Ok(bytes) => Ok(bytes),
        Err(ReadRefusal::Memory) => Err(SiteStop::Memory),
        Err(ReadRefusal::Fault) => Err(SiteStop::ReadFault(word)),
        Err(ReadRefusal::TooLong(_)) => Err(SiteStop::TooLong(word)),
    }
}

fn judge_times<'a>(
    alloc: Global,
    text: &[u8],
    plan: Plan,
    word: &'a str,
) -> Result<(Plan, TenthTimes), SiteStop<'a>>
    ensures accepted { IfOk result (λ r. table_refusal plan (times_refusal plan text.now) ≡ None) }
    ensures plan { IfOk result (λ r. r.0 ≡ plan) }
    ensures times { IfOk result (λ r. r.1 ≡ times_of plan text.now) }
    ensures groups { IfOk result (λ r. length r.1 ≡ groups_in plan) }
    ensures refused { IfErr result (λ stop. IsRefusedText stop (table_refusal plan (times_refusal plan text.now))) }
    ensures word { IfErr result (λ stop. IsAt word.now stop) }
{
    match read_tenth_times(alloc, text, &plan) {
        Ok(times) => Ok((plan, times)),
        Err(TableRefusal::Memory) => Err(SiteStop::Memory),
        Err(TableRefusal::At { line, why }) => Err(SiteStop::Refused {
            word,
            line,
            reason: Reason::Table(why, plan),
        }),
    }
}

fn judge_intergreens<'a>(
    alloc: Global,
    text: &[u8],
    plan: Plan,
    word: &'a str,
) -> Result<(Plan, TenthIntergreens), SiteStop<'a>>
    ensures accepted { IfOk result (λ r. table_refusal plan (intergreens_refusal plan text.now) ≡ None) }
    ensures plan { IfOk result (λ r. r.0 ≡ plan) }
    ensures tenths { IfOk result (λ r. (i g : ℕ) → between r.1 i g ≡ intergreen_of plan text.now i g) }
    ensures groups { IfOk result (λ r. r.1.count ≡ groups_in plan) }
    ensures refused { IfErr result (λ stop. IsRefusedText stop (table_refusal plan (intergreens_refusal plan text.now))) }
    ensures word { IfErr result (λ stop. IsAt word.now stop) }
{
    match read_tenth_intergreens(alloc, text, &plan) {
        Ok(intergreens) => Ok((plan, intergreens)),
        Err(TableRefusal::Memory) => Err(SiteStop::Memory),
        Err(TableRefusal::At { line, why }) => Err(SiteStop::Refused {
            word,
            line,
            reason: Reason::Table(why, plan),
        }),
    }
}

// Reads and judges the times.
fn take_times<'a, F: Files>(
    alloc: Global,
    word: &'a str,
    files: &mut F,
    plan: Plan,
) -> Result<(Plan, TenthTimes), SiteStop<'a>>
    ensures times { ForSome (F.told files.old)
        (λ file. IsLoading (λ w. w ≡ word.now) (λ r. r.1) result (times_at file word.now plan)) }
    ensures plan { IfOk result (λ r. r.0 ≡ plan) }
    ensures groups { IfOk result (λ r. length r.1 ≡ groups_in plan) }
    ensures word { IfErr result (λ stop. IsAt word.now stop) }
    ensures contents_stay { F.told files.new ≡ F.told files.old }
    ensures later { F.faults files.old ≤ F.faults files.new }
    ensures cause { IsReadFault result → Rose (F.faults files.old) (F.faults files.new) }
{
    let text = match read_text(alloc, files, word) {
        Ok(text) => text,
        Err(stop) => return Err(stop),
    };
    judge_times(alloc, &text, plan, word)
}

// Reads and judges the intergreens.
fn take_intergreens<'a, F: Files>(
    alloc: Global,
    word: &'a str,
    files: &mut F,
    plan: Plan,
) -> Result<(Plan, TenthIntergreens), SiteStop<'a>>
    ensures intergreens { ForSome (F.told files.old)
        (λ file. IsLoading (λ w. w ≡ word.now) (λ r. between r.1) result (intergreens_at file word.now plan)) }
    ensures plan { IfOk result (λ r. r.0 ≡ plan) }
    ensures groups { IfOk result (λ r. r.1.count ≡ groups_in plan) }
    ensures word { IfErr result (λ stop. IsAt word.now stop) }
    ensures contents_stay { F.told files.new ≡ F.told files.old }
    ensures later { F.faults files.old ≤ F.faults files.new }
    ensures cause { IsReadFault result → Rose (F.faults files.old) (F.faults files.new) }
{
    let text = match read_text(alloc, files, word) {
        Ok(text) => text,
        Err(stop) => return Err(stop),
    };
    judge_intergreens(alloc, &text, plan, word)
}

/// Reads and judges the times and the intergreens of these groups, one after the other. Each has at most 1,048,576 bytes.
///
/// It answers `ReadFault` only where a read failed.
pub(crate) fn take_tables<'a, F: Files>(
    alloc: Global,
    plan: Plan,
    times: &'a str,
    intergreens: &'a str,
    files: &mut F,
) -> Result<RecordTables, SiteStop<'a>>
    ensures tables { ForSome (F.told files.old)
        (λ file. IsLoading (λ w. ReachedInTables file times.now intergreens.now plan w) rules_by_tables result
        (rules_at file times.now intergreens.now plan)) }
    ensures plan { IfOk result (λ t. t.plan ≡ plan) }
    ensures times { IfOk result (λ t. length t.times ≡ groups_in plan) }
    ensures intergreens { IfOk result (λ t. t.intergreens.count ≡ groups_in plan) }
    ensures contents_stay { F.told files.new ≡ F.told files.old }
    ensures later { F.faults files.old ≤ F.faults files.new }
    ensures cause { IsReadFault result → Rose (F.faults files.old) (F.faults files.new) }
{
    let (plan, times) = match take_times(alloc, times, files, plan) {
        Ok(taken) => taken,
        Err(stop) => return Err(stop),
    };
    match take_intergreens(alloc, intergreens, files, plan) {
        Ok((plan, intergreens)) => Ok(RecordTables {
            plan,
            times,
            intergreens,
        }),
        Err(stop) => Err(stop),
    }
}
