// The records of a table that are refused beside the first one.
ghost use Rattle.std.specs.Prelude.{◌≡◌, ◌++◌, IfOk, OnOk, filter, map, nat_lt};
ghost use Rattle.table_check.specs.Refused.{refused_records};
ghost use Rattle.site_check.specs.Further.{behind_of, file_of, further_part, of_record, table_part};
ghost use Rattle.site_check.specs.Judged.{taken_in, text_in};

use crate::reading::Reading;
use crate::untaken::{Untaken, taken, tell};
use pua_lines::Spot;
use pua_model::Plan;
use sig_tables::{Intergreens, TableWhy, Times};
use site_findings::{FileKind, Finding, Refusal, Told};
use std::alloc::{AllocError, Global};
use table_check::{Table, refused_records};

// The record behind which others are told: the one that is refused, and none where the table was not judged for want of a plan.
fn behind_of<T>(judged: &Result<T, Untaken>) -> Option<u32>
    ensures { result ≡ behind_of judged.now }
{
    match judged {
        Err(Untaken::Refused(spot, _)) => Some(spot.line),
        Err(Untaken::NotJudged) => Some(0),
        Err(Untaken::Unread) | Ok(_) => None,
    }
}

// The file that a table is.
fn file_of(table: Table) -> FileKind
    ensures { result ≡ file_of table }
{
    match table {
        Table::Times => FileKind::Times,
        Table::Intergreens => FileKind::Intergreens,
    }
}

// Tells the refused records behind this one.
#[tactic(auto, using(crate::proofs::Behind::told_more, crate::proofs::Behind::told_same))]
fn tell_records(
    file: FileKind,
    behind: u32,
    records: Vec<(u32, TableWhy)>,
    findings: &mut Vec<Finding>,
) -> Result<(), AllocError>
    ensures { OnOk result (findings.new.items ≡ findings.old.items
        ++ map (of_record file) (filter (λ r. nat_lt behind r.0) records.items)) }
{
    for record in records {
        if behind < record.0 {
            let told = Told::Refused(Refusal::Table(record.1));
            tell(findings, file, Spot::line(record.0), told)?;
        }
    }
    Ok(())
}

// Tells the refused records of a text behind this one, where there are others to tell.
#[tactic(auto, unfolding(crate::specs::Further::further_part))]
fn tell_further(
    alloc: Global,
    reading: &Reading,
    plan: &Option<Plan>,
    table: Table,
    behind: Option<u32>,
    findings: &mut Vec<Finding>,
) -> Result<(), AllocError>
    ensures { OnOk result (findings.new.items ≡ findings.old.items
        ++ further_part table plan.now (text_in reading.now) behind) }
{
    match (reading, behind) {
        (Reading::Whole(text), Some(behind)) => {
            let records = refused_records(alloc, table, text, plan)?;
            tell_records(file_of(table), behind, records, findings)
        }
        (Reading::Whole(_), None) | (Reading::Unread | Reading::TooLong, _) => Ok(()),
    }
}

/// What was taken of the times. Where they were not taken, tells why, and then of all other records that are refused.
#[tactic(auto, using(crate::proofs::Told::two), unfolding(crate::specs::Further::table_part))]
pub(crate) fn taken_times(
    alloc: Global,
    reading: &Reading,
    plan: &Option<Plan>,
    judged: Result<Times, Untaken>,
    findings: &mut Vec<Finding>,
) -> Result<Option<Times>, AllocError>
    ensures value { IfOk result (λ v. v ≡ taken_in judged) }
    ensures told { OnOk result (findings.new.items ≡ findings.old.items
        ++ table_part Table.Times plan.now (text_in reading.now) judged) }
{
    let behind = behind_of(&judged);
    let times = taken(judged, FileKind::Times, findings)?;
    tell_further(alloc, reading, plan, Table::Times, behind, findings)?;
    Ok(times)
}

/// The same of the intergreens.
#[tactic(auto, using(crate::proofs::Told::two), unfolding(crate::specs::Further::table_part))]
pub(crate) fn taken_intergreens(
    alloc: Global,
    reading: &Reading,
    plan: &Option<Plan>,
    judged: Result<Intergreens, Untaken>,
    findings: &mut Vec<Finding>,
) -> Result<Option<Intergreens>, AllocError>
    ensures value { IfOk result (λ v. v ≡ taken_in judged) }
    ensures told { OnOk result (findings.new.items ≡ findings.old.items
        ++ table_part Table.Intergreens plan.now (text_in reading.now) judged) }
{
    let behind = behind_of(&judged);
    let intergreens = taken(judged, FileKind::Intergreens, findings)?;
    tell_further(alloc, reading, plan, Table::Intergreens, behind, findings)?;
    Ok(intergreens)
}
