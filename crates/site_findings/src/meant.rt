// What is meant of the line of a finding: of a record of a table the fields that it is about.
ghost use Rattle.std.specs.Prelude.{◌≡◌};
ghost use Rattle.site_findings.specs.Meant.{advised_spot, fault_in, in_record, meant_in_table, meant_spot, told_place, told_spot, warned_span};

use crate::finding::{Examined, FileKind, Finding, Refusal, Told};
use program_advice::Advice;
use pua_lines::Spot;
use pua_model::Plan;
use table_check::{Begin, Table, fault_span, fields_span, names_span};

// These bytes of a record.
fn in_record(spot: Spot, span: (usize, usize)) -> Spot
    ensures { result ≡ in_record spot span }
{
    Spot {
        line: spot.line,
        from: span.0,
        to: span.1,
    }
}

// What a reason to refuse a record is about.
fn fault_in(table: Table, plan: &Option<Plan>, refusal: &Refusal, spot: Spot, row: &[u8]) -> Spot
    ensures { result ≡ fault_in table plan.now refusal.now spot row.now }
{
    match refusal {
        Refusal::Table(why) => in_record(spot, fault_span(table, plan, *why, row)),
        Refusal::Pua(_)
        | Refusal::Lex(_)
        | Refusal::Parse(_)
        | Refusal::Check(_)
        | Refusal::Stream(_)
        | Refusal::Mark
        | Refusal::TooLong => spot,
    }
}

// What a warning of a table is about.
fn warned_span(table: Table, row: &[u8]) -> (usize, usize)
    ensures { result ≡ warned_span table row.now }
{
    match table {
        Table::Times => fields_span(row, 2, 3),
        Table::Intergreens => names_span(table, row),
    }
}

// What is meant of a record of a table.
fn meant_in_table(table: Table, plan: &Option<Plan>, told: &Told, spot: Spot, row: &[u8]) -> Spot
    ensures { result ≡ meant_in_table table plan.now told.now spot row.now }
{
    match told {
        Told::Refused(refusal) => fault_in(table, plan, refusal, spot, row),
        Told::Warned(_) => in_record(spot, warned_span(table, row)),
        Told::Unread | Told::NotJudged => spot,
    }
}

// Where what is told of a refused program stands, where it is known; else this place.
fn advised_spot(advice: &Option<Advice>, spot: Spot) -> Spot
    ensures { result ≡ advised_spot advice.now spot }
{
    match advice {
        Some(advice) => {
            if advice.line == 0 {
                return spot;
            }
            Spot {
                line: advice.line,
                from: advice.from,
                to: advice.to,
            }
        }
        None => spot,
    }
}

// Where what is told of a program stands that was found at this place.
fn told_spot(advice: &Option<Advice>, told: &Told, spot: Spot) -> Spot
    ensures { result ≡ told_spot advice.now told.now spot }
{
    match told {
        Told::Refused(_) => advised_spot(advice, spot),
        Told::Unread | Told::NotJudged | Told::Warned(_) => spot,
    }
}

/// The line, or of a table the record, that a finding is told of.
pub(crate) fn told_place(examined: &Examined, finding: &Finding) -> u32
    ensures { result ≡ told_place examined.now finding.now }
{
    match finding.file {
        FileKind::Program => told_spot(&examined.advice, &finding.told, finding.spot).line,
        FileKind::Pua | FileKind::Times | FileKind::Intergreens | FileKind::Detectors => {
            finding.spot.line
        }
    }
}

/// What is meant of the line of a finding, or of the record that begins there.
pub(crate) fn meant_spot(examined: &Examined, finding: &Finding, begin: Begin, line: &[u8]) -> Spot
    ensures { result ≡ meant_spot examined.now finding.now begin line.now }
{
    let Finding { file, spot, told } = finding;
    if begin.before != 0 {
        return *spot;
    }
    match file {
        FileKind::Times => meant_in_table(Table::Times, &examined.plan, told, *spot, line),
        FileKind::Intergreens => {
            meant_in_table(Table::Intergreens, &examined.plan, told, *spot, line)
        }
        FileKind::Program => told_spot(&examined.advice, told, *spot),
        FileKind::Pua | FileKind::Detectors => *spot,
    }
}
