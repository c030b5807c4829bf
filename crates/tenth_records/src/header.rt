// The header of a record.
ghost use Rattle.std.specs.Prelude.{◌≡◌, ◌≤◌, ℕ, List, Ok, Err, IfOk, IfErr};
ghost use Rattle.std.specs.Option.{ForSome};
ghost use Rattle.sig_io.specs.Outside.{Rose};
ghost use Rattle.tenth_records.specs.Header.{IsFirst, IsNoHeader, named};
ghost use Rattle.tenth_records.specs.Names.{plan_of_names};
ghost use Rattle.tenth_records.specs.Record.{names_in};
ghost use Rattle.tenth_records.specs.Unread.{bytes_given, name_in, unread_bytes};

use crate::entry::{TenthStop, TenthWhy};
use crate::lines::RecordLines;
use crate::names::{names_in, plan_of_names};
use line_reader::LineRefusal;
use pua_model::Plan;
use sig_io::Files;
use sig_types::Memory;
use std::alloc::Global;

// The refusal of line 1.
fn refused(why: TenthWhy) -> TenthStop
    ensures { result ≡ TenthStop.At 1 why }
{
    TenthStop::At { line: 1, why }
}

/// The plan of the groups that the header names.
pub(crate) fn plan_in(alloc: Global, line: &[u8]) -> Result<Plan, TenthStop>
    ensures plan { IfOk result (λ p. named (names_in line.now) ≡ Ok p.names) }
    ensures of_names { IfOk result (λ p. p ≡ plan_of_names p.names) }
    ensures refused { IfErr result (λ e. IsNoHeader line.now e) }
{
    match names_in(alloc, line) {
        Ok(Some(names)) => match plan_of_names(alloc, &names) {
            Ok(plan) => Ok(plan),
            Err(Memory) => Err(TenthStop::Memory),
        },
        Ok(None) => Err(refused(TenthWhy::Header)),
        Err(Memory) => Err(TenthStop::Memory),
    }
}

/// Takes the first line.
pub(crate) fn take_header<F: Files>(lines: &mut RecordLines, files: &mut F) -> Result<(), TenthStop>
    requires begins { (bytes : List ℕ) → unread_bytes lines.old bytes ≡ bytes }
    requires given { bytes_given lines.old ≡ 0 }
    ensures first { ForSome (F.told files.old) (λ file. IsFirst (file (name_in lines.old)) lines.new result) }
    ensures given { IfOk result (λ _. bytes_given lines.new ≤ 262146) }
    ensures name { name_in lines.new ≡ name_in lines.old }
    ensures contents_stay { F.told files.new ≡ F.told files.old }
    ensures later { F.faults files.old ≤ F.faults files.new }
    ensures cause { result ≡ Err TenthStop.Fault → Rose (F.faults files.old) (F.faults files.new) }
{
    match lines.next_line(files) {
        Ok(true) => Ok(()),
        Ok(false) => Err(refused(TenthWhy::Header)),
        Err(LineRefusal::Fault) => Err(TenthStop::Fault),
        Err(LineRefusal::TooLong) => Err(refused(TenthWhy::LineTooLong)),
    }
}
