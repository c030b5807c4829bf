// The first refusal of a program, or all of its names.
ghost use Rattle.std.specs.Prelude.{◌≡◌, [], None, IfOk, length, nat_lt};
ghost use Rattle.sig_types.specs.Limits.{most_variables, most_timers};
ghost use Rattle.vap_ast.specs.Tree.{program_of};
ghost use Rattle.vap_check.specs.Findings.{findings};
ghost use Rattle.vap_check.specs.Names as names_of;
ghost use Rattle.vap_check.specs.KeptNames.{Knows};
ghost use Rattle.vap_check.specs.Judgement.{IsJudged, LimitIs};

use crate::declarations::judge_program;
use crate::finding::Finding;
use crate::gather::{array_names, declared_names, sub_names, used_names};
use crate::kinds::{Kind, Names};
use crate::known::Known;
use crate::limits::{first_passed_limit, program_size};
use crate::refusal::CheckWhy;
use sig_types::Memory;
use sig_types::limits::{MOST_INSTRS, MOST_TIMERS, MOST_VARIABLES};
use std::alloc::Global;
use vap_ast::Program;

/// What a program is refused for, or all of its names where it is accepted.
#[derive(Drop)]
pub enum Judged {
    Refused(Finding),
    Named(Names),
}

// What a program in which nothing is wrong is refused for, where it is known whether it has too many variables and too many
// timers.
fn refusal_of(program: &Program, many_variables: bool, many_timers: bool) -> Option<Finding>
    requires variables { many_variables ≡ nat_lt most_variables (length (names_of.variables (program_of program.now))) }
    requires timers { many_timers ≡ nat_lt most_timers (length (names_of.timers (program_of program.now))) }
    ensures { LimitIs (program_of program.now) result }
{
    if let Some(which) = first_passed_limit(program, many_variables, many_timers) {
        return Some(Finding {
            line: 0,
            why: CheckWhy::Limit(which),
        });
    }
    if program_size(program) > usize::from(MOST_INSTRS) {
        return Some(Finding {
            line: 0,
            why: CheckWhy::ProgramTooLong,
        });
    }
    None
}

// Numbers the names of a program in which nothing is wrong, unless it passes a limit. Arrays and subroutines are numbered
// where no limit is passed.
fn judge_limits(alloc: Global, known: Known, program: &Program) -> Result<Judged, Memory>
    requires knows { Knows known (program_of program.now) }
    requires clean { findings (program_of program.now) ≡ [] }
    ensures { IfOk result (λ j. IsJudged (program_of program.now) j) }
{
    let timers = used_names(alloc, &known, Kind::Timer, program, MOST_TIMERS)?;
    let variables = used_names(alloc, &known, Kind::Variable, program, MOST_VARIABLES)?;
    if let Some(finding) = refusal_of(program, variables.is_over, timers.is_over) {
        return Ok(Judged::Refused(finding));
    }
    let arrays = array_names(alloc, &program.arrays)?;
    let subs = sub_names(alloc, &program.subs)?;
    Ok(Judged::Named(Names {
        known,
        arrays,
        subs,
        timers: timers.names,
        variables: variables.names,
    }))
}

/// What a program is refused for, or all of its names where it is accepted.
pub fn judge(alloc: Global, program: &Program) -> Result<Judged, Memory>
    ensures { IfOk result (λ j. IsJudged (program_of program.now) j) }
{
    let mut first = None;
    let known = declared_names(alloc, program, &mut first)?;
    judge_program(alloc, &known, program, &mut first)?;
    match first {
        Some(finding) => Ok(Judged::Refused(finding)),
        None => judge_limits(alloc, known, program),
    }
}
