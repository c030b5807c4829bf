// The cures of warnings: what to do about each.
ghost use Rattle.std.specs.Prelude.{◌≡◌};
ghost use Rattle.site_findings.specs.Cures.{lack_cure, plan_cure, program_cure, warning_cure};

use crate::finding::Warning;
use plan_check::PlanWarning;
use program_check::{Lack, ProgramWarning};

fn plan_cure(warning: &PlanWarning) -> &'static [u8]
    ensures { result.now ≡ plan_cure warning.now }
{
    match warning {
        PlanWarning::StageWithoutWay(_, _) => b"add an interstage, or take the stage out",
        PlanWarning::GroupNeverGreen(_) => {
            b"put it into a stage; nothing, if `Sg_green` alone makes it green"
        }
        PlanWarning::SameGreens(_, _) => {
            b"the groups of one of the two; or take it out, and see that the stages behind it move up by one place"
        }
        PlanWarning::StageNeverLeft(_) | PlanWarning::StageNeverReached(_) => {
            b"the command that is missing, or the stage in it and in its condition; or take the stage out"
        }
        PlanWarning::RedAmberAboveAmber => b"exchange the two columns",
        PlanWarning::StageInConflict(_, _, _) => {
            b"take one of them out of the stage; or take the pair out of the table, if the two are in no conflict"
        }
        PlanWarning::NoIntergreen(_, _) => {
            b"both ways into the table, with the seconds of the clearance; nothing, if the two may be green at once"
        }
        PlanWarning::ShortIntergreen { .. } => {
            b"the seconds of the clearance, the amber among them"
        }
        PlanWarning::InterstageNotClean(_, _) => {
            b"a later R in the row of the group that is named first, and a longer interstage"
        }
        PlanWarning::LateRedEnd { .. } => {
            b"an earlier R in its row; nothing, if the delay is wanted"
        }
    }
}

fn lack_cure(lack: Lack) -> &'static [u8]
    ensures { result.now ≡ lack_cure lack }
{
    match lack {
        Lack::Unassigned => {
            b"a misspelt name: mend it; a group or a stage by its name: write its number; a fixed value: declare it as `CONST`"
        }
        Lack::Unread | Lack::UnreadTimer => b"a misspelt name: mend it; else take it out",
        Lack::Unstarted => b"`Start(timer)` where the time begins",
        Lack::UnusedLabel | Lack::UnusedConstant | Lack::UnreadArray | Lack::UncalledSub => {
            b"use it where it is meant, or take it out"
        }
    }
}

fn program_cure(warning: &ProgramWarning) -> &'static [u8]
    ensures { result.now ≡ program_cure warning.now }
{
    match warning {
        ProgramWarning::Lacking(lack, _) => lack_cure(*lack),
        ProgramWarning::UnknownGroup(_) => b"groups go by their numbers in `$SIGNAL_GROUPS`",
        ProgramWarning::UnknownStage(_) => b"stages go by their places in `$STAGES`, from 1",
        ProgramWarning::UnknownDetector(_) => b"detectors are numbered 1 to 64",
        ProgramWarning::MissingInterstage(_, _) => {
            b"add the interstage to the plan, or mend the command"
        }
        ProgramWarning::SilentDetector(_) => {
            b"the numbers of the detectors; nothing, if this recording has no vehicle there"
        }
        ProgramWarning::NeverCleared(_, _) => {
            b"`Clear_front_ends(d)` or `Clear_rear_ends(d)` where the request is served; nothing, if vehicles are counted from the beginning on"
        }
        ProgramWarning::NoSetCycle(_) => b"`Set_cycle(n)` in the first second",
        ProgramWarning::UnreadDetector(_) => {
            b"the numbers of the detectors; nothing, if the program does without it"
        }
        ProgramWarning::WrongStage(_, _) => b"the stage in the condition or in the command",
        ProgramWarning::ConstantCondition => {
            b"a variable in the place of the one, or take the comparison out"
        }
        ProgramWarning::NeverTrue => b"exchange the two bounds, or `OR`",
        ProgramWarning::NameAsNumber(_, _) => {
            b"write the number, or declare the name as `CONST`; nothing, if the variable holds the number"
        }
        ProgramWarning::ConstantArgument(_) => b"0 to 9999 seconds",
        ProgramWarning::ConstantIndex(_, _) => b"1 to the size of the array",
        ProgramWarning::DivisionByZero => b"another divisor",
        ProgramWarning::CycleNameAssigned(_) => {
            b"another name for the variable; `Set_cycle(n)` to set the cycle"
        }
        ProgramWarning::EndlessLoop(_) => {
            b"a jump out of the loop within an `IF`; or take the jump out, since the program runs anew in each second"
        }
    }
}

/// What to do about a warning.
pub(crate) fn warning_cure(warning: &Warning) -> &'static [u8]
    ensures { result.now ≡ warning_cure warning.now }
{
    match warning {
        Warning::Plan(warning) => plan_cure(warning),
        Warning::Program(warning) => program_cure(warning),
        Warning::MisspeltSection(_) => b"the word as in formats.md; another word in a real comment",
        Warning::BehindEnd => b"take the `$END` above out, or the section",
    }
}
