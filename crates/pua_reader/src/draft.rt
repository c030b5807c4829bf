// A plan that is being read.
ghost use Rattle.std.specs.Prelude.{◌-◌, ◌≡◌, ◌≤◌, ◌<◌, ◌+◌, ◌^◌, MatchResult, None, Some, Option, is_some, true};
ghost use Rattle.pua_model.specs.Plan.{IsPlan};
ghost use Rattle.pua_reader.specs.Rules.{RowStopIs};
ghost use Rattle.pua_reader.specs.Accepted.{RefusedAs, plan_in};
ghost use Rattle.pua_reader.specs.PlanDraft.{empty_draft, row_why, after_row, row_why_in, after_row_in, interstage_end_why, after_section_end, section_why, after_section_line, line_why, after_line, end_why, missing_part, kind_why, after_kind};

use crate::groups::read_group;
use crate::interstages::{OpenInterstage, interstage_of, interstage_why};
use crate::refusal::{PuaRefusal, PuaWhy, RowStop};
use crate::section::{Kind, Section, kind_of, may_follow};
use crate::stages::{read_stage, read_start};
use crate::words::{is_text, words};
use pua_model::{Group, Interstage, Plan, Stage};
use sig_types::StageNo;
use std::alloc::Global;
use std::mem;

/// What the lines of a file have told so far: the section in which they have arrived, their number, what the rows have
/// given, whether the last row was a stage's, and the interstage whose section has not ended.
#[derive(Drop)]
pub(crate) struct PlanDraft {
    section: Section,
    lines: u32,
    groups: Vec<Group>,
    stages: Vec<Stage>,
    after_stage: bool,
    start: Option<StageNo>,
    interstages: Vec<Interstage>,
    current: OpenInterstage,
}

impl PlanDraft {
    ghost use Rattle.pua_reader.specs.Views.{draft_value};
    ghost use Rattle.pua_reader.specs.Legal.{Legal};

    /// Before the first line.
    pub(crate) fn empty(alloc: Global) -> PlanDraft
        ensures { draft_value result ≡ empty_draft }
    {
        PlanDraft {
            section: Section::Before,
            lines: 0,
            groups: Vec::new(alloc),
            stages: Vec::new(alloc),
            after_stage: false,
            start: None,
            interstages: Vec::new(alloc),
            current: OpenInterstage::none(alloc),
        }
    }

    // Takes a row by the section in which it stands.
    fn take_words(&mut self, alloc: Global, line: &[u8]) -> Result<(), RowStop>
        requires { Legal (draft_value self.old) }
        ensures { MatchResult result
            (λ _. (row_why_in self.old.section (draft_value self.old) line.now ≡ None)
            × (draft_value self.new ≡ after_row_in self.old.section (draft_value self.old) line.now))
            (λ stop. RowStopIs stop (row_why_in self.old.section (draft_value self.old) line.now)) }
    {
        let Ok(words) = words(alloc, self.section == Section::Interstage, line) else {
            return Err(RowStop::Memory);
        };
        match self.section {
            Section::Before => Err(RowStop::Why(PuaWhy::Section)),
            Section::Groups => read_group(&mut self.groups, &words),
            Section::Stages => read_stage(
                alloc,
                &self.groups,
                &mut self.stages,
                &mut self.after_stage,
                &words,
            ),
            Section::Start => match read_start(&self.stages, self.start, &words) {
                Ok(stage) => {
                    self.start = Some(stage);
                    Ok(())
                }
                Err(why) => Err(RowStop::Why(why)),
            },
            Section::Interstage => match self.current.read(&self.groups, &self.stages, &words) {
                Ok(()) => Ok(()),
                Err(why) => Err(RowStop::Why(why)),
            },
            Section::End => Ok(()),
        }
    }

    // Takes a row.
    #[tactic(auto, unfolding(crate::specs::PlanDraft::row_why, crate::specs::PlanDraft::after_row))]
    fn take_row(&mut self, alloc: Global, line: &[u8]) -> Result<(), RowStop>
        requires { Legal (draft_value self.old) }
        ensures { MatchResult result
            (λ _. (row_why (draft_value self.old) line.now ≡ None)
            × (draft_value self.new ≡ after_row (draft_value self.old) line.now))
            (λ stop. RowStopIs stop (row_why (draft_value self.old) line.now)) }
    {
        if !is_text(line) {
            return Err(RowStop::Why(PuaWhy::NotText));
        }
        self.take_words(alloc, line)
    }

    // Ends the section of an interstage, where one is read.
    #[tactic(auto, unfolding(crate::specs::PlanDraft::interstage_end_why, crate::specs::PlanDraft::after_section_end, crate::specs::Interstages::interstage_reasons))]
    fn end_interstage(&mut self, alloc: Global) -> Result<(), PuaRefusal>
        requires { Legal (draft_value self.old) }
        ensures { MatchResult result
            (λ _. (interstage_end_why (draft_value self.old) ≡ None)
            × (draft_value self.new ≡ after_section_end (draft_value self.old)))
            (λ refusal. RefusedAs refusal (interstage_end_why (draft_value self.old))) }
    {
        if self.section != Section::Interstage {
            return Ok(());
        }
        let ended = mem::replace(&mut self.current, OpenInterstage::none(alloc));
        let line = ended.line;
        let Some(interstage) = interstage_of(ended) else {
            return Err(PuaRefusal::At {
                line,
                why: PuaWhy::Row,
            });
        };
        if let Some(why) = interstage_why(
            &self.groups,
            &self.stages,
            &self.interstages,
            &interstage,
        ) {
            return Err(PuaRefusal::At { line, why });
        }
        match self.interstages.push(interstage) {
            Ok(()) => Ok(()),
            Err(_) => Err(PuaRefusal::Memory),
        }
    }

    // Why a section line is refused.
    #[tactic(auto, unfolding(crate::specs::PlanDraft::section_why))]
    fn section_why(&self, section: Section, line: &[u8]) -> Option<PuaWhy>
        ensures { result ≡ section_why (draft_value self.now) section line.now }
    {
        if !is_text(line) {
            Some(PuaWhy::NotText)
        } else if !may_follow(self.section, section) {
            Some(PuaWhy::Section)
        } else if section == Section::Interstage && self.interstages.len() >= 256 {
            Some(PuaWhy::Limit)
        } else {
            None
        }
    }

    // Begins a section.
    #[tactic(auto, unfolding(crate::specs::PlanDraft::after_section_line))]
    fn begin_section(&mut self, alloc: Global, section: Section) -> Result<(), PuaRefusal>
        ensures { MatchResult result (λ _. draft_value self.new ≡ after_section_line (draft_value self.old) section)
            (λ refusal. refusal ≡ PuaRefusal.Memory) }
    {
        self.section = section;
        if section == Section::Interstage {
            match OpenInterstage::begins(alloc, self.lines, self.groups.len()) {
                Ok(current) => self.current = current,
                Err(_) => return Err(PuaRefusal::Memory),
            }
        }
        Ok(())
    }

    // Takes a section line.
    fn take_section(
        &mut self,
        alloc: Global,
        section: Section,
        line: &[u8],
    ) -> Result<(), PuaRefusal>
        requires { Legal (draft_value self.old) }
        ensures { MatchResult result
            (λ _. (kind_why (Kind.Begins section) (draft_value self.old) line.now ≡ None)
            × (draft_value self.new ≡ after_kind (Kind.Begins section) (draft_value self.old) line.now))
            (λ refusal. RefusedAs refusal (kind_why (Kind.Begins section) (draft_value self.old) line.now)) }
    {
        self.end_interstage(alloc)?;
        if let Some(why) = self.section_why(section, line) {
            return Err(PuaRefusal::At {
                line: self.lines,
                why,
            });
        }
        self.begin_section(alloc, section)
    }

    /// Takes the next line, where it is not refused.
    #[tactic(auto, unfolding(crate::specs::PlanDraft::line_why, crate::specs::PlanDraft::after_line))]
    pub(crate) fn take_line(&mut self, alloc: Global, line: &[u8]) -> Result<(), PuaRefusal>
        requires legal { Legal (draft_value self.old) }
        requires lines { self.old.lines < 2 ^ 32 - 1 }
        ensures { MatchResult result
            (λ _. (line_why (draft_value self.old) line.now ≡ None)
            × (draft_value self.new ≡ after_line (draft_value self.old) line.now))
            (λ refusal. RefusedAs refusal (line_why (draft_value self.old) line.now)) }
    {
        let number = self.lines + 1;
        self.lines = number;
        if self.section == Section::End {
            return Ok(());
        }
        let Ok(words) = words(alloc, false, line) else {
            return Err(PuaRefusal::Memory);
        };
        match kind_of(&words) {
            Kind::Passed => Ok(()),
            Kind::Begins(section) => self.take_section(alloc, section, line),
            Kind::Row => match self.take_row(alloc, line) {
                Ok(()) => Ok(()),
                Err(RowStop::Memory) => Err(PuaRefusal::Memory),
                Err(RowStop::Why(why)) => Err(PuaRefusal::At { line: number, why }),
            },
        }
    }

    // What the file lacks.
    #[tactic(auto, unfolding(crate::specs::PlanDraft::missing_part))]
    fn missing_part(&self) -> Option<PuaWhy>
        ensures { result ≡ missing_part (draft_value self.now) }
    {
        if self.groups.is_empty() || self.stages.is_empty() {
            Some(PuaWhy::Section)
        } else if self.start.is_none() {
            Some(PuaWhy::NoStart)
        } else {
            None
        }
    }

    // The plan of the draft.
    fn into_plan(self) -> Plan
        requires start { is_some self.start ≡ true }
        requires plan { IsPlan (plan_in (draft_value self)) }
        ensures { result ≡ plan_in (draft_value self) }
    {
        let PlanDraft {
            section: _,
            lines: _,
            groups,
            stages,
            after_stage: _,
            start,
            interstages,
            current: _,
        } = self;
        match start {
            Some(start) => Plan::of(groups, stages, start, interstages),
            None => unreachable!(),
        }
    }

    /// The plan of a file that ends here.
    #[tactic(auto, unfolding(crate::specs::PlanDraft::end_why))]
    pub(crate) fn finish(mut self, alloc: Global) -> Result<Plan, PuaRefusal>
        requires { Legal (draft_value self) }
        ensures { MatchResult result
            (λ plan. (end_why (draft_value self) ≡ None) × (plan ≡ plan_in (after_section_end (draft_value self))))
            (λ refusal. RefusedAs refusal (end_why (draft_value self))) }
    {
        self.end_interstage(alloc)?;
        if let Some(why) = self.missing_part() {
            return Err(PuaRefusal::At { line: 0, why });
        }
        Ok(self.into_plan())
    }
}
