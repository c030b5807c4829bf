// Where the parts of a plan stand in its PUA file.
ghost use Rattle.std.specs.Prelude.{◌≡◌, ◌<◌, ◌-◌, ◌^◌, ◌++◌, length, find, IfOk, OnOk};
ghost use Rattle.std.specs.Option.{option_to_list};
ghost use Rattle.pua_model.specs.Plan.{PlanOf};
ghost use Rattle.pua_reader.specs.Words.{Text};
ghost use Rattle.pua_lines.specs.Kinds.{place_value};
ghost use Rattle.pua_lines.specs.Parts.{same_part, group_part, ends_part, row_part, line_part, placed_part, found_spot};
ghost use Rattle.pua_lines.specs.Parts.{part_spot, stage_spot, group_spot, interstage_spot, group_spot_in, ArePlacesIn};

use crate::ends::ends_name;
use crate::lines::{first_line, without_mark};
use crate::part::{Part, PlacedPart, same_part};
use crate::place::{LineKind, Place, is_stage_row, kind_of};
use crate::section::SectionWord;
use crate::spot::Spot;
use crate::words::{first_spot, first_word};
use pua_model::Plan;
use sig_types::{GroupNo, InterNo, StageNo};
use std::alloc::{AllocError, Global};

/// The places of a plan's groups, stages and interstages, and of the rows of its interstages.
#[derive(Drop)]
pub struct PlanLines {
    parts: Vec<PlacedPart>,
}

// The group of this name.
fn group_part(plan: &Plan, name: &[u8]) -> Option<Part>
    ensures { result ≡ group_part plan.now name.now }
{
    match plan.find_name(name) {
        Some(group) => Some(Part::Group(group)),
        None => None,
    }
}

// The ends of the group of this name in an interstage.
fn ends_part(plan: &Plan, inter: u32, name: &[u8]) -> Option<Part>
    ensures { result ≡ ends_part plan.now inter name.now }
{
    match plan.find_name(name) {
        Some(group) => Some(Part::Ends(inter, group)),
        None => None,
    }
}

// The part of a plan that a row gives which stands there.
fn row_part(plan: &Plan, place: Place, line: &[u8]) -> Option<Part>
    ensures { let at = place_value place in result ≡ row_part at.section plan.now at line.now }
{
    match place.section {
        Some(SectionWord::SignalGroups) => group_part(plan, first_word(false, line)),
        Some(SectionWord::Stages) => {
            if is_stage_row(line) {
                Some(Part::Stage(place.stages))
            } else {
                None
            }
        }
        Some(SectionWord::Interstage) => {
            let name = ends_name(line)?;
            ends_part(plan, place.interstages, name)
        }
        Some(SectionWord::StartingStage) | Some(SectionWord::End) | None => None,
    }
}

// The part of a plan that a line gives which stands there.
#[tactic(auto, unfolding(crate::specs::Parts::line_part))]
fn line_part(plan: &Plan, place: Place, line: &[u8]) -> Option<Part>
    ensures { result ≡ line_part plan.now (place_value place, line.now) }
{
    match kind_of(line) {
        LineKind::Passed => None,
        LineKind::Begins(_) => {
            if place.section == Some(SectionWord::Interstage) {
                Some(Part::Interstage(place.interstages))
            } else {
                None
            }
        }
        LineKind::Row => row_part(plan, place, line),
    }
}

// The place of a part among these.
fn spot_among(parts: &[PlacedPart], wanted: Part) -> Spot
    ensures { result ≡ found_spot (find (λ p. same_part p.part wanted) parts.now) }
{
    for i in 0..parts.len() {
        if same_part(parts[i].part, wanted) {
            return parts[i].spot;
        }
    }
    Spot::line(0)
}

impl PlanLines {
    // Notes the part that a line gives.
    fn note(&mut self, plan: &Plan, place: Place, line: &[u8]) -> Result<(), AllocError>
        ensures { OnOk result (self.new.parts.items ≡
            self.old.parts.items ++ option_to_list (placed_part plan.now (place_value place, line.now))) }
    {
        if let Some(part) = line_part(plan, place, line) {
            self.parts.push(PlacedPart {
                part,
                spot: first_spot(place.number, line),
            })?;
        }
        Ok(())
    }

    /// The places of this plan's parts in a text. Lines are counted from 1, a byte order mark at the beginning is passed over.
    pub fn of(alloc: Global, text: &[u8], plan: &Plan) -> Result<PlanLines, AllocError>
        requires { length text.now < 2 ^ 32 - 1 }
        ensures { IfOk result (λ lines. ArePlacesIn lines plan.now text.now) }
    {
        let mut lines = PlanLines {
            parts: Vec::new(alloc),
        };
        let mut rest = without_mark(text);
        let mut place = Place::start();
        while !rest.is_empty() {
            let (line, more) = first_line(rest);
            place = place.next(line);
            lines.note(plan, place, line)?;
            rest = more;
        }
        Ok(lines)
    }

    // The place of a part.
    fn part(&self, wanted: Part) -> Spot
        ensures { (plan : PlanOf) (text : Text) → ArePlacesIn self.now plan text → result ≡ part_spot plan text wanted }
    {
        let parts = self.parts.as_slice();
        spot_among(parts, wanted)
    }

    /// The first word of the first row of the section of groups that names this group; line 0 where none does.
    pub fn group(&self, group: GroupNo) -> Spot
        ensures { (plan : PlanOf) (text : Text) → ArePlacesIn self.now plan text → result ≡ group_spot plan text group.0 }
    {
        self.part(Part::Group(group))
    }

    /// The first word of the first row of this interstage that gives the ends of this group; line 0 where none does.
    pub fn group_in(&self, inter: InterNo, group: GroupNo) -> Spot
        ensures { (plan : PlanOf) (text : Text) → ArePlacesIn self.now plan text →
            result ≡ group_spot_in plan text inter.0 group.0 }
    {
        self.part(Part::Ends(u32::from(inter.0) + 1, group))
    }

    /// The first word of the row that gives this stage; line 0 where none does.
    pub fn stage(&self, stage: StageNo) -> Spot
        ensures { (plan : PlanOf) (text : Text) → ArePlacesIn self.now plan text → result ≡ stage_spot plan text stage.0 }
    {
        self.part(Part::Stage(u32::from(stage.0)))
    }

    /// The first word of the line that begins this interstage; line 0 where none does.
    pub fn inter(&self, inter: InterNo) -> Spot
        ensures { (plan : PlanOf) (text : Text) → ArePlacesIn self.now plan text → result ≡ interstage_spot plan text inter.0 }
    {
        self.part(Part::Interstage(u32::from(inter.0) + 1))
    }
}
