// A plan and what it answers.
ghost use Rattle.std.specs.Prelude.{◌≡◌, ◌≤◌, ◌<◌, length, Some, None, Option, IfSome, ℕ, slice_index_or, [], false};
ghost use Rattle.pua_model.specs.Plan.{PlanOf, IsPlan, HasStage, groups_in, in_stage, interstage_between, interstage_at, wish_in, group_of, group_named, stage_of, group_number, stage_number, inter_number};
ghost use Rattle.pua_model.specs.Parts.{plan_of, ArePlaces};

use crate::finds::{place_between, place_named, place_numbered};
use crate::parts::{Group, Interstage, Stage};
use sig_types::{GroupNo, InterNo, StageNo, Wishes};
use std::marker::Model;

/// A plan: 1 to 64 signal groups in rising order of their numbers, 1 to 32 stages, the stage in which a run starts, and at
/// most 256 interstages, no two of one pair of stages, each of which leads every group from its place in the one stage to
/// that in the other.
#[derive(Drop)]
pub struct Plan {
    groups: Vec<Group>,
    stages: Vec<Stage>,
    start: StageNo,
    interstages: Vec<Interstage>,
    places: [Option<GroupNo>; 256],
}

impl Model for Plan {
    ghost use Rattle.pua_model.specs.Plan.{PlanOf, IsPlan};
    ghost use Rattle.pua_model.specs.Parts.{plan_of, ArePlaces};

    ghost Value = { PlanOf };

    ghost view = { λ p. plan_of p.groups.items p.stages.items p.start.0 p.interstages.items };

    ghost invariant = { λ p.
        IsPlan (plan_of p.groups.items p.stages.items p.start.0 p.interstages.items) × ArePlaces p.places p.groups.items };
}

// For each number from 0 to 255 the group that has it.
fn places_of(groups: &[Group]) -> [Option<GroupNo>; 256]
    requires { length groups.now ≤ 64 }
    ensures { ArePlaces result groups.now }
{
    let mut places = [None; 256];
    for number in 0..256 {
        places[number] = match place_numbered(groups, number as u32) {
            Some(place) => Some(GroupNo(place as u8)),
            None => None,
        };
    }
    places
}

impl Plan {
    /// The plan of these parts: groups in rising order of their numbers, stages and interstages in the order of their file.
    pub fn of(
        groups: Vec<Group>,
        stages: Vec<Stage>,
        start: StageNo,
        interstages: Vec<Interstage>,
    ) -> Plan
        requires { IsPlan (plan_of groups.items stages.items start.0 interstages.items) }
        ensures plan { result ≡ plan_of groups.items stages.items start.0 interstages.items }
    {
        let places = places_of(&groups);
        Plan {
            groups,
            stages,
            start,
            interstages,
            places,
        }
    }

    /// The number of signal groups, 1 to 64.
    pub fn groups(&self) -> u8
        ensures count { result ≡ groups_in self.now }
        ensures at_least { 1 ≤ result }
        ensures at_most { result ≤ 64 }
        ensures plan { IsPlan self.now }
    {
        self.groups.len() as u8
    }

    /// The number of stages, 1 to 32. They are numbered from 1 in the order of the file.
    pub fn stages(&self) -> u8
        ensures count { result ≡ length self.now.stages }
        ensures at_least { 1 ≤ result }
        ensures at_most { result ≤ 32 }
    {
        self.stages.len() as u8
    }

    /// The stage in which a run starts.
    pub fn start(&self) -> StageNo
        ensures start { result.0 ≡ self.now.start }
        ensures stage { HasStage self.now result.0 }
    {
        self.start
    }

    /// The name of a group as the file first wrote it, 1 to 32 letters, digits and `_`.
    pub fn group_name(&self, g: GroupNo) -> &str
        requires { g.0 < groups_in self.now }
        ensures name { result.now ≡ slice_index_or self.now.names g.0 [] }
        ensures not_empty { 1 ≤ length result.now }
        ensures at_most { length result.now ≤ 32 }
    {
        let group = &self.groups[g.0 as usize];
        match str::from_utf8(group.name.bytes()) {
            Ok(name) => name,
            Err(_) => unreachable!(),
        }
    }

    /// The group with this number; None where the plan has none.
    pub fn find_group(&self, number: i32) -> Option<GroupNo>
        ensures found { group_number result ≡ group_of self.now number }
        ensures below { IfSome result (λ g. g.0 < groups_in self.now) }
    {
        let places = &self.places;
        if number < 0 || 255 < number {
            return None;
        }
        places[number.unsigned_abs() as usize]
    }

    /// The group with this name without regard to ASCII case; None where the plan has none.
    pub fn find_name(&self, name: &[u8]) -> Option<GroupNo>
        ensures found { group_number result ≡ group_named self.now name.now }
        ensures below { IfSome result (λ g. g.0 < groups_in self.now) }
    {
        match place_named(&self.groups, name) {
            Some(place) => Some(GroupNo(place as u8)),
            None => None,
        }
    }

    /// The stage with this number; None where the plan has none.
    pub fn find_stage(&self, number: i32) -> Option<StageNo>
        ensures found { stage_number result ≡ stage_of self.now number }
        ensures stage { IfSome result (λ s. HasStage self.now s.0) }
    {
        // Stages are numbered from 1. Less 1, the number 0 and negative numbers are past all stages, so one comparison is enough.
        let wanted = number.cast_unsigned();
        if wanted.wrapping_sub(1) < self.stages.len() as u32 {
            Some(StageNo(wanted as u8))
        } else {
            None
        }
    }

    /// Whether the group is green in the stage.
    pub fn in_stage(&self, s: StageNo, g: GroupNo) -> bool
        requires stage { HasStage self.now s.0 }
        requires group { g.0 < groups_in self.now }
        ensures { result ≡ in_stage self.now s.0 g.0 }
    {
        let stage = &self.stages[s.0 as usize - 1];
        stage.greens.get(g.0)
    }

    /// The interstage from stage `a` to stage `b`; None where the plan has none.
    pub fn interstage(&self, a: StageNo, b: StageNo) -> Option<InterNo>
        ensures found { inter_number result ≡ interstage_between self.now a.0 b.0 }
        ensures none { result ≡ None → interstage_between self.now a.0 b.0 ≡ None }
        ensures inside { IfSome result (λ i. (interstage_between self.now a.0 b.0 ≡ Some i.0) × (i.0 < length self.now.interstages)) }
    {
        match place_between(&self.interstages, a, b) {
            Some(place) => Some(InterNo(place as u16)),
            None => None,
        }
    }

    /// The number of interstages, at most 256. They are numbered from 0 in the order of the file.
    pub fn interstages(&self) -> u16
        ensures count { result ≡ length self.now.interstages }
        ensures at_most { result ≤ 256 }
    {
        self.interstages.len() as u16
    }

    /// The stage from which an interstage leads, and the stage to which it leads.
    pub fn ends(&self, i: InterNo) -> (StageNo, StageNo)
        requires { i.0 < length self.now.interstages }
        ensures from { result.0.0 ≡ (interstage_at self.now i.0).from }
        ensures to { result.1.0 ≡ (interstage_at self.now i.0).to }
        ensures from_stage { HasStage self.now result.0.0 }
        ensures to_stage { HasStage self.now result.1.0 }
    {
        let interstage = &self.interstages[i.0 as usize];
        (interstage.from_stage(), interstage.to_stage())
    }

    /// The length of an interstage in seconds, 1 to 126.
    pub fn length(&self, i: InterNo) -> u8
        requires { i.0 < length self.now.interstages }
        ensures length { result ≡ (interstage_at self.now i.0).length }
        ensures at_least { 1 ≤ result }
        ensures at_most { result ≤ 126 }
    {
        self.interstages[i.0 as usize].seconds()
    }

    /// Whether the group is wished green in second `t` of an interstage, its first being second 0.
    pub fn wish(&self, i: InterNo, t: u8, g: GroupNo) -> bool
        requires interstage { i.0 < length self.now.interstages }
        requires second { t < (interstage_at self.now i.0).length }
        requires group { g.0 < groups_in self.now }
        ensures { result ≡ wish_in self.now i.0 t g.0 }
    {
        let interstage = &self.interstages[i.0 as usize];
        let before = self.in_stage(interstage.from_stage(), g);
        interstage.wish(t, g, before)
    }

    /// Writes for each group whether it is green in the stage.
    pub fn stage_wishes(&self, s: StageNo, out: &mut Wishes)
        requires { HasStage self.now s.0 }
        ensures groups { length out.new ≡ groups_in self.now }
        ensures wishes { (g : ℕ) → g < groups_in self.now → slice_index_or out.new g false ≡ in_stage self.now s.0 g }
    {
        let stage = &self.stages[s.0 as usize - 1];
        *out = stage.greens.copy();
    }

    /// Writes whether each group is wished green in second `t` of an interstage, its first being second 0.
    pub fn interstage_wishes(&self, i: InterNo, t: u8, out: &mut Wishes)
        requires interstage { i.0 < length self.now.interstages }
        requires second { t < (interstage_at self.now i.0).length }
        ensures groups { length out.new ≡ groups_in self.now }
        ensures wishes { (g : ℕ) → g < groups_in self.now → slice_index_or out.new g false ≡ wish_in self.now i.0 t g }
    {
        let interstage = &self.interstages[i.0 as usize];
        self.stage_wishes(interstage.from_stage(), out);
        interstage.wish_rows(t, out);
    }
}
