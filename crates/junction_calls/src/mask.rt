// What the second that comes would refuse, in plain numbers.
ghost use Rattle.std.specs.Prelude.{◌≡◌, ◌≤◌, ◌<◌, length, suc};
ghost use Rattle.controller.specs.Controls.{StandsFor, plan_of, site_of};
ghost use Rattle.controller.specs.Past.{Past};
ghost use Rattle.controller.specs.World.{place_before};
ghost use Rattle.sig_types.specs.Turns.{History, is_on, shown};
ghost use Rattle.sig_guard.specs.Alone.{turn_refusal};
ghost use Rattle.sig_guard.specs.Stands.{StandsFor as GuardStands, rules};
ghost use Rattle.sig_guard.specs.Step.{natural_picture};
ghost use Rattle.junction_calls.specs.Masked.{refusal_numbers, turn_number, wait_number, stage_refusal, number_of, Fills, AreWaits, IsMask, IsMaskTold};
ghost use Rattle.junction_calls.specs.Numbers.{IsPlaying, other_number, place_numbers};

use crate::handle::{Junction, keep, take};
use crate::told::{other_of, place_of};
use controller::Controller;
use pua_model::Plan;
use sig_guard::{Guard, is_on};
use sig_types::{GroupNo, Picture, Rule, StageNo, StagePlace, TurnRefusal};
use std::alloc::Global;

/// What the second that comes would refuse.
#[repr(C)]
#[derive(Clone, Copy)]
pub struct ActionMask {
    /// The place of the second that comes, before its commands, as `Told` has it.
    pub place: u8,
    pub from: u8,
    pub to: u8,
    pub t: u8,
    /// How many groups there are, and how many stages.
    pub groups: u8,
    pub stages: u8,
    /// 0, so that there is no gap.
    pub reserved: [u8; 2],
    /// Of each group the turn that it can be wished to make: 1 a start, 2 an end.
    pub turns: [u8; 64],
    /// The rule that refuses this turn where no other group turns by a wish; 0: it is obeyed.
    pub rules: [u8; 64],
    /// The group in its way, or 255.
    pub others: [u8; 64],
    /// After how many seconds the turn is obeyed, where all goes on by nature until then; 0: in the second that comes; 65535: never.
    pub waits: [u16; 64],
    /// Of each stage (place p is stage p + 1) the rule that refuses the command from the active stage to it; 0: it is obeyed, or
    /// active.
    pub stage_rules: [u8; 32],
}

fn turn_number(is_end: bool) -> u8
    ensures { result ≡ turn_number is_end }
{
    if is_end { 2 } else { 1 }
}

fn wait_number(wait: Option<u32>) -> u16
    ensures { result ≡ wait_number wait }
{
    match wait {
        None => 65535,
        Some(seconds) => seconds.min(65534) as u16,
    }
}

// The number of the rule that refuses a turn, and the group in its way; 0 and 255 where it is obeyed.
fn numbers_of(refusal: Option<TurnRefusal>) -> (u8, u8)
    ensures { result ≡ refusal_numbers refusal }
{
    match refusal {
        None => (0, 255),
        Some(refusal) => (refusal.rule.number(), other_of(refusal.other)),
    }
}

// The turns that the groups can be wished to make, by the picture that comes by nature.
fn turns_of(natural: &Picture) -> [u8; 64]
    ensures { Fills 64 (length natural.now) (λ g. turn_number (is_on (shown natural.now g))) result }
{
    let mut turns = [0; 64];
    for g in 0..natural.len() {
        turns[usize::from(g)] = turn_number(is_on(natural.get(g)));
    }
    turns
}

// The rules that refuse these turns, and the groups in their way.
fn refusals_of(guard: &Guard, natural: &Picture) -> ([u8; 64], [u8; 64])
    requires size { length natural.now ≡ (rules guard.now).count }
    ensures rules { (h : History) → GuardStands guard.now h → natural.now ≡ natural_picture (rules guard.now) h →
        Fills 64 (rules guard.now).count (λ g. (refusal_numbers (turn_refusal (rules guard.now) h g)).0) result.0 }
    ensures others { (h : History) → GuardStands guard.now h → natural.now ≡ natural_picture (rules guard.now) h →
        Fills 64 (rules guard.now).count (λ g. (refusal_numbers (turn_refusal (rules guard.now) h g)).1) result.1 }
{
    let mut told_rules = [0; 64];
    let mut told_others = [0; 64];
    for g in 0..natural.len() {
        let (rule, other) = numbers_of(guard.turn_refusal(natural, GroupNo(g)));
        told_rules[usize::from(g)] = rule;
        told_others[usize::from(g)] = other;
    }
    (told_rules, told_others)
}

// How long they have to wait.
fn waits_of(guard: &Guard, natural: &Picture) -> [u16; 64]
    requires size { length natural.now ≡ (rules guard.now).count }
    ensures { (h : History) → GuardStands guard.now h → natural.now ≡ natural_picture (rules guard.now) h →
        AreWaits (rules guard.now) h result }
{
    let mut waits = [0; 64];
    for g in 0..natural.len() {
        waits[usize::from(g)] = wait_number(guard.turn_wait(natural, GroupNo(g)));
    }
    waits
}

// The rule by which the command to a stage is refused.
fn stage_refusal(plan: &Plan, place: StagePlace, to: StageNo) -> Option<Rule>
    ensures { result ≡ stage_refusal plan.now place to.0 }
{
    match place {
        StagePlace::NoPlan => Some(Rule::WrongStage),
        StagePlace::Inter { .. } => Some(Rule::Running),
        StagePlace::Stage(active) => {
            if active.0 == to.0 || plan.interstage(active, to).is_some() {
                None
            } else {
                Some(Rule::NoInterstage)
            }
        }
    }
}

fn number_of(rule: Option<Rule>) -> u8
    ensures { result ≡ number_of rule }
{
    match rule {
        None => 0,
        Some(rule) => rule.number(),
    }
}

// Of each stage the rule by which the command to it is refused.
fn stage_rules_of(plan: &Plan, place: StagePlace) -> [u8; 32]
    ensures { Fills 32 (length plan.now.stages) (λ i. number_of (stage_refusal plan.now place (suc i))) result }
{
    let mut told = [0; 32];
    for i in 0..plan.stages() {
        told[usize::from(i)] = number_of(stage_refusal(plan, place, StageNo(i + 1)));
    }
    told
}

fn mask_of(controller: &Controller, place: StagePlace) -> ActionMask
    requires { (past : Past) × StandsFor controller.now past }
    ensures { (past : Past) → StandsFor controller.now past → place ≡ place_before (plan_of controller.now) past →
        IsMask (plan_of controller.now) (site_of controller.now).rules past result }
{
    let plan = controller.plan();
    let guard = controller.guard();
    let natural = guard.next_by_nature();
    let (kind, from, to, t) = place_of(place);
    let (told_rules, told_others) = refusals_of(guard, &natural);
    ActionMask {
        place: kind,
        from,
        to,
        t,
        groups: plan.groups(),
        stages: plan.stages(),
        reserved: [0; 2],
        turns: turns_of(&natural),
        rules: told_rules,
        others: told_others,
        waits: waits_of(guard, &natural),
        stage_rules: stage_rules_of(plan, place),
    }
}

/// Tells what the second that comes would refuse. 0: it is told; 3: no second is left; 4: nothing is held.
pub fn tell_mask(handle: &mut Junction, alloc: Global, mask: &mut ActionMask) -> u32
    requires { IsPlaying handle.old.value }
    ensures same { handle.new.value ≡ handle.old.value }
    ensures told { IsMaskTold handle.old.value result mask.old mask.new }
{
    match take(handle, alloc) {
        None => 4,
        Some(controller) => {
            let place = controller.next_place();
            let mut status = 3;
            if let Some(place) = place {
                *mask = mask_of(&controller, place);
                status = 0;
            }
            *handle = keep(controller);
            status
        }
    }
}
