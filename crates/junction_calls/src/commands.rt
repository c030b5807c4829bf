// The commands that a caller gives in plain numbers.
ghost use Rattle.std.specs.Prelude.{◌≡◌, ◌+◌, ◌<◌, ◌≤◌, ◌++◌, ◌∷◌, ◌&&◌, ℕ, pos, Some, [], All, length, slice_index_or, is_some, true};
ghost use Rattle.pua_model.specs.Plan.{groups_in};
ghost use Rattle.controller.specs.Commanded.{IsCommand};
ghost use Rattle.junction_calls.specs.Given.{HasActive, order_given, wish_given, group_given, groups_given, commands_given, are_stages, is_stage_or_none, is_wish, are_wishes, is_named, sum_below};

use pua_model::Plan;
use sig_types::{Command, GroupNo, StageNo, StagePlace};
use std::marker::Model;

/// What a caller commands in a second.
#[repr(C)]
#[derive(Clone, Copy)]
pub struct GivenCommands {
    /// The stages of a stage command; 0 and 0: none is given.
    pub from: u8,
    pub to: u8,
    /// The stage that is wished: where another one is active in this second, the command from that one to this; 0: none.
    pub stage: u8,
    /// 0, so that there is no gap.
    pub reserved: u8,
    /// What is wished of each group over what its stage wishes: 0 nothing, 1 green, 2 red.
    pub groups: [u8; 64],
}

/// Commands in order, at most N. Contracts see them as that list.
#[derive(Drop)]
pub(crate) struct Commands<const N: usize> {
    list: [Command; N],
    count: usize,
}

impl<const N: usize> Model for Commands<N> {
    ghost use Rattle.std.specs.Prelude.{◌≡◌, ◌≤◌, List, length, take};
    ghost use Rattle.sig_types.specs.declared.numbers.Command.{Command};

    ghost Value = { List Command };

    ghost view = { λ c. take c.count c.list };

    ghost invariant = { λ c. (c.count ≤ N) × (length c.list ≡ N) };
}

impl<const N: usize> Commands<N> {
    /// No command.
    pub(crate) fn none() -> Commands<N>
        ensures { result ≡ [] }
    {
        Commands {
            list: [Command::Interstage(StageNo(0), StageNo(0)); N],
            count: 0,
        }
    }

    fn push(&mut self, command: Command)
        requires { length self.old < N }
        ensures { self.new ≡ self.old ++ command ∷ [] }
    {
        self.list[self.count] = command;
        self.count += 1;
    }

    /// The commands.
    pub(crate) fn as_slice(&self) -> &[Command]
        ensures same { result.now ≡ self.now }
        ensures few { length self.now ≤ N }
    {
        &self.list[..self.count]
    }
}

// What the numbers of groups add up to.
fn sum_of(groups: &[u8; 64]) -> u32
    ensures { result ≡ sum_below groups.now 64 }
{
    let mut sum = 0;
    for place in 0usize..64 {
        sum += u32::from(groups[place]);
    }
    sum
}

/// Whether nothing is wished of any group.
pub(crate) fn is_silent(groups: &[u8; 64]) -> bool
    ensures { result ≡ true → (p : ℕ) → p < 64 → slice_index_or groups.now p 0 ≡ 0 }
{
    sum_of(groups) == 0
}

// Gives the command of an interstage, where there is one. It answers whether both numbers are 0, or both name stages.
fn put_order<const N: usize>(plan: &Plan, from: u8, to: u8, commands: &mut Commands<N>) -> bool
    requires none { commands.old ≡ [] }
    requires room { 2 ≤ N }
    ensures named { result ≡ are_stages plan.now from to }
    ensures given { result ≡ true → commands.new ≡ order_given from to }
    ensures commands { All (IsCommand plan.now) commands.new }
    ensures few { length commands.new ≤ 1 }
{
    if from == 0 && to == 0 {
        return true;
    }
    let are_stages = plan.find_stage(i32::from(from)).is_some()
        && plan.find_stage(i32::from(to)).is_some();
    if are_stages {
        commands.push(Command::Interstage(StageNo(from), StageNo(to)));
    }
    are_stages
}

// Gives the command from the active stage to the wished one, where another one is active. It answers whether the number is 0, or
// names a stage.
fn put_wish<const N: usize>(
    plan: &Plan,
    place: StagePlace,
    stage: u8,
    commands: &mut Commands<N>,
) -> bool
    requires active { HasActive plan.now place }
    requires commands { All (IsCommand plan.now) commands.old }
    requires few { length commands.old ≤ 1 }
    requires room { 2 ≤ N }
    ensures named { result ≡ is_stage_or_none plan.now stage }
    ensures given { result ≡ true → commands.new ≡ commands.old ++ wish_given place stage }
    ensures commands { All (IsCommand plan.now) commands.new }
    ensures few { length commands.new ≤ 2 }
{
    if stage == 0 {
        return true;
    }
    if plan.find_stage(i32::from(stage)).is_none() {
        return false;
    }
    match place {
        StagePlace::NoPlan | StagePlace::Inter { .. } => {}
        StagePlace::Stage(active) => {
            if active.0 != stage {
                commands.push(Command::Interstage(active, StageNo(stage)));
            }
        }
    }
    true
}

// Gives the wish of a group that there is, where there is one. It answers whether the number is 0, 1 or 2.
fn put_group(plan: &Plan, place: u8, wish: u8, commands: &mut Commands<66>) -> bool
    requires group { place < groups_in plan.now }
    requires commands { All (IsCommand plan.now) commands.old }
    requires room { length commands.old < 66 }
    ensures named { result ≡ is_wish plan.now place wish }
    ensures given { result ≡ true → commands.new ≡ commands.old ++ group_given place wish }
    ensures commands { All (IsCommand plan.now) commands.new }
    ensures few { length commands.new ≤ length commands.old + 1 }
{
    if wish == 1 {
        commands.push(Command::SgGreen(GroupNo(place)));
    } else if wish == 2 {
        commands.push(Command::SgRed(GroupNo(place)));
    }
    wish <= 2
}

// Gives the wishes of the groups. It answers whether all numbers are wishes: those past the last group are 0 where they add nothing
// to the sum.
fn put_groups(plan: &Plan, groups: &[u8; 64], commands: &mut Commands<66>) -> bool
    requires commands { All (IsCommand plan.now) commands.old }
    requires few { length commands.old ≤ 2 }
    ensures named { result ≡ are_wishes plan.now groups.now 64 }
    ensures given { result ≡ true → commands.new ≡ commands.old ++ groups_given groups.now 64 }
    ensures commands { All (IsCommand plan.now) commands.new }
{
    let mut are_wishes = true;
    let mut sum = 0;
    for place in 0..plan.groups() {
        let wish = groups[usize::from(place)];
        let is_wish = put_group(plan, place, wish, commands);
        are_wishes = are_wishes && is_wish;
        sum += u32::from(wish);
    }
    are_wishes && sum == sum_of(groups)
}

// Gives the commands of the stages. It answers whether their numbers are 0, or name stages.
fn put_stages<const N: usize>(
    plan: &Plan,
    place: StagePlace,
    given: &GivenCommands,
    commands: &mut Commands<N>,
) -> bool
    requires active { HasActive plan.now place }
    requires none { commands.old ≡ [] }
    requires room { 2 ≤ N }
    ensures named { result ≡ (are_stages plan.now given.now.from given.now.to && is_stage_or_none plan.now given.now.stage) }
    ensures given { result ≡ true → commands.new ≡ order_given given.now.from given.now.to ++ wish_given place given.now.stage }
    ensures commands { All (IsCommand plan.now) commands.new }
    ensures few { length commands.new ≤ 2 }
{
    put_order(plan, given.from, given.to, commands) && put_wish(plan, place, given.stage, commands)
}

/// Gives all commands in order where nothing is wished of a group. It answers whether all numbers are 0, or name what there is.
pub(crate) fn put_silent(
    plan: &Plan,
    place: StagePlace,
    given: &GivenCommands,
    commands: &mut Commands<2>,
) -> bool
    requires silent { (p : ℕ) → p < 64 → slice_index_or given.now.groups p 0 ≡ 0 }
    requires active { HasActive plan.now place }
    requires none { commands.old ≡ [] }
    ensures named { result ≡ is_named plan.now given.now }
    ensures given { result ≡ true → commands.new ≡ commands_given place given.now }
    ensures commands { All (IsCommand plan.now) commands.new }
{
    put_stages(plan, place, given, commands)
}

/// Gives all commands in order. It answers whether all numbers are 0, or name what there is.
pub(crate) fn put_all(
    plan: &Plan,
    place: StagePlace,
    given: &GivenCommands,
    commands: &mut Commands<66>,
) -> bool
    requires active { HasActive plan.now place }
    requires none { commands.old ≡ [] }
    ensures named { result ≡ is_named plan.now given.now }
    ensures given { result ≡ true → commands.new ≡ commands_given place given.now }
    ensures commands { All (IsCommand plan.now) commands.new }
{
    put_stages(plan, place, given, commands) && put_groups(plan, &given.groups, commands)
}
