// A second whose commands are given in plain numbers.
ghost use Rattle.std.specs.Prelude.{◌≡◌, ◌<◌, ◌≤◌, All, length, true, false};
ghost use Rattle.controller.specs.Commanded.{IsCommand};
ghost use Rattle.controller.specs.Controls.{StandsFor, plan_of};
ghost use Rattle.controller.specs.Past.{Past};
ghost use Rattle.junction_calls.specs.declared.commands.GivenCommands.{GivenCommands as GivenOf};
ghost use Rattle.junction_calls.specs.declared.told.Told.{Told as ToldOf};
ghost use Rattle.junction_calls.specs.Given.{IsGivenSecond, given_in, is_named};
ghost use Rattle.junction_calls.specs.Drives.{IsGivenMade};
ghost use Rattle.junction_calls.specs.Numbers.{IsPlaying};

use crate::commands::{Commands, GivenCommands, is_silent, put_all, put_silent};
use crate::counts::{DetectorCounts, frame_of};
use crate::handle::{Junction, keep, take};
use crate::told::{Told, told_of};
use controller::Controller;
use sig_types::Command;
use std::alloc::Global;

// One second with these counts and these commands, if the counts are taken. 0: it was made and is told; 3: they are not, and
// nothing has changed.
fn make(
    controller: &mut Controller,
    counts: &DetectorCounts,
    commands: &[Command],
    told: &mut Told,
) -> u32
    requires stands { (past : Past) × StandsFor controller.old past }
    requires commands { All (IsCommand (plan_of controller.old)) commands.now }
    requires few { length commands.now ≤ 66 }
    ensures second { (past : Past) → StandsFor controller.old past → (given : GivenOf) → is_named (plan_of controller.old) given ≡ true →
        commands.now ≡ given_in (plan_of controller.old) past given →
        IsGivenSecond counts.now given controller.old past result controller.new told.old told.new }
    ensures playing { (past : Past) × StandsFor controller.new past }
{
    let frame = frame_of(counts);
    if !controller.takes(&frame) {
        return 3;
    }
    controller.given_second(&frame, commands);
    *told = told_of(controller.last());
    0
}

// Why no second is made of these counts where a number names no stage or group. 3: the counts are not taken; else 9.
fn refuse(controller: &Controller, counts: &DetectorCounts) -> u32
    ensures { (past : Past) → StandsFor controller.now past → (given : GivenOf) →
        (length past.frames < 604801 → is_named (plan_of controller.now) given ≡ false) → (told : ToldOf) →
        IsGivenSecond counts.now given controller.now past result controller.now told told }
{
    if controller.takes(&frame_of(counts)) {
        9
    } else {
        3
    }
}

// One second with these counts and commands. In most seconds nothing is wished of a group: then two commands are all.
#[tactic(auto, using(crate::proofs::NamedStages::active_has))]
fn step(
    controller: &mut Controller,
    counts: &DetectorCounts,
    given: &GivenCommands,
    told: &mut Told,
) -> u32
    requires { (past : Past) × StandsFor controller.old past }
    ensures second { (past : Past) → StandsFor controller.old past →
        IsGivenSecond counts.now given.now controller.old past result controller.new told.old told.new }
    ensures playing { (past : Past) × StandsFor controller.new past }
{
    let Some(place) = controller.next_place() else {
        return refuse(controller, counts);
    };
    let _groups = controller.plan().groups();
    if is_silent(&given.groups) {
        let mut commands = Commands::<2>::none();
        if put_silent(controller.plan(), place, given, &mut commands) {
            return make(controller, counts, commands.as_slice(), told);
        }
    } else {
        let mut commands = Commands::<66>::none();
        if put_all(controller.plan(), place, given, &mut commands) {
            return make(controller, counts, commands.as_slice(), told);
        }
    }
    refuse(controller, counts)
}

/// Makes a second of what a handle holds, with these counts and these commands in the place of its program's. It takes no memory.
/// 0: it was made and is told; 3: the counts are not taken; 4: nothing is held; 9: the counts are taken, and a number names no
/// stage or group. Where it isn't 0 nothing has changed.
pub fn make_given_second(
    handle: &mut Junction,
    alloc: Global,
    counts: &DetectorCounts,
    given: &GivenCommands,
    told: &mut Told,
) -> u32
    requires { IsPlaying handle.old.value }
    ensures second { IsGivenMade result counts.now given.now handle.old.value handle.new.value told.old told.new }
    ensures playing { IsPlaying handle.new.value }
{
    match take(handle, alloc) {
        None => 4,
        Some(mut controller) => {
            let status = step(&mut controller, counts, given, told);
            *handle = keep(controller);
            status
        }
    }
}
