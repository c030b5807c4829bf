// The text of a mask: a line of the stages and one a group.
ghost use Rattle.std.specs.Prelude.{◌<◌};

use junction_calls::ActionMask;
use pua_model::Plan;
use sig_types::GroupNo;
use std::alloc::AllocError;
use test_calls::logs::rule_name;

/// A mask in which nothing is told.
pub fn untold() -> ActionMask {
    ActionMask {
        place: 0,
        from: 0,
        to: 0,
        t: 0,
        groups: 0,
        stages: 0,
        reserved: [0; 2],
        turns: [0; 64],
        rules: [0; 64],
        others: [0; 64],
        waits: [0; 64],
        stage_rules: [0; 32],
    }
}

// The word of a rule; where none refuses, another word.
fn rule_word(rule: u8, none: &'static str) -> &'static str {
    if rule == 0 { none } else { rule_name(rule) }
}

// Puts the place, and a word of each stage.
fn put_stages(second: u32, mask: &ActionMask, text: &mut String) -> Result<(), AllocError> {
    write!(text, "{second} stages: ")?;
    match mask.place {
        0 => text.push('-')?,
        1 => write!(text, "S{}", mask.to)?,
        _ => write!(text, "I{}-{}+{}", mask.from, mask.to, mask.t)?,
    }
    for stage in 1u8..33 {
        if stage <= mask.stages {
            let is_active = mask.place == 1 && mask.to == stage;
            let none = if is_active { "active" } else { "obeyed" };
            let rule = mask.stage_rules[usize::from(stage) - 1];
            write!(text, " {}", rule_word(rule, none))?;
        }
    }
    text.push('\n')
}

// The name of a group; of a number that is none's, a dash.
fn name_of<'a>(plan: &'a Plan, group: u8) -> &'a str {
    if group < plan.groups() {
        plan.group_name(GroupNo(group))
    } else {
        "-"
    }
}

// Puts the turn of a group.
fn put_turn(
    second: u32,
    plan: &Plan,
    place: u8,
    mask: &ActionMask,
    text: &mut String,
) -> Result<(), AllocError>
    requires { place < 64 }
{
    let at = usize::from(place);
    let turn = match mask.turns[at] {
        1 => "start",
        2 => "end",
        _ => "?",
    };
    let rule = rule_word(mask.rules[at], "-");
    let name = name_of(plan, place);
    let other = name_of(plan, mask.others[at]);
    write!(text, "{second} {name} {turn} {rule} {other} ")?;
    if mask.waits[at] == 65535 {
        write!(text, "never\n")
    } else {
        write!(text, "{}\n", mask.waits[at])
    }
}

/// Puts all lines of the mask before a second.
pub fn put_mask(
    second: u32,
    plan: &Plan,
    mask: &ActionMask,
    text: &mut String,
) -> Result<(), AllocError> {
    put_stages(second, mask, text)?;
    for place in 0u8..64 {
        if place < mask.groups {
            put_turn(second, plan, place, mask, text)?;
        }
    }
    Ok(())
}
