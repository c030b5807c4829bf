// The record of a second, in plain numbers.
ghost use Rattle.std.specs.Prelude.{◌≡◌};
ghost use Rattle.sig_types.specs.LogForm.{letter};
ghost use Rattle.sig_types.specs.RuleNumbers.{rule_number};
ghost use Rattle.junction_calls.specs.Numbers.{IsTold, place_numbers, fault_numbers, other_number, AreLetters, AreNumbers};

use sig_types::{Aspect, Fault, GroupNo, Picture, Record, StagePlace, TurnRefusals};

/// A second, as another program reads it.
#[repr(C)]
#[derive(Clone, Copy)]
pub struct Told {
    /// The second's number.
    pub second: u32,
    /// The line of the fault; 0 if there is none.
    pub fault_line: u32,
    /// How many stage commands were refused.
    pub stages: u32,
    /// How many turns were refused.
    pub turns: u32,
    /// 0: no stages. 1: stage `to` is active. 2: the interstage from stage `from` to stage `to` is in its second `t`.
    pub place: u8,
    pub from: u8,
    pub to: u8,
    pub t: u8,
    /// The fault's number, 1 to 5; 0 if there is none.
    pub fault: u8,
    /// How many groups there are.
    pub groups: u8,
    /// A letter for each group: `R`, `U`, `G`, `A`.
    pub aspects: [u8; 64],
    /// The groups whose turns were refused, by their places, with the rules' numbers, and the groups in the way or 255.
    pub turn_groups: [u8; 64],
    pub turn_rules: [u8; 64],
    pub turn_others: [u8; 64],
    /// 0, so that there is no gap behind it.
    pub reserved: [u8; 2],
}

fn letter_of(aspect: Aspect) -> u8
    ensures { result ≡ letter aspect }
{
    match aspect {
        Aspect::Red => b'R',
        Aspect::RedAmber => b'U',
        Aspect::Green => b'G',
        Aspect::Amber => b'A',
    }
}

fn letters_of(picture: &Picture) -> [u8; 64]
    ensures { AreLetters picture.now result }
{
    let mut letters = [0; 64];
    for place in 0..picture.len() {
        letters[usize::from(place)] = letter_of(picture.get(place));
    }
    letters
}

pub(crate) fn place_of(place: StagePlace) -> (u8, u8, u8, u8)
    ensures { result ≡ place_numbers place }
{
    match place {
        StagePlace::NoPlan => (0, 0, 0, 0),
        StagePlace::Stage(stage) => (1, 0, stage.0, 0),
        StagePlace::Inter { from, to, t } => (2, from.0, to.0, t),
    }
}

fn fault_of(fault: Option<Fault>) -> (u8, u32)
    ensures { result ≡ fault_numbers fault }
{
    match fault {
        None => (0, 0),
        Some(fault) => (fault.kind.number(), fault.line),
    }
}

pub(crate) fn other_of(other: Option<GroupNo>) -> u8
    ensures { result ≡ other_number other }
{
    match other {
        None => 255,
        Some(group) => group.0,
    }
}

// The groups of refused turns.
fn groups_of(turns: &TurnRefusals) -> [u8; 64]
    ensures { AreNumbers (λ turn. turn.group.0) turns.now result }
{
    let mut groups = [0; 64];
    for i in 0..turns.len() {
        groups[i] = turns.get(i).group.0;
    }
    groups
}

// Their rules.
fn rules_of(turns: &TurnRefusals) -> [u8; 64]
    ensures { AreNumbers (λ turn. rule_number turn.rule) turns.now result }
{
    let mut rules = [0; 64];
    for i in 0..turns.len() {
        rules[i] = turns.get(i).rule.number();
    }
    rules
}

// The groups in their way.
fn others_of(turns: &TurnRefusals) -> [u8; 64]
    ensures { AreNumbers (λ turn. other_number turn.other) turns.now result }
{
    let mut others = [0; 64];
    for i in 0..turns.len() {
        others[i] = other_of(turns.get(i).other);
    }
    others
}

/// Tells a record.
pub fn told_of(rec: &Record) -> Told
    ensures { IsTold rec.now result }
{
    let (place, from, to, t) = place_of(rec.place);
    let (fault, fault_line) = fault_of(rec.fault);
    Told {
        second: rec.second.0,
        fault_line,
        stages: rec.stages.len() as u32,
        turns: rec.turns.len() as u32,
        place,
        from,
        to,
        t,
        fault,
        groups: rec.picture.len(),
        aspects: letters_of(&rec.picture),
        turn_groups: groups_of(&rec.turns),
        turn_rules: rules_of(&rec.turns),
        turn_others: others_of(&rec.turns),
        reserved: [0; 2],
    }
}
