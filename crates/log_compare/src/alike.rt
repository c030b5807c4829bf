// Whether two records are alike.
ghost use Rattle.std.specs.Prelude.{◌≡◌, ◌<◌, ◌≤◌, true, false};

use sig_types::{Frame, Picture, Record, StageRefusals, TurnRefusals};

// The places of the detectors.
const DETECTORS: u8 = 64;

fn same_picture(one: &Picture, other: &Picture) -> bool
    ensures same { result ≡ true → one.now ≡ other.now }
    ensures differs { result ≡ false → one.now ≡ other.now → ⊥ }
{
    if one.len() != other.len() {
        return false;
    }
    for place in 0..one.len() {
        if one.get(place) != other.get(place) {
            return false;
        }
    }
    true
}

fn same_frame(one: &Frame, other: &Frame) -> bool
    ensures same { result ≡ true → one.now ≡ other.now }
    ensures differs { result ≡ false → one.now ≡ other.now → ⊥ }
{
    for place in 0..DETECTORS {
        if one.get(place) != other.get(place) {
            return false;
        }
    }
    true
}

fn same_stages(one: &StageRefusals, other: &StageRefusals) -> bool
    ensures same { result ≡ true → one.now ≡ other.now }
    ensures differs { result ≡ false → one.now ≡ other.now → ⊥ }
{
    if one.len() != other.len() {
        return false;
    }
    for place in 0..one.len() {
        if one.get(place) != other.get(place) {
            return false;
        }
    }
    true
}

fn same_turns(one: &TurnRefusals, other: &TurnRefusals) -> bool
    ensures same { result ≡ true → one.now ≡ other.now }
    ensures differs { result ≡ false → one.now ≡ other.now → ⊥ }
{
    if one.len() != other.len() {
        return false;
    }
    for place in 0..one.len() {
        if one.get(place) != other.get(place) {
            return false;
        }
    }
    true
}

/// Whether two records of one second are alike in each field.
pub(crate) fn are_alike(one: &Record, other: &Record) -> bool
    requires { one.now.second.0 ≡ other.now.second.0 }
    ensures same { result ≡ true → one.now ≡ other.now }
    ensures differs { result ≡ false → one.now ≡ other.now → ⊥ }
{
    if one.place != other.place || one.fault != other.fault {
        return false;
    }
    same_picture(&one.picture, &other.picture)
        && same_frame(&one.frame, &other.frame)
        && same_stages(&one.stages, &other.stages)
        && same_turns(&one.turns, &other.turns)
}
