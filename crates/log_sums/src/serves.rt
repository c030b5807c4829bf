// What detectors saw that serve a group.
ghost use Rattle.std.specs.Prelude.{◌≡◌, ◌+◌, ◌*◌, ◌^◌, ◌<◌, ◌≤◌, ℕ, All, IfOk, length, slice_index_or, if◌then◌else◌};
ghost use Rattle.sig_types.specs.declared.aspect.Aspect.{Aspect};
ghost use Rattle.sig_types.specs.Counts.{fronts};
ghost use Rattle.log_sums.specs.ServeSums.{AreServeSums};
ghost use Rattle.log_sums.specs.declared.serves.Served.{Served};
ghost use Rattle.log_sums.specs.Serves.{fronts_at, serves_of};

use crate::serve_sums::ServeSums;
use sig_types::{Aspect, Frame, GroupNo, Memory, Picture};
use std::alloc::Global;

/// Detectors that serve a group.
#[derive(Clone, Copy)]
pub struct Serve {
    /// The group.
    pub group: GroupNo,
    /// Which detectors they are: that of number p + 1 stands at place p.
    pub detectors: [bool; 64],
}

/// Detectors that serve a group, and what they saw.
#[derive(Clone, Copy)]
pub struct Served {
    /// The detectors and the group.
    pub serve: Serve,
    /// What they saw.
    pub sums: ServeSums,
}

// What a group shows; one that there isn't is red.
fn shown_in(picture: &Picture, group: GroupNo) -> Aspect
    ensures { result ≡ slice_index_or picture.now group.0 Aspect.Red }
{
    if group.0 < picture.len() {
        picture.get(group.0)
    } else {
        Aspect::Red
    }
}

// The fronts of a detector where it is one of those.
fn counted(chosen: bool, fronts: u32) -> u64
    ensures { result ≡ (if chosen then fronts else 0) }
{
    if chosen { u64::from(fronts) } else { 0 }
}

// The fronts of these detectors.
fn fronts_at(detectors: &[bool; 64], frame: &Frame) -> u64
    ensures fronts { result ≡ fronts_at detectors.now frame.now }
    ensures few { result < 2 ^ 38 }
{
    let mut sum = 0u64;
    for place in 0..64u8 {
        let (fronts, _) = frame.get(place);
        sum += counted(detectors[usize::from(place)], fronts);
    }
    sum
}

// What they saw, with a second more.
fn show_served(served: Served, from: u32, second: u32, picture: &Picture, frame: &Frame) -> Served
    ensures serve { result.serve ≡ served.serve }
    ensures sums { (a : ℕ → Aspect) (f : ℕ → ℕ) (n : ℕ) → second ≡ n + 1 → second < 2 ^ 20 →
        a second ≡ slice_index_or picture.now served.serve.group.0 Aspect.Red → f second ≡ fronts_at served.serve.detectors frame.now →
        AreServeSums a f from n served.sums → AreServeSums a f from second result.sums }
{
    let aspect = shown_in(picture, served.serve.group);
    let fronts = fronts_at(&served.serve.detectors, frame);
    Served {
        serve: served.serve,
        sums: served.sums.show(from, second, aspect, fronts),
    }
}

// Takes what detectors see in a second.
fn show_each(serves: &mut [Served], from: u32, second: u32, picture: &Picture, frame: &Frame)
    ensures serves { serves_of serves.new ≡ serves_of serves.old }
    ensures sums { (a : ℕ → Aspect) (f : ℕ → ℕ) (n i : ℕ) (d : Served) → i < length serves.old → second ≡ n + 1 → second < 2 ^ 20 →
        a second ≡ slice_index_or picture.now (slice_index_or serves.old i d).serve.group.0 Aspect.Red →
        f second ≡ fronts_at (slice_index_or serves.old i d).serve.detectors frame.now →
        AreServeSums a f from n (slice_index_or serves.old i d).sums → AreServeSums a f from second (slice_index_or serves.new i d).sums }
{
    for place in 0..serves.len() {
        serves[place] = show_served(serves[place], from, second, picture, frame);
    }
}

/// Takes what detectors see in a second.
pub(crate) fn show_serves(
    serves: &mut Vec<Served>,
    from: u32,
    second: u32,
    picture: &Picture,
    frame: &Frame,
)
    ensures serves { serves_of serves.new.items ≡ serves_of serves.old.items }
    ensures sums { (a : ℕ → Aspect) (f : ℕ → ℕ) (n i : ℕ) (d : Served) → i < length serves.old.items → second ≡ n + 1 → second < 2 ^ 20 →
        a second ≡ slice_index_or picture.now (slice_index_or serves.old.items i d).serve.group.0 Aspect.Red →
        f second ≡ fronts_at (slice_index_or serves.old.items i d).serve.detectors frame.now →
        AreServeSums a f from n (slice_index_or serves.old.items i d).sums →
        AreServeSums a f from second (slice_index_or serves.new.items i d).sums }
{
    show_each(serves.as_mut_slice(), from, second, picture, frame);
}

// Detectors that saw nothing yet.
fn unseen(serve: Serve) -> Served
    ensures serve { result.serve ≡ serve }
    ensures sums { (a : ℕ → Aspect) (f : ℕ → ℕ) (from : ℕ) → AreServeSums a f from 0 result.sums }
{
    Served {
        serve,
        sums: ServeSums::none(),
    }
}

/// What these saw before the first second.
pub(crate) fn none_served(alloc: Global, serves: &[Serve]) -> Result<Vec<Served>, Memory>
    ensures serves { IfOk result (λ v. serves_of v.items ≡ serves.now) }
    ensures sums { IfOk result (λ v. All (λ x. (a : ℕ → Aspect) (f : ℕ → ℕ) (from : ℕ) → AreServeSums a f from 0 x.sums) v.items) }
{
    let mut served = Vec::new(alloc);
    for serve in serves {
        match served.push(unseen(*serve)) {
            Ok(()) => {}
            Err(_) => return Err(Memory),
        }
    }
    Ok(served)
}
