// The detectors, second by second.
ghost use Rattle.std.specs.Prelude.{◌≡◌, ◌+◌, ◌<◌, ◌≤◌, ◌^◌, ℕ, IfOk, OnOk, length, nat_lt, slice_index_or};
ghost use Rattle.sig_types.specs.Counts.{count_in, fronts, rears};
ghost use Rattle.log_chart.specs.declared.cover.Cover.{Cover};
ghost use Rattle.log_chart.specs.Covers.{AreCounts, IsCover};

use crate::cover::Cover;
use crate::row::show;
use sig_types::{Frame, Memory, Second};
use std::alloc::Global;

// Adds the fronts and the rears of a second.
fn add_counts(cover: &mut Cover, second: u32, fronts: u32, rears: u32)
    ensures counts { (f r : ℕ → ℕ) (n : ℕ) → second ≡ n + 1 → second < 2 ^ 31 → f second ≡ fronts → r second ≡ rears →
        AreCounts f r n cover.old → AreCounts f r second cover.new }
    ensures spans { cover.new.spans ≡ cover.old.spans }
{
    cover.fronts = cover.fronts.saturating_add(u64::from(fronts));
    cover.rears = cover.rears.saturating_add(u64::from(rears));
}

// Whether the detector is covered.
fn is_covered(cover: &Cover) -> bool
    ensures { result ≡ nat_lt cover.now.rears cover.now.fronts }
{
    cover.rears < cover.fronts
}

// Takes the fronts and the rears of a second.
fn take_counts(
    cover: &mut Cover,
    from: u32,
    second: u32,
    fronts: u32,
    rears: u32,
) -> Result<(), Memory>
    ensures { OnOk result ((f r : ℕ → ℕ) (n : ℕ) → second ≡ n + 1 → second < 2 ^ 31 → f second ≡ fronts → r second ≡ rears →
        IsCover f r from n cover.old → IsCover f r from second cover.new) }
{
    add_counts(cover, second, fronts, rears);
    if second < from {
        return Ok(());
    }
    let covered = is_covered(cover);
    show(&mut cover.spans, Second(second), covered)?;
    Ok(())
}

/// The 64 detectors before the first second; their spans begin with second `from`.
pub fn no_covers(alloc: Global) -> Result<Vec<Cover>, Memory>
    ensures size { IfOk result (λ v. length v.items ≡ 64) }
    ensures covers { IfOk result (λ v. (f r : ℕ → ℕ) (from p : ℕ) (d : Cover) → 1 ≤ from → p < 64 →
        IsCover f r from 0 (slice_index_or v.items p d)) }
{
    let mut covers = Vec::new(alloc);
    for _place in 0..64u8 {
        let cover = Cover {
            fronts: 0,
            rears: 0,
            spans: Vec::new(alloc),
        };
        match covers.push(cover) {
            Ok(()) => {}
            Err(_) => return Err(Memory),
        }
    }
    Ok(covers)
}

/// Takes the frame of a second more; the spans are told from second `from` on. After `Memory` they are of no use.
pub fn take_frame(
    covers: &mut Vec<Cover>,
    from: u32,
    second: u32,
    frame: &Frame,
) -> Result<(), Memory>
    requires { length covers.old.items ≡ 64 }
    ensures size { length covers.new.items ≡ 64 }
    ensures covers { OnOk result ((f r : ℕ → ℕ) (n p : ℕ) (d : Cover) → second ≡ n + 1 → second < 2 ^ 31 → p < 64 →
        f second ≡ count_in fronts (p + 1) frame.now → r second ≡ count_in rears (p + 1) frame.now →
        IsCover f r from n (slice_index_or covers.old.items p d) → IsCover f r from second (slice_index_or covers.new.items p d)) }
{
    for place in 0..64u8 {
        let (fronts, rears) = frame.get(place);
        let cover = &mut covers[usize::from(place)];
        take_counts(cover, from, second, fronts, rears)?;
    }
    Ok(())
}
