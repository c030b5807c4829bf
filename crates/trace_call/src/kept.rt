// Files of which some are read once.
ghost use Rattle.std.specs.Prelude.{◌≡◌, ◌<◌, ◌≤◌, ◌-◌, [], ℕ, List, IfOk, length, take, drop, true, false};
ghost use Rattle.std.specs.Option.{ForSome};
ghost use Rattle.sig_io.specs.Outside.{HasCause, IsRead};
ghost use Rattle.trace_call.specs.Kept.{IsFront};

use sig_io::{Failed, Files};
use std::alloc::Global;

/// A file, as far as it was read.
#[derive(Drop)]
struct Front<'a> {
    name: &'a str,
    bytes: Vec<u8>,
    whole: bool,
}

// A file of which nothing was read.
fn unread<'a>(alloc: Global, name: &'a str) -> Front<'a>
    ensures name { result.name.now ≡ name.now }
    ensures none { result.bytes.items ≡ [] }
    ensures more { result.whole ≡ false }
{
    Front {
        name,
        bytes: Vec::new(alloc),
        whole: false,
    }
}

// Copies the bytes from a place on that fit.
fn copy_from(bytes: &[u8], place: usize, buf: &mut [u8]) -> usize
    requires within { place < length bytes.now }
    requires room { 0 < length buf.old }
    ensures count { result ≤ length buf.new }
    ensures bytes { IsRead bytes.now place result buf.new }
    ensures short { result ≤ length bytes.now - place }
    ensures some { 1 ≤ result }
{
    let (_, rest) = bytes.split_at(place);
    let n = rest.len().min(buf.len());
    buf[..n].copy_from_slice(&rest[..n]);
    n
}

// Keeps what was read behind what is kept, if memory can be had for it.
fn keep(front: &mut Front<'_>, place: u64, bytes: &[u8])
    ensures name { front.new.name.now ≡ front.old.name.now }
    ensures kept { (file : List ℕ) → IsFront file front.old.bytes.items front.old.whole →
        bytes.now ≡ take (length bytes.now) (drop place file) → (length bytes.now ≡ 0 → length file ≤ place) →
        IsFront file front.new.bytes.items front.new.whole }
{
    if place != front.bytes.len() as u64 {
        return;
    }
    if bytes.is_empty() {
        front.whole = true;
        return;
    }
    // Without memory the file is read once more from here on.
    let _memory = front.bytes.extend_from_slice(bytes);
}

// Reads bytes of a file: those that are kept, or else from the file itself, and keeps them.
fn read_front<F: Files>(
    files: &mut F,
    front: &mut Front<'_>,
    place: u64,
    buf: &mut [u8],
) -> Result<usize, Failed>
    requires room { 0 < length buf.old }
    requires kept { ForSome (F.told files.old) (λ file. IsFront (file front.old.name.now) front.old.bytes.items front.old.whole) }
    ensures count { IfOk result (λ n. n ≤ length buf.new) }
    ensures bytes { ForSome (F.told files.old) (λ file. IfOk result (λ n. IsRead (file front.old.name.now) place n buf.new)) }
    ensures contents_stay { F.told files.new ≡ F.told files.old }
    ensures cause { HasCause (F.faults files.old) (F.faults files.new) result }
    ensures name { front.new.name.now ≡ front.old.name.now }
    ensures kept { ForSome (F.told files.old) (λ file. IsFront (file front.old.name.now) front.new.bytes.items front.new.whole) }
    // Nothing that is kept is read once more.
    ensures once { place < length front.old.bytes.items → files.new ≡ files.old }
    ensures ended { front.old.whole ≡ true → files.new ≡ files.old }
{
    if place < front.bytes.len() as u64 {
        return Ok(copy_from(&front.bytes, place as usize, buf));
    }
    if front.whole {
        return Ok(0);
    }
    let n = files.read_at(front.name, place, buf)?;
    keep(front, place, &buf[..n]);
    Ok(n)
}

/// Files of which three are kept as far as they were read, so that each byte of them is read once.
#[derive(Drop)]
pub struct KeptFiles<'a, F: Files> {
    files: F,
    plan: Front<'a>,
    times: Front<'a>,
    intergreens: Front<'a>,
    ghost plan_kept: { ForSome (F.told files) (λ file. IsFront (file plan.name.now) plan.bytes.items plan.whole) },
    ghost times_kept: { ForSome (F.told files) (λ file. IsFront (file times.name.now) times.bytes.items times.whole) },
    ghost intergreens_kept: { ForSome (F.told files)
        (λ file. IsFront (file intergreens.name.now) intergreens.bytes.items intergreens.whole) },
}

impl<'a, F: Files> KeptFiles<'a, F> {
    /// The files, of which the plan, the times and the intergreens with these names are kept.
    pub fn new(
        alloc: Global,
        files: F,
        plan: &'a str,
        times: &'a str,
        intergreens: &'a str,
    ) -> KeptFiles<'a, F>
        ensures told { ⟦<KeptFiles<'a, F> as Files>⟧.told result ≡ F.told files }
        ensures faults { ⟦<KeptFiles<'a, F> as Files>⟧.faults result ≡ F.faults files }
    {
        KeptFiles {
            files,
            plan: unread(alloc, plan),
            times: unread(alloc, times),
            intergreens: unread(alloc, intergreens),
        }
    }
}

impl<F: Files> Files for KeptFiles<'_, F> {
    ghost told = { λ k. F.told k.files };

    ghost faults = { λ k. F.faults k.files };

    fn read_at(&mut self, name: &str, place: u64, buf: &mut [u8]) -> Result<usize, Failed> {
        if name == self.plan.name {
            read_front(&mut self.files, &mut self.plan, place, buf)
        } else if name == self.times.name {
            read_front(&mut self.files, &mut self.times, place, buf)
        } else if name == self.intergreens.name {
            read_front(&mut self.files, &mut self.intergreens, place, buf)
        } else {
            self.files.read_at(name, place, buf)
        }
    }
}
