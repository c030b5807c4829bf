// The observer that counts.
ghost use Rattle.std.specs.Prelude.{◌≡◌, ◌<◌, ◌+◌, ◌++◌, ℕ, [], List, ℤ, length, min, replicate, slice_get, slice_index_or, IfOk};
ghost use Rattle.vap_code.specs.Sights.{Sight};
ghost use Rattle.trace_watch.specs.Counted.{HasCounted, HasPlaces, counted_at, most_counted, says_no, says_yes, spends};

use std::alloc::{AllocError, Global};
use vap_code::Instr;
use vap_vm::{Head, Machine, Observer, Sight};

/// For each place of a code how often a statement began there, and how often a test was answered there. A count that has come to
/// 18,446,744,073,709,551,615 stays there; a run of a week counts far less.
#[derive(Drop)]
pub struct Counts {
    begun: Vec<u64>,
    yes: Vec<u64>,
    no: Vec<u64>,
}

// One more at a place, if it is to be counted there.
fn count(counts: &mut Vec<u64>, place: usize, such: bool)
    ensures places { length counts.new.items ≡ length counts.old.items }
    ensures counted { counts.new.items ≡ counted_at counts.old.items place such }
{
    if such && place < counts.len() {
        counts[place] = counts[place].saturating_add(1);
    }
}

/// Whether an instruction is a tick that finds a unit, where so many are left.
pub fn spends(instr: Instr, units: u32) -> bool
    ensures { result ≡ spends instr units }
{
    matches!(instr, Instr::Tick(_)) && units > 0
}

// Whether a test is answered yes, of which this is the number.
fn says_yes(instr: Instr, top: Option<i32>) -> bool
    ensures { (operands : List ℤ) → top ≡ slice_get operands 0 → result ≡ says_yes instr operands }
{
    let Some(value) = top else {
        return false;
    };
    matches!(instr, Instr::JumpZero(_)) && value != 0
}

// Whether a test is answered no, of which this is the number.
fn says_no(instr: Instr, top: Option<i32>) -> bool
    ensures { (operands : List ℤ) → top ≡ slice_get operands 0 → result ≡ says_no instr operands }
{
    let Some(value) = top else {
        return false;
    };
    matches!(instr, Instr::JumpZero(_)) && value == 0
}

// No count is left.
fn clear(counts: &mut Vec<u64>)
    ensures { counts.new.items ≡ replicate (length counts.old.items) 0 }
{
    counts.fill(0);
}

/// Adds the count at each place. A sum that has come to 18,446,744,073,709,551,615 stays there.
pub fn add_counts(totals: &mut Vec<u64>, counts: &[u64])
    ensures places { length totals.new.items ≡ length totals.old.items }
    ensures added { (place : ℕ) → place < length totals.old.items → slice_index_or totals.new.items place 0
        ≡ min most_counted (slice_index_or totals.old.items place 0 + slice_index_or counts.now place 0) }
{
    for place in 0..totals.len() {
        totals[place] = totals[place].saturating_add(at(counts, place));
    }
}

// So many counts of 0.
fn zeros(alloc: Global, places: usize) -> Result<Vec<u64>, AllocError>
    ensures { IfOk result (λ counts. counts.items ≡ replicate places 0) }
{
    vec![in alloc; 0; places]
}

// The count at a place; 0 outside of the code.
fn at(counts: &[u64], place: usize) -> u64
    ensures { result ≡ slice_index_or counts.now place 0 }
{
    match counts.get(place) {
        Some(count) => *count,
        None => 0,
    }
}

impl Counts {
    /// Nothing is counted yet, for a code of so many instructions.
    pub fn new(alloc: Global, places: usize) -> Result<Counts, AllocError>
        ensures places { IfOk result (λ c. HasPlaces c places) }
        ensures none { IfOk result (λ c. HasCounted c []) }
    {
        let begun = zeros(alloc, places)?;
        let yes = zeros(alloc, places)?;
        let no = zeros(alloc, places)?;
        Ok(Counts { begun, yes, no })
    }

    /// Nothing is counted any more.
    pub fn clear(&mut self)
        ensures places { (places : ℕ) → HasPlaces self.old places → HasPlaces self.new places }
        ensures none { HasCounted self.new [] }
    {
        clear(&mut self.begun);
        clear(&mut self.yes);
        clear(&mut self.no);
    }

    /// What another one counted at the same places is counted too.
    pub fn add(&mut self, other: &Counts)
        ensures places { (places : ℕ) → HasPlaces self.old places → HasPlaces self.new places }
        ensures added { (places : ℕ) → HasPlaces self.old places → HasPlaces other.now places → (sights more : List Sight) →
            HasCounted self.old sights → HasCounted other.now more → HasCounted self.new (sights ++ more) }
    {
        add_counts(&mut self.begun, &other.begun);
        add_counts(&mut self.yes, &other.yes);
        add_counts(&mut self.no, &other.no);
    }

    /// How often a statement began at a place; 0 outside of the code.
    pub fn begun(&self, place: usize) -> u64
        ensures { result ≡ slice_index_or self.now.begun.items place 0 }
    {
        at(&self.begun, place)
    }

    /// How often a test was answered yes at a place; 0 outside of the code.
    pub fn yes(&self, place: usize) -> u64
        ensures { result ≡ slice_index_or self.now.yes.items place 0 }
    {
        at(&self.yes, place)
    }

    /// How often a test was answered no at a place; 0 outside of the code.
    pub fn no(&self, place: usize) -> u64
        ensures { result ≡ slice_index_or self.now.no.items place 0 }
    {
        at(&self.no, place)
    }
}

impl Observer for Counts {
    ghost use Rattle.trace_watch.specs.Counted.{HasLooked};

    ghost saw = { HasLooked };

    fn look(&mut self, instr: Instr, head: &Head, machine: &Machine) {
        let sight = Sight::of(instr, head, machine);
        let place = sight.place();
        let top = sight.operand(0);
        count(&mut self.begun, place, spends(instr, sight.units()));
        count(&mut self.yes, place, says_yes(instr, top));
        count(&mut self.no, place, says_no(instr, top));
    }
}
