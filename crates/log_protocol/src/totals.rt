// What came in several parts of a record, put together from a page of each.
ghost use Rattle.std.specs.Prelude.{◌≡◌, ℕ, ◌+◌, ◌*◌, ◌<◌, ◌≤◌, ◌++◌, ◌∷◌, [], List, IfOk, length, replicate};
ghost use Rattle.log_judge.specs.Came.{none_yet, runs_at};
ghost use Rattle.log_protocol.specs.Steps.{no_second, together_at};
ghost use Rattle.log_protocol.specs.Joined.{is_later_shortest, joined, joined_greens};

use crate::page::Page;
use crate::together::Together;
use log_judge::{Extremes, Kind, Protocol};
use sig_types::{GroupNo, Memory};
use std::alloc::{AllocError, Global};

/// What came in the parts that are over. They keep a few numbers of each group and of each two groups, however many parts there are.
#[derive(Drop)]
pub struct Totals {
    greens: [Extremes; 64],
    reds: [Extremes; 64],
    red_ambers: [Extremes; 64],
    ambers: [Extremes; 64],
    changes: Vec<Extremes>,
    together: Vec<Together>,
    ghost changes_sized: { length changes.items ≡ 4096 },
    ghost together_sized: { length together.items ≡ 4096 },
}

const NONE: Extremes = Extremes {
    count: 0,
    least: 0,
    second: 0,
    most: 0,
};

const NO_TICK: Together = Together {
    seconds: 0,
    first: 0,
};

// Whether the shortest is one of the later ones.
fn is_later_shortest(came: Extremes, later: Extremes) -> bool
    ensures { result ≡ is_later_shortest came later }
{
    later.count != 0 && (came.count == 0 || later.least < came.least)
}

/// What came, and behind it what came in a part that begins with this tick.
pub fn joined(came: Extremes, first: u32, later: Extremes) -> Extremes
    ensures { result ≡ joined came first later }
{
    let shortest = is_later_shortest(came, later);
    Extremes {
        count: came.count.saturating_add(later.count),
        least: if shortest { later.least } else { came.least },
        second: if shortest {
            first.saturating_add(later.second)
        } else {
            came.second
        },
        most: came.most.max(later.most),
    }
}

// So of the ticks in which two groups were green together.
fn joined_greens(greens: Together, first: u32, later: Together) -> Together
    ensures { result ≡ joined_greens greens first later }
{
    Together {
        seconds: greens.seconds.saturating_add(later.seconds),
        first: if greens.seconds == 0 && later.seconds != 0 {
            first.saturating_add(later.first)
        } else {
            greens.first
        },
    }
}

// Puts what came in a part behind what came before, of each group.
fn join_runs(runs: &mut [Extremes], first: u32, later: &[Extremes])
    requires size { length runs.old ≡ 64 }
    requires later { length later.now ≡ 64 }
    ensures size { length runs.new ≡ length runs.old }
    ensures each { (q : ℕ) → q < 64 → runs_at runs.new q ≡ joined (runs_at runs.old q) first (runs_at later.now q) }
{
    for q in 0..64usize {
        runs[q] = joined(runs[q], first, later[q]);
    }
}

// So of the changes of each two groups.
fn join_changes(changes: &mut Vec<Extremes>, first: u32, protocol: &Protocol)
    requires { length changes.old.items ≡ 4096 }
    ensures size { length changes.new.items ≡ length changes.old.items }
    ensures each { (q : ℕ) → q < 4096 →
        runs_at changes.new.items q ≡ joined (runs_at changes.old.items q) first (runs_at protocol.now.pairs.items q) }
{
    for q in 0..4096usize {
        let later = protocol.pair(GroupNo((q % 64) as u8), GroupNo((q / 64) as u8));
        changes[q] = joined(changes[q], first, later);
    }
}

// So of the ticks in which each two groups were green together.
fn join_greens(greens: &mut Vec<Together>, first: u32, later: &Vec<Together>)
    requires size { length greens.old.items ≡ 4096 }
    requires later { length later.now.items ≡ 4096 }
    ensures size { length greens.new.items ≡ length greens.old.items }
    ensures each { (q : ℕ) → q < 4096 →
        together_at greens.new.items q ≡ joined_greens (together_at greens.old.items q) first (together_at later.now.items q) }
{
    for q in 0..4096usize {
        greens[q] = joined_greens(greens[q], first, later[q]);
    }
}

// Of each two groups no change.
fn no_changes(alloc: Global) -> Result<Vec<Extremes>, Memory>
    ensures { IfOk result (λ v. v.items ≡ replicate 4096 none_yet) }
{
    let changes: Result<Vec<Extremes>, AllocError> = vec![in alloc; NONE; 4096];
    match changes {
        Ok(changes) => Ok(changes),
        Err(_) => Err(Memory),
    }
}

// Of each two groups no tick in which they were green together.
fn no_greens(alloc: Global) -> Result<Vec<Together>, Memory>
    ensures { IfOk result (λ v. v.items ≡ replicate 4096 no_second) }
{
    let together: Result<Vec<Together>, AllocError> = vec![in alloc; NO_TICK; 4096];
    match together {
        Ok(together) => Ok(together),
        Err(_) => Err(Memory),
    }
}

impl Totals {
    ghost use Rattle.sig_types.specs.Turns.{History};
    ghost use Rattle.tenth_records.specs.Parts.{Part};
    ghost use Rattle.log_protocol.specs.Page.{IsPageOf, groups_of, seconds_of};
    ghost use Rattle.log_protocol.specs.Parts.{known_in};
    ghost use Rattle.log_protocol.specs.Totals.{AreTotalsOf, came_at};

    /// The totals of no part. They take all the memory that they need.
    pub fn new(alloc: Global) -> Result<Totals, Memory>
        ensures { IfOk result (λ totals. (n : ℕ) → n ≤ 64 → AreTotalsOf totals n []) }
    {
        let changes = no_changes(alloc)?;
        let together = no_greens(alloc)?;
        Ok(Totals {
            greens: [NONE; 64],
            reds: [NONE; 64],
            red_ambers: [NONE; 64],
            ambers: [NONE; 64],
            changes,
            together,
        })
    }

    /// Puts the page of a part that is over behind them. The part begins with this tick.
    pub fn add(&mut self, page: &Page, first: u32)
        requires few { groups_of page.now ≤ 64 }
        requires room { first + seconds_of page.now < 4294967296 }
        ensures { (parts : List Part) (pictures : History) → AreTotalsOf self.old (groups_of page.now) parts → IsPageOf page.now pictures →
            known_in parts + length pictures ≤ 6048002 →
            AreTotalsOf self.new (groups_of page.now) (parts ++ record { first = first; pictures = pictures } ∷ []) }
    {
        join_runs(&mut self.greens, first, &page.protocol.greens);
        join_runs(&mut self.reds, first, &page.protocol.reds);
        join_runs(&mut self.red_ambers, first, &page.protocol.red_ambers);
        join_runs(&mut self.ambers, first, &page.protocol.ambers);
        join_changes(&mut self.changes, first, &page.protocol);
        join_greens(&mut self.together, first, &page.together);
    }

    /// What came of a group.
    #[tactic(auto, unfolding(crate::specs::Totals::came_at))]
    pub fn runs(&self, kind: Kind, g: GroupNo) -> Extremes
        requires { g.0 < 64 }
        ensures { result ≡ (came_at self.now).runs kind g.0 }
    {
        let place = g.0 as usize;
        match kind {
            Kind::Green => self.greens[place],
            Kind::Red => self.reds[place],
            Kind::RedAmber => self.red_ambers[place],
            Kind::Amber => self.ambers[place],
        }
    }

    /// The changes to a group that turns green from one that ended.
    #[tactic(auto, unfolding(crate::specs::Totals::came_at))]
    pub fn changes(&self, to: GroupNo, from: GroupNo) -> Extremes
        requires to { to.0 < 64 }
        requires from { from.0 < 64 }
        ensures { result ≡ (came_at self.now).changes to.0 from.0 }
    {
        self.changes[64 * to.0 as usize + from.0 as usize]
    }

    /// The ticks in which two groups were green together.
    #[tactic(auto, unfolding(crate::specs::Totals::came_at))]
    pub fn greens(&self, one: GroupNo, other: GroupNo) -> Together
        requires one { one.0 < 64 }
        requires other { other.0 < 64 }
        ensures { result ≡ (came_at self.now).greens one.0 other.0 }
    {
        self.together[64 * one.0 as usize + other.0 as usize]
    }
}
