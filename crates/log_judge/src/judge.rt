// A judge of pictures, second by second.
ghost use Rattle.std.specs.Prelude.{◌≡◌, ℕ, ◌+◌, ◌-◌, ◌<◌, ◌≤◌, ◌&&◌, ◌++◌, ◌∷◌, [], List, not, true, false, length, replicate, slice_index_or, Option, Some, IfSome, OnOk, IfOk};
ghost use Rattle.std.specs.Option.{ForSome};
ghost use Rattle.sig_types.specs.FirstRefused.{when};
ghost use Rattle.sig_types.specs.Turns.{History, shown, trace, is_on as is_on_spec};
ghost use Rattle.sig_tables.specs.SiteRules.{rules_of};
ghost use Rattle.sig_tables.specs.TimesTable.{row_of};
ghost use Rattle.log_judge.specs.Breaches.{listed, gather, of_pairs, breaches_after, last_breaches, can_follow as can_follow_spec, is_known as is_known_spec, no};
ghost use Rattle.log_judge.specs.Explained.{ended_now};
ghost use Rattle.log_judge.specs.Opening.{soon_before as soon_before_spec, too_soon_after};
ghost use Rattle.log_judge.specs.Found.{opening_now, hidden_found, PastFits, past_at, next_past as next_past_spec, sequence_found, green_found, red_found, conflict_found, intergreen_found, running_found, pending_found};

use crate::breach::Breach;
use crate::find::{
    Terms, amber_from, can_follow, green_from, is_known, is_red_amber, long, other_time,
    red_amber_from, red_from, short, too_soon, turns_green,
};
use crate::opening::{
    Latest, Opening, ended_before, green_before, green_behind, is_amber, soon_after,
};
use crate::past::{GroupPast, last_end_with, next_past};
use sig_guard::{is_on, same_aspect};
use sig_tables::Limits;
use sig_types::{Aspect, GroupNo, Memory, Picture};

/// A judge after so many pictures: the last one, and a few numbers of each group.
#[derive(Drop)]
pub struct Judge {
    pub(crate) terms: Terms,
    seconds: u32,
    picture: Picture,
    first: Picture,
    pasts: [GroupPast; 64],
    ghost sized: { length pasts ≡ 64 },
    ghost groups_at_most: { length picture ≤ 64 },
    ghost same_groups: { length first ≡ length picture },
    ghost at_most: { seconds ≤ 6048002 },
    ghost tolerance_at_most: { terms.tolerance ≤ 90 },
    ghost fit: { (g : ℕ) → g < length picture → PastFits (past_at pasts g) seconds },
}

fn put(out: &mut Vec<Breach>, found: Option<Breach>) -> Result<(), Memory>
    ensures { OnOk result (out.new.items ≡ out.old.items ++ listed found) }
{
    match found {
        None => Ok(()),
        Some(breach) => match out.push(breach) {
            Ok(()) => Ok(()),
            Err(_) => Err(Memory),
        },
    }
}

// Whether each group shows what it showed; a `true` is certain. All places are asked, whatever the first ones show, so that many are
// asked at a time.
fn all_stay(last: &Picture, picture: &Picture) -> bool
    requires { length picture.now ≡ length last.now }
    ensures { result ≡ true → (g : ℕ) → g < length last.now → shown picture.now g ≡ shown last.now g }
{
    let (before, after) = (last.places(), picture.places());
    let mut others: u8 = 0;
    for place in 0..64usize {
        others += u8::from(!same_aspect(before[place], after[place]));
    }
    others == 0
}

// Whether both groups are red-amber or green in the picture.
fn both_on(picture: &Picture, g: u8, i: u8) -> bool
    requires group { g < length picture.now }
    requires other { i < length picture.now }
    ensures { result ≡ (is_on_spec (shown picture.now g) && is_on_spec (shown picture.now i)) }
{
    is_on(picture.get(g)) && is_on(picture.get(i))
}

fn step_breach(g: u8, was: Aspect, is: Aspect, now: u32) -> Option<Breach>
    ensures { result ≡ when (not (can_follow_spec was is)) (Breach.Step now (no g) was is) }
{
    if can_follow(was, is) {
        return None;
    }
    Some(Breach::Step {
        second: now,
        group: GroupNo(g),
        was,
        is,
    })
}

impl Judge {
    ghost use Rattle.log_judge.specs.Stands.{terms_of, groups_of, seconds_of};

    /// The number of pictures that it knows, which is the place of the next one.
    #[tactic(auto, unfolding(crate::specs::Stands::seconds_of))]
    pub fn seconds(&self) -> u32
        ensures seconds { result ≡ seconds_of self.now }
        ensures shown { result ≡ self.now.seconds }
        ensures at_most { result ≤ 6048002 }
    {
        self.seconds
    }

    /// Whether it began at rest.
    pub fn rested(&self) -> bool {
        self.terms.rested
    }

    /// What a group showed last.
    #[tactic(auto, unfolding(crate::specs::Stands::groups_of))]
    pub fn aspect(&self, g: u8) -> Aspect
        requires { g < groups_of self.now }
        ensures { result ≡ shown self.now.picture g }
    {
        self.picture.get(g)
    }

    /// The first second of what the group showed last, as far as the log shows it.
    #[tactic(auto, unfolding(crate::specs::Stands::groups_of))]
    pub fn since(&self, g: u8) -> u32
        requires { g < groups_of self.now }
        ensures since { result ≡ (past_at self.now.pasts g).since }
        ensures at_most { result ≤ 6048002 }
    {
        self.pasts[g as usize].since
    }

    /// The first second of those in which the group has been red-amber or green up to the last one.
    #[tactic(auto, unfolding(crate::specs::Stands::groups_of))]
    pub fn on_since(&self, g: u8) -> u32
        requires { g < groups_of self.now }
        ensures on_since { result ≡ (past_at self.now.pasts g).on_since }
        ensures at_most { result ≤ 6048002 }
    {
        self.pasts[g as usize].on_since
    }

    /// Whether what the group showed last is known to have begun in its first second.
    #[tactic(auto, unfolding(crate::specs::Stands::groups_of))]
    pub fn is_begun(&self, g: u8) -> bool
        requires { g < groups_of self.now }
        ensures { result ≡ is_known_spec self.now.terms (past_at self.now.pasts g).since }
    {
        is_known(self.terms, self.since(g))
    }

    /// The last end of a group up to the last picture.
    #[tactic(auto, unfolding(crate::specs::Stands::groups_of))]
    pub fn last_end(&self, g: u8) -> Option<u32>
        requires { g < groups_of self.now }
        ensures last_end { result ≡ (past_at self.now.pasts g).last_end }
        ensures at_most { ForSome result (λ b. b ≤ 6048002) }
    {
        self.pasts[g as usize].last_end
    }

    /// The last end of a group where the next second shows the picture.
    #[tactic(auto, unfolding(crate::specs::Stands::groups_of))]
    pub fn last_end_with(&self, picture: &Picture, i: u8) -> Option<u32>
        requires group { i < groups_of self.now }
        requires size { length picture.now ≡ groups_of self.now }
        ensures last_end { result ≡ ended_now self.now.seconds self.now.picture self.now.pasts picture.now i }
        ensures at_most { ForSome result (λ b. b ≤ 6048002) }
    {
        last_end_with(
            self.seconds,
            self.aspect(i),
            picture.get(i),
            self.last_end(i),
        )
    }

    #[tactic(auto, unfolding(crate::specs::Stands::groups_of))]
    fn find_sequence(
        &self,
        limits: &Limits<'_>,
        picture: &Picture,
        g: u8,
        out: &mut Vec<Breach>,
    ) -> Result<(), Memory>
        requires group { g < groups_of self.now }
        requires times { length limits.now.times ≡ groups_of self.now }
        requires intergreens { limits.now.pairs.count ≡ groups_of self.now }
        requires picture { length picture.now ≡ groups_of self.now }
        ensures { OnOk result (out.new.items ≡ out.old.items ++ sequence_found (row_of limits.now.times g) self.now.terms self.now.seconds g
            (shown self.now.picture g) (shown picture.now g) (past_at self.now.pasts g).since) }
    {
        let (was, is, now, since) = (
            self.picture.get(g),
            picture.get(g),
            self.seconds,
            self.since(g),
        );
        put(out, step_breach(g, was, is, now))?;
        let red_amber = limits.red_amber(GroupNo(g));
        put(
            out,
            other_time(
                self.terms,
                g,
                Aspect::RedAmber,
                now,
                red_amber,
                red_amber_from(was, is, since, now),
            ),
        )?;
        let amber = limits.amber(GroupNo(g));
        put(
            out,
            other_time(
                self.terms,
                g,
                Aspect::Amber,
                now,
                amber,
                amber_from(was, is, since, now),
            ),
        )
    }

    #[tactic(auto, unfolding(crate::specs::Stands::groups_of))]
    fn green_breach(&self, limits: &Limits<'_>, picture: &Picture, g: u8) -> Option<Breach>
        requires group { g < groups_of self.now }
        requires times { length limits.now.times ≡ groups_of self.now }
        requires intergreens { limits.now.pairs.count ≡ groups_of self.now }
        requires picture { length picture.now ≡ groups_of self.now }
        ensures { result ≡ green_found (row_of limits.now.times g) self.now.terms self.now.seconds g
            (shown self.now.picture g) (shown picture.now g) (past_at self.now.pasts g).since }
    {
        let from = green_from(self.picture.get(g), picture.get(g), self.since(g));
        let least = limits.min(GroupNo(g));
        short(self.terms, g, Aspect::Green, self.seconds, least, from)
    }

    #[tactic(auto, unfolding(crate::specs::Stands::groups_of))]
    fn red_breach(&self, limits: &Limits<'_>, picture: &Picture, g: u8) -> Option<Breach>
        requires group { g < groups_of self.now }
        requires times { length limits.now.times ≡ groups_of self.now }
        requires intergreens { limits.now.pairs.count ≡ groups_of self.now }
        requires picture { length picture.now ≡ groups_of self.now }
        ensures { result ≡ red_found (row_of limits.now.times g) self.now.terms self.now.seconds g
            (shown self.now.picture g) (shown picture.now g) (past_at self.now.pasts g).since }
    {
        let from = red_from(self.picture.get(g), picture.get(g), self.since(g));
        let least = limits.min_red(GroupNo(g));
        short(self.terms, g, Aspect::Red, self.seconds, least, from)
    }

    #[tactic(auto, unfolding(crate::specs::Stands::groups_of))]
    fn running_breach(&self, limits: &Limits<'_>, g: u8) -> Option<Breach>
        requires group { g < groups_of self.now }
        requires times { length limits.now.times ≡ groups_of self.now }
        requires intergreens { limits.now.pairs.count ≡ groups_of self.now }
        ensures { result ≡ running_found (row_of limits.now.times g) self.now.terms self.now.seconds g
            (shown self.now.picture g) (past_at self.now.pasts g).since }
    {
        let since = self.since(g);
        match self.picture.get(g) {
            Aspect::RedAmber => {
                let most = limits.red_amber(GroupNo(g));
                long(
                    self.terms,
                    g,
                    Aspect::RedAmber,
                    self.seconds,
                    most,
                    Some(since),
                )
            }
            Aspect::Amber => {
                let most = limits.amber(GroupNo(g));
                long(
                    self.terms,
                    g,
                    Aspect::Amber,
                    self.seconds,
                    most,
                    Some(since),
                )
            }
            Aspect::Red => None,
            Aspect::Green => None,
        }
    }

    // A conflict that is over, or at the end of the log, where `over` is so.
    #[tactic(auto, unfolding(crate::specs::Stands::groups_of))]
    fn conflict_breach(&self, limits: &Limits<'_>, over: bool, g: u8, i: u8) -> Option<Breach>
        requires group { g < groups_of self.now }
        requires other { i < groups_of self.now }
        requires intergreens { limits.now.pairs.count ≡ groups_of self.now }
        ensures { result ≡ conflict_found (rules_of limits.now.times limits.now.pairs) self.now.seconds over self.now.picture self.now.pasts g i }
    {
        let listed = g < i
            && (limits.between(GroupNo(g), GroupNo(i)).is_some()
                || limits.between(GroupNo(i), GroupNo(g)).is_some());
        if listed && (is_on(self.picture.get(g)) && is_on(self.picture.get(i))) && over {
            return Some(Breach::Conflict {
                second: self.seconds,
                group: GroupNo(g),
                other: GroupNo(i),
                since: self.on_since(g).max(self.on_since(i)),
            });
        }
        None
    }

    #[tactic(auto, unfolding(crate::specs::Stands::groups_of))]
    fn intergreen_breach(
        &self,
        limits: &Limits<'_>,
        picture: &Picture,
        g: u8,
        i: u8,
    ) -> Option<Breach>
        requires group { g < groups_of self.now }
        requires other { i < groups_of self.now }
        requires picture { length picture.now ≡ groups_of self.now }
        requires intergreens { limits.now.pairs.count ≡ groups_of self.now }
        ensures { result ≡ intergreen_found (rules_of limits.now.times limits.now.pairs) self.now.seconds self.now.picture self.now.pasts picture.now g i }
    {
        if !turns_green(self.picture.get(g), picture.get(g)) {
            return None;
        }
        let ended = last_end_with(
            self.seconds,
            self.picture.get(i),
            picture.get(i),
            self.last_end(i),
        );
        let between = limits.between(GroupNo(i), GroupNo(g));
        too_soon(g, i, self.seconds, between, ended)
    }

    // A green that is still to come at the end of the log, and comes too soon even after the longest red-amber.
    #[tactic(auto, unfolding(crate::specs::Stands::groups_of))]
    fn pending_breach(&self, limits: &Limits<'_>, g: u8, i: u8) -> Option<Breach>
        requires group { g < groups_of self.now }
        requires other { i < groups_of self.now }
        requires times { length limits.now.times ≡ groups_of self.now }
        requires intergreens { limits.now.pairs.count ≡ groups_of self.now }
        ensures { result ≡ pending_found (rules_of limits.now.times limits.now.pairs) self.now.terms self.now.seconds self.now.picture self.now.pasts g i }
    {
        if !is_red_amber(self.picture.get(g)) {
            return None;
        }
        let red_amber = limits.red_amber(GroupNo(g));
        let due = (self.since(g) + red_amber + self.terms.tolerance).max(self.seconds);
        let between = limits.between(GroupNo(i), GroupNo(g));
        too_soon(g, i, due, between, self.last_end(i))
    }
}

// What the beginning hides.
impl Judge {
    ghost use Rattle.log_judge.specs.Stands.{groups_of};

    // How a group began.
    #[tactic(auto, unfolding(crate::specs::Stands::groups_of))]
    fn opening(&self, limits: &Limits<'_>, g: u8) -> Opening
        requires group { g < groups_of self.now }
        requires times { length limits.now.times ≡ groups_of self.now }
        requires intergreens { limits.now.pairs.count ≡ groups_of self.now }
        ensures opening { result ≡ opening_now (rules_of limits.now.times limits.now.pairs) self.now.terms self.now.seconds self.now.first self.now.picture
            self.now.pasts g }
        ensures over { ForSome result.over (λ t. t ≤ 6048002) }
        ensures green { ForSome result.green (λ t. t ≤ 6048002) }
        ensures due { ForSome result.due (λ t. t ≤ 6050642) }
    {
        let past = self.pasts[g as usize];
        let red_amber = limits.red_amber(GroupNo(g));
        let latest = (past.since + red_amber + self.terms.tolerance).max(self.seconds);
        Opening {
            first: self.first.get(g),
            over: past.over,
            green: past.green,
            due: if is_red_amber(self.picture.get(g)) {
                Some(latest)
            } else {
                None
            },
        }
    }

    // A green of a group that came too soon after the end before second 0 of another one with this opening.
    #[tactic(auto, unfolding(crate::specs::Stands::groups_of))]
    fn soon_after(
        &self,
        limits: &Limits<'_>,
        g: u8,
        i: u8,
        green: Option<Latest>,
        other: Opening,
    ) -> Option<Breach>
        requires group { g < groups_of self.now }
        requires other_group { i < groups_of self.now }
        requires times { length limits.now.times ≡ groups_of self.now }
        requires intergreens { limits.now.pairs.count ≡ groups_of self.now }
        requires second { ForSome green (λ x. x.second ≤ 6050642) }
        requires before { ForSome green (λ x. x.before ≤ 5100) }
        ensures { result ≡ too_soon_after (rules_of limits.now.times limits.now.pairs) self.now.terms g i self.now.seconds green other
            ((rules_of limits.now.times limits.now.pairs).between i g) }
    {
        match limits.between(GroupNo(i), GroupNo(g)) {
            None => None,
            Some(between) => {
                let red_amber = limits.red_amber(GroupNo(g));
                let least = u32::from(between).max(red_amber.saturating_sub(self.terms.tolerance));
                let most = limits.amber(GroupNo(i)) + self.terms.tolerance;
                soon_after(g, i, least, green, ended_before(most, other, self.seconds))
            }
        }
    }

    // The green before second 0 of a group with this opening came too soon.
    #[tactic(auto, unfolding(crate::specs::Stands::groups_of))]
    fn soon_before(
        &self,
        limits: &Limits<'_>,
        g: u8,
        i: u8,
        own: Opening,
        other: Opening,
    ) -> Option<Breach>
        requires group { g < groups_of self.now }
        requires other_group { i < groups_of self.now }
        requires times { length limits.now.times ≡ groups_of self.now }
        requires intergreens { limits.now.pairs.count ≡ groups_of self.now }
        ensures { result ≡ soon_before_spec (rules_of limits.now.times limits.now.pairs) self.now.terms g i self.now.seconds own other }
    {
        let minimum = limits.min(GroupNo(g));
        let amber = limits
            .amber(GroupNo(g))
            .saturating_sub(self.terms.tolerance);
        let green = green_before(minimum, amber, own.over, own.first);
        self.soon_after(limits, g, i, green, other)
    }

    // An intergreen that the log cannot have kept, from an end before it.
    #[tactic(auto, unfolding(crate::specs::Stands::groups_of))]
    fn hidden_breach(&self, limits: &Limits<'_>, g: u8, i: u8) -> Option<Breach>
        requires group { g < groups_of self.now }
        requires other { i < groups_of self.now }
        requires times { length limits.now.times ≡ groups_of self.now }
        requires intergreens { limits.now.pairs.count ≡ groups_of self.now }
        ensures { result ≡ hidden_found (rules_of limits.now.times limits.now.pairs) self.now.terms self.now.seconds self.now.first self.now.picture
            self.now.pasts g i }
    {
        if self.terms.rested {
            return None;
        }
        let own = self.opening(limits, g);
        let other = self.opening(limits, i);
        let behind = !is_amber(own.first)
            || (g < i && self.soon_before(limits, i, g, other, own).is_some());
        if behind {
            let before = self.soon_before(limits, g, i, own, other);
            if before.is_some() {
                return before;
            }
        }
        let green = green_behind(own.green, own.due);
        self.soon_after(limits, g, i, green, other)
    }
}

// The lists of all groups, and of all pairs.
impl Judge {
    ghost use Rattle.log_judge.specs.Stands.{StandsFor, terms_of, groups_of, seconds_of};

    #[tactic(auto, unfolding(crate::specs::Stands::groups_of))]
    fn find_sequences(
        &self,
        limits: &Limits<'_>,
        picture: &Picture,
        out: &mut Vec<Breach>,
    ) -> Result<(), Memory>
        requires times { length limits.now.times ≡ groups_of self.now }
        requires intergreens { limits.now.pairs.count ≡ groups_of self.now }
        requires picture { length picture.now ≡ groups_of self.now }
        ensures { OnOk result (out.new.items ≡ out.old.items ++ gather (λ g. sequence_found (row_of limits.now.times g) self.now.terms self.now.seconds g
            (shown self.now.picture g) (shown picture.now g) (past_at self.now.pasts g).since) (length picture.now)) }
    {
        for g in 0..picture.len() {
            self.find_sequence(limits, picture, g, out)?;
        }
        Ok(())
    }

    #[tactic(auto, unfolding(crate::specs::Stands::groups_of))]
    fn find_greens(
        &self,
        limits: &Limits<'_>,
        picture: &Picture,
        out: &mut Vec<Breach>,
    ) -> Result<(), Memory>
        requires times { length limits.now.times ≡ groups_of self.now }
        requires intergreens { limits.now.pairs.count ≡ groups_of self.now }
        requires picture { length picture.now ≡ groups_of self.now }
        ensures { OnOk result (out.new.items ≡ out.old.items ++ gather (λ g. listed (green_found (row_of limits.now.times g) self.now.terms self.now.seconds g
            (shown self.now.picture g) (shown picture.now g) (past_at self.now.pasts g).since)) (length picture.now)) }
    {
        for g in 0..picture.len() {
            put(out, self.green_breach(limits, picture, g))?;
        }
        Ok(())
    }

    #[tactic(auto, unfolding(crate::specs::Stands::groups_of))]
    fn find_reds(
        &self,
        limits: &Limits<'_>,
        picture: &Picture,
        out: &mut Vec<Breach>,
    ) -> Result<(), Memory>
        requires times { length limits.now.times ≡ groups_of self.now }
        requires intergreens { limits.now.pairs.count ≡ groups_of self.now }
        requires picture { length picture.now ≡ groups_of self.now }
        ensures { OnOk result (out.new.items ≡ out.old.items ++ gather (λ g. listed (red_found (row_of limits.now.times g) self.now.terms self.now.seconds g
            (shown self.now.picture g) (shown picture.now g) (past_at self.now.pasts g).since)) (length picture.now)) }
    {
        for g in 0..picture.len() {
            put(out, self.red_breach(limits, picture, g))?;
        }
        Ok(())
    }

    #[tactic(auto, unfolding(crate::specs::Stands::groups_of))]
    fn find_running(&self, limits: &Limits<'_>, out: &mut Vec<Breach>) -> Result<(), Memory>
        requires times { length limits.now.times ≡ groups_of self.now }
        requires intergreens { limits.now.pairs.count ≡ groups_of self.now }
        ensures { OnOk result (out.new.items ≡ out.old.items ++ gather (λ g. listed (running_found (row_of limits.now.times g) self.now.terms self.now.seconds g
            (shown self.now.picture g) (past_at self.now.pasts g).since)) (length self.now.picture)) }
    {
        for g in 0..self.picture.len() {
            put(out, self.running_breach(limits, g))?;
        }
        Ok(())
    }

    // The conflicts of a group that are over with the picture.
    #[tactic(auto, unfolding(crate::specs::Stands::groups_of))]
    fn find_conflicts_of(
        &self,
        limits: &Limits<'_>,
        picture: &Picture,
        g: u8,
        out: &mut Vec<Breach>,
    ) -> Result<(), Memory>
        requires group { g < groups_of self.now }
        requires picture { length picture.now ≡ groups_of self.now }
        requires intergreens { limits.now.pairs.count ≡ groups_of self.now }
        ensures { OnOk result (out.new.items ≡ out.old.items ++ gather (λ i. listed (conflict_found (rules_of limits.now.times limits.now.pairs) self.now.seconds
            (not (is_on_spec (shown picture.now g) && is_on_spec (shown picture.now i))) self.now.picture self.now.pasts g i)) (length picture.now)) }
    {
        if !is_on(self.picture.get(g)) {
            return Ok(());
        }
        for i in 0..picture.len() {
            let over = !both_on(picture, g, i);
            put(out, self.conflict_breach(limits, over, g, i))?;
        }
        Ok(())
    }

    #[tactic(auto, unfolding(crate::specs::Stands::groups_of))]
    fn find_conflicts(
        &self,
        limits: &Limits<'_>,
        picture: &Picture,
        out: &mut Vec<Breach>,
    ) -> Result<(), Memory>
        requires picture { length picture.now ≡ groups_of self.now }
        requires intergreens { limits.now.pairs.count ≡ groups_of self.now }
        ensures { OnOk result (out.new.items ≡ out.old.items ++ of_pairs (λ g i. conflict_found (rules_of limits.now.times limits.now.pairs) self.now.seconds
            (not (is_on_spec (shown picture.now g) && is_on_spec (shown picture.now i))) self.now.picture self.now.pasts g i) (length picture.now)) }
    {
        for g in 0..picture.len() {
            self.find_conflicts_of(limits, picture, g, out)?;
        }
        Ok(())
    }

    // The conflicts of a group that go on at the end.
    #[tactic(auto, unfolding(crate::specs::Stands::groups_of))]
    fn find_last_conflicts_of(
        &self,
        limits: &Limits<'_>,
        g: u8,
        out: &mut Vec<Breach>,
    ) -> Result<(), Memory>
        requires group { g < groups_of self.now }
        requires intergreens { limits.now.pairs.count ≡ groups_of self.now }
        ensures { OnOk result (out.new.items ≡ out.old.items ++ gather (λ i. listed (conflict_found (rules_of limits.now.times limits.now.pairs) self.now.seconds
            true self.now.picture self.now.pasts g i)) (length self.now.picture)) }
    {
        if !is_on(self.picture.get(g)) {
            return Ok(());
        }
        for i in 0..self.picture.len() {
            put(out, self.conflict_breach(limits, true, g, i))?;
        }
        Ok(())
    }

    #[tactic(auto, unfolding(crate::specs::Stands::groups_of))]
    fn find_last_conflicts(&self, limits: &Limits<'_>, out: &mut Vec<Breach>) -> Result<(), Memory>
        requires intergreens { limits.now.pairs.count ≡ groups_of self.now }
        ensures { OnOk result (out.new.items ≡ out.old.items ++ of_pairs (λ g i. conflict_found (rules_of limits.now.times limits.now.pairs) self.now.seconds
            true self.now.picture self.now.pasts g i) (length self.now.picture)) }
    {
        for g in 0..self.picture.len() {
            self.find_last_conflicts_of(limits, g, out)?;
        }
        Ok(())
    }

    #[tactic(auto, unfolding(crate::specs::Stands::groups_of))]
    fn find_intergreens_of(
        &self,
        limits: &Limits<'_>,
        picture: &Picture,
        g: u8,
        out: &mut Vec<Breach>,
    ) -> Result<(), Memory>
        requires group { g < groups_of self.now }
        requires picture { length picture.now ≡ groups_of self.now }
        requires intergreens { limits.now.pairs.count ≡ groups_of self.now }
        ensures { OnOk result (out.new.items ≡ out.old.items ++ gather (λ i. listed (intergreen_found (rules_of limits.now.times limits.now.pairs) self.now.seconds
            self.now.picture self.now.pasts picture.now g i)) (length picture.now)) }
    {
        if !turns_green(self.picture.get(g), picture.get(g)) {
            return Ok(());
        }
        for i in 0..picture.len() {
            put(out, self.intergreen_breach(limits, picture, g, i))?;
        }
        Ok(())
    }

    #[tactic(auto, unfolding(crate::specs::Stands::groups_of))]
    fn find_intergreens(
        &self,
        limits: &Limits<'_>,
        picture: &Picture,
        out: &mut Vec<Breach>,
    ) -> Result<(), Memory>
        requires picture { length picture.now ≡ groups_of self.now }
        requires intergreens { limits.now.pairs.count ≡ groups_of self.now }
        ensures { OnOk result (out.new.items ≡ out.old.items ++ of_pairs (λ g i. intergreen_found (rules_of limits.now.times limits.now.pairs) self.now.seconds
            self.now.picture self.now.pasts picture.now g i) (length picture.now)) }
    {
        for g in 0..picture.len() {
            self.find_intergreens_of(limits, picture, g, out)?;
        }
        Ok(())
    }

    #[tactic(auto, unfolding(crate::specs::Stands::groups_of))]
    fn find_pending_of(
        &self,
        limits: &Limits<'_>,
        g: u8,
        out: &mut Vec<Breach>,
    ) -> Result<(), Memory>
        requires group { g < groups_of self.now }
        requires times { length limits.now.times ≡ groups_of self.now }
        requires intergreens { limits.now.pairs.count ≡ groups_of self.now }
        ensures { OnOk result (out.new.items ≡ out.old.items ++ gather (λ i. listed (pending_found (rules_of limits.now.times limits.now.pairs) self.now.terms
            self.now.seconds self.now.picture self.now.pasts g i)) (length self.now.picture)) }
    {
        if !is_red_amber(self.picture.get(g)) {
            return Ok(());
        }
        for i in 0..self.picture.len() {
            put(out, self.pending_breach(limits, g, i))?;
        }
        Ok(())
    }

    #[tactic(auto, unfolding(crate::specs::Stands::groups_of))]
    fn find_pending(&self, limits: &Limits<'_>, out: &mut Vec<Breach>) -> Result<(), Memory>
        requires times { length limits.now.times ≡ groups_of self.now }
        requires intergreens { limits.now.pairs.count ≡ groups_of self.now }
        ensures { OnOk result (out.new.items ≡ out.old.items ++ of_pairs (λ g i. pending_found (rules_of limits.now.times limits.now.pairs) self.now.terms
            self.now.seconds self.now.picture self.now.pasts g i) (length self.now.picture)) }
    {
        for g in 0..self.picture.len() {
            self.find_pending_of(limits, g, out)?;
        }
        Ok(())
    }

    #[tactic(auto, unfolding(crate::specs::Stands::groups_of))]
    fn find_hidden_of(
        &self,
        limits: &Limits<'_>,
        g: u8,
        out: &mut Vec<Breach>,
    ) -> Result<(), Memory>
        requires group { g < groups_of self.now }
        requires times { length limits.now.times ≡ groups_of self.now }
        requires intergreens { limits.now.pairs.count ≡ groups_of self.now }
        ensures { OnOk result (out.new.items ≡ out.old.items ++ gather (λ i. listed (hidden_found (rules_of limits.now.times limits.now.pairs) self.now.terms
            self.now.seconds self.now.first self.now.picture self.now.pasts g i)) (length self.now.picture)) }
    {
        for i in 0..self.picture.len() {
            put(out, self.hidden_breach(limits, g, i))?;
        }
        Ok(())
    }

    #[tactic(auto, unfolding(crate::specs::Stands::groups_of))]
    fn find_hidden(&self, limits: &Limits<'_>, out: &mut Vec<Breach>) -> Result<(), Memory>
        requires times { length limits.now.times ≡ groups_of self.now }
        requires intergreens { limits.now.pairs.count ≡ groups_of self.now }
        ensures { OnOk result (out.new.items ≡ out.old.items ++ of_pairs (λ g i. hidden_found (rules_of limits.now.times limits.now.pairs) self.now.terms
            self.now.seconds self.now.first self.now.picture self.now.pasts g i) (length self.now.picture)) }
    {
        for g in 0..self.picture.len() {
            self.find_hidden_of(limits, g, out)?;
        }
        Ok(())
    }

    /// Puts behind `out` the breaches that are complete with this picture of the next second: by rule, group and other.
    #[tactic(auto, unfolding(crate::specs::Stands::StandsFor, crate::specs::Stands::groups_of, crate::specs::Stands::terms_of, crate::specs::Stands::seconds_of))]
    pub fn find(
        &self,
        limits: &Limits<'_>,
        picture: &Picture,
        out: &mut Vec<Breach>,
    ) -> Result<(), Memory>
        requires picture { length picture.now ≡ groups_of self.now }
        requires times { length limits.now.times ≡ groups_of self.now }
        requires intergreens { limits.now.pairs.count ≡ groups_of self.now }
        ensures first { OnOk result (seconds_of self.now ≡ 0 → out.new.items ≡ out.old.items) }
        ensures found { OnOk result ((h : History) → StandsFor self.now h → 1 ≤ length h →
            out.new.items ≡ out.old.items ++ breaches_after (rules_of limits.now.times limits.now.pairs) (terms_of self.now) (h ++ picture.now ∷ []) (length h - 1)) }
    {
        // Nothing is complete with the first picture, nor with one in which each group shows what it showed.
        if self.seconds == 0 || all_stay(&self.picture, picture) {
            return Ok(());
        }
        self.find_sequences(limits, picture, out)?;
        self.find_greens(limits, picture, out)?;
        self.find_reds(limits, picture, out)?;
        self.find_conflicts(limits, picture, out)?;
        self.find_intergreens(limits, picture, out)?;
        Ok(())
    }

    /// Puts behind `out` the breaches that the end of the log leaves: what lasted too long already, conflicts that go on, and greens
    /// that come too soon; and behind them the greens too soon after an end that the beginning hides.
    #[tactic(auto, unfolding(crate::specs::Stands::StandsFor, crate::specs::Stands::groups_of, crate::specs::Stands::terms_of, crate::specs::Stands::seconds_of))]
    pub fn find_last(&self, limits: &Limits<'_>, out: &mut Vec<Breach>) -> Result<(), Memory>
        requires times { length limits.now.times ≡ groups_of self.now }
        requires intergreens { limits.now.pairs.count ≡ groups_of self.now }
        ensures found { OnOk result ((h : History) → StandsFor self.now h → 1 ≤ length h →
            out.new.items ≡ out.old.items ++ last_breaches (rules_of limits.now.times limits.now.pairs) (terms_of self.now) h (length h - 1)) }
    {
        if self.seconds == 0 {
            return Ok(());
        }
        self.find_running(limits, out)?;
        self.find_last_conflicts(limits, out)?;
        self.find_pending(limits, out)?;
        self.find_hidden(limits, out)?;
        Ok(())
    }
}

// Keeps what each group shows in the picture of second `now`. The first picture changes nothing of what is kept.
fn keep_all(pasts: &mut [GroupPast], before: &Picture, after: &Picture, now: u32)
    requires size { length before.now ≤ length pasts.old }
    requires same_size { length after.now ≡ length before.now }
    ensures size { length pasts.new ≡ length pasts.old }
    ensures first { now ≡ 0 → (g : ℕ) → past_at pasts.new g ≡ past_at pasts.old g }
    ensures each { 0 < now → (g : ℕ) → g < length before.now →
        past_at pasts.new g ≡ next_past_spec (past_at pasts.old g) (shown before.now g) (shown after.now g) now }
{
    if now == 0 {
        return;
    }
    for g in 0..before.len() {
        let (was, is) = (before.get(g), after.get(g));
        pasts[g as usize] = next_past(pasts[g as usize], was, is, now);
    }
}

// Keeps the picture of second 0.
fn keep_first(first: &mut Picture, picture: &Picture, now: u32)
    requires size { length picture.now ≡ length first.old }
    ensures size { length first.new ≡ length first.old }
    ensures first { now ≡ 0 → first.new ≡ picture.now }
    ensures later { 0 < now → first.new ≡ first.old }
{
    if now == 0 {
        *first = picture.copy();
    }
}

// The pasts of groups of which only a last end is known.
fn no_pasts(last_end: Option<u32>) -> [GroupPast; 64]
    ensures { result ≡ replicate 64 (record { since = 0; on_since = 0; last_end = last_end; over = None; green = None }) }
{
    [GroupPast {
        since: 0,
        on_since: 0,
        last_end,
        over: None,
        green: None,
    }; 64]
}

impl Judge {
    ghost use Rattle.log_judge.specs.Stands.{StandsFor, terms_of, groups_of, seconds_of};

    /// A judge before the first picture of a log with an unknown past.
    #[tactic(auto, unfolding(crate::specs::Stands::StandsFor, crate::specs::Stands::groups_of, crate::specs::Stands::terms_of, crate::specs::Stands::seconds_of))]
    pub fn new(groups: u8, tolerance: u32) -> Judge
        requires groups { groups ≤ 64 }
        requires tolerance { tolerance ≤ 90 }
        ensures groups { groups_of result ≡ groups }
        ensures seconds { seconds_of result ≡ 0 }
        ensures terms { terms_of result ≡ record { rested = false; tolerance = tolerance } }
        ensures stands { StandsFor result [] }
    {
        Judge {
            terms: Terms {
                rested: false,
                tolerance,
            },
            seconds: 0,
            picture: Picture::all_red(groups),
            first: Picture::all_red(groups),
            pasts: no_pasts(None),
        }
    }

    /// A judge of a log at rest, after a second 0 in which all groups are red and each has just ended.
    #[tactic(auto, unfolding(crate::specs::Stands::StandsFor, crate::specs::Stands::groups_of, crate::specs::Stands::terms_of, crate::specs::Stands::seconds_of))]
    pub fn at_rest(groups: u8, tolerance: u32) -> Judge
        requires groups { groups ≤ 64 }
        requires tolerance { tolerance ≤ 90 }
        ensures groups { groups_of result ≡ groups }
        ensures seconds { seconds_of result ≡ 1 }
        ensures terms { terms_of result ≡ record { rested = true; tolerance = tolerance } }
        ensures stands { StandsFor result (replicate groups Aspect.Red ∷ []) }
    {
        Judge {
            terms: Terms {
                rested: true,
                tolerance,
            },
            seconds: 1,
            picture: Picture::all_red(groups),
            first: Picture::all_red(groups),
            pasts: no_pasts(Some(0)),
        }
    }

    /// Goes on by one picture.
    #[tactic(auto, unfolding(crate::specs::Stands::StandsFor, crate::specs::Stands::groups_of, crate::specs::Stands::terms_of, crate::specs::Stands::seconds_of))]
    pub fn show(&mut self, picture: &Picture)
        requires size { length picture.now ≡ groups_of self.old }
        requires at_most { seconds_of self.old < 6048002 }
        ensures groups { groups_of self.new ≡ groups_of self.old }
        ensures seconds { seconds_of self.new ≡ seconds_of self.old + 1 }
        ensures terms { terms_of self.new ≡ terms_of self.old }
        ensures stands { (h : History) → StandsFor self.old h → StandsFor self.new (h ++ picture.now ∷ []) }
    {
        keep_all(&mut self.pasts, &self.picture, picture, self.seconds);
        keep_first(&mut self.first, picture, self.seconds);
        self.picture = picture.copy();
        self.seconds += 1;
    }
}
