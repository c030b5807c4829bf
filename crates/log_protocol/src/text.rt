// The text of what came.
ghost use Rattle.std.specs.Prelude.{◌≡◌, ℕ, List, ◌+◌, ◌<◌, ◌≤◌, ◌++◌, Option, length};
ghost use Rattle.sig_io.specs.Draft.{Puts};
ghost use Rattle.pua_model.specs.Plan.{groups_in};
ghost use Rattle.judge_text.specs.Ticks.{ticks_text};
ghost use Rattle.log_protocol.specs.Came.{gather};
ghost use Rattle.log_protocol.specs.Texts.{came_text, change_label, change_text, group_text, greens_text, head_text, is_unlisted, kind_name, name_at, numbers_text, rest_text, run_label, run_text, shortest_text, time_of, together_label, together_rest, together_text, unknown_label, unknown_text};

use crate::together::Together;
use crate::told::Told;
use judge_text::{Tick, put_ticks};
use log_judge::{Extremes, Kind};
use pua_model::Plan;
use sig_io::{Draft, Sink};
use sig_tables::Limits;
use sig_types::GroupNo;

/// How a page is written.
#[derive(Clone, Copy)]
pub enum Style {
    /// As a table of comma-separated values.
    Table,
    /// As lines to be read.
    Lines,
}

/// A page that is to be written, with the plan and the tables of its groups.
#[derive(Clone, Copy)]
pub struct Sheet<'a> {
    pub style: Style,
    /// How long a picture is shown.
    pub tick: Tick,
    pub plan: &'a Plan,
    /// The numbers of the tables, in ticks.
    pub limits: &'a Limits<'a>,
    /// The number of what the page counts as the first tick, 0.
    pub first: u32,
    pub told: Told<'a>,
}

// The name of what a row of a group is of.
fn kind_name(style: Style, kind: Kind) -> &'static [u8]
    ensures name { result.now ≡ kind_name style kind }
    ensures short { length result.now ≤ 9 }
{
    match (style, kind) {
        (_, Kind::Green) => b"green",
        (_, Kind::Red) => b"red",
        (Style::Table, Kind::RedAmber) => b"red_amber",
        (Style::Lines, Kind::RedAmber) => b"red-amber",
        (_, Kind::Amber) => b"amber",
    }
}

// Puts a word and a number of ticks.
fn put_length<O: Sink>(draft: &mut Draft, sink: &mut O, tick: Tick, word: &[u8], n: u32)
    requires { length word.now ≤ 40 }
    ensures { Puts O.taken O.faults draft.old draft.new sink.old sink.new (word.now ++ ticks_text tick n) }
{
    draft.put(sink, word);
    put_ticks(draft, sink, tick, u64::from(n));
}

// Puts a word and the second of a tick.
fn put_second<O: Sink>(
    draft: &mut Draft,
    sink: &mut O,
    tick: Tick,
    word: &[u8],
    first: u32,
    place: u32,
)
    requires { length word.now ≤ 40 }
    ensures { Puts O.taken O.faults draft.old draft.new sink.old sink.new (word.now ++ ticks_text tick (first + place)) }
{
    draft.put(sink, word);
    put_ticks(draft, sink, tick, u64::from(first) + u64::from(place));
}

// Puts the numbers of a row of the table.
#[tactic(auto, unfolding(crate::specs::Texts::numbers_text))]
fn put_fields<O: Sink>(draft: &mut Draft, sink: &mut O, tick: Tick, first: u32, came: Extremes)
    ensures { Puts O.taken O.faults draft.old draft.new sink.old sink.new (numbers_text tick Style.Table first came) }
{
    draft.put_number(sink, came.count);
    if came.count == 0 {
        draft.put(sink, b",,,");
    } else {
        put_length(draft, sink, tick, b",", came.least);
        put_second(draft, sink, tick, b",", first, came.second);
        put_length(draft, sink, tick, b",", came.most);
    }
}

// Puts a word and a number of ticks, and then a word and the second of a tick.
fn put_until<O: Sink>(
    draft: &mut Draft,
    sink: &mut O,
    tick: Tick,
    word: &[u8],
    n: u32,
    between: &[u8],
    first: u32,
    second: u32,
)
    requires word { length word.now ≤ 40 }
    requires between { length between.now ≤ 40 }
    ensures { Puts O.taken O.faults draft.old draft.new sink.old sink.new (word.now ++ ticks_text tick n ++ between.now ++ ticks_text tick (first + second)) }
{
    put_length(draft, sink, tick, word, n);
    put_second(draft, sink, tick, between, first, second);
}

// Puts the shortest, with the second in which it was over.
fn put_shortest<O: Sink>(draft: &mut Draft, sink: &mut O, tick: Tick, first: u32, came: Extremes)
    ensures { Puts O.taken O.faults draft.old draft.new sink.old sink.new (shortest_text tick first came) }
{
    put_until(
        draft,
        sink,
        tick,
        b" times, shortest ",
        came.least,
        b" s, over in second ",
        first,
        came.second,
    );
}

// Puts the numbers of a line.
#[tactic(auto, unfolding(crate::specs::Texts::numbers_text))]
fn put_words<O: Sink>(draft: &mut Draft, sink: &mut O, tick: Tick, first: u32, came: Extremes)
    ensures { Puts O.taken O.faults draft.old draft.new sink.old sink.new (numbers_text tick Style.Lines first came) }
{
    if came.count == 0 {
        draft.put(sink, b"never");
    } else {
        draft.put_number(sink, came.count);
        put_shortest(draft, sink, tick, first, came);
        put_length(draft, sink, tick, b", longest ", came.most);
        draft.put(sink, b" s");
    }
}

// Puts the beginning of a row of a group that turns green, and one that ended.
fn put_change_label<O: Sink>(draft: &mut Draft, sink: &mut O, style: Style, to: &str, from: &str)
    requires to { length to.now ≤ 32 }
    requires from { length from.now ≤ 32 }
    ensures { Puts O.taken O.faults draft.old draft.new sink.old sink.new (change_label style to.now from.now) }
{
    match style {
        Style::Table => {
            draft.put(sink, b"intergreen,");
            draft.put(sink, to.as_bytes());
            draft.put(sink, b",");
            draft.put(sink, from.as_bytes());
        }
        Style::Lines => {
            draft.put(sink, to.as_bytes());
            draft.put(sink, b" green after ");
            draft.put(sink, from.as_bytes());
        }
    }
}

// Puts the beginning of a row of two groups that were green together.
fn put_together_label<O: Sink>(
    draft: &mut Draft,
    sink: &mut O,
    style: Style,
    one: &str,
    other: &str,
)
    requires one { length one.now ≤ 32 }
    requires other { length other.now ≤ 32 }
    ensures { Puts O.taken O.faults draft.old draft.new sink.old sink.new (together_label style one.now other.now) }
{
    match style {
        Style::Table => {
            draft.put(sink, b"no_intergreen,");
            draft.put(sink, one.as_bytes());
            draft.put(sink, b",");
            draft.put(sink, other.as_bytes());
        }
        Style::Lines => {
            draft.put(sink, one.as_bytes());
            draft.put(sink, b" and ");
            draft.put(sink, other.as_bytes());
        }
    }
}

// Puts for how many seconds two groups were green together, and in which one first.
fn put_together_rest<O: Sink>(
    draft: &mut Draft,
    sink: &mut O,
    tick: Tick,
    style: Style,
    first: u32,
    greens: Together,
)
    ensures { Puts O.taken O.faults draft.old draft.new sink.old sink.new (together_rest tick style first greens) }
{
    match style {
        Style::Table => {
            put_length(draft, sink, tick, b",,", greens.seconds);
            put_second(draft, sink, tick, b",,", first, greens.first);
            draft.put(sink, b",\n");
        }
        Style::Lines => {
            put_length(draft, sink, tick, b" green together: ", greens.seconds);
            put_second(
                draft,
                sink,
                tick,
                b" s, first in second ",
                first,
                greens.first,
            );
            draft.put(sink, b"; no intergreen in the table\n");
        }
    }
}

// Puts the row of two groups that were green together.
fn put_together<O: Sink>(
    draft: &mut Draft,
    sink: &mut O,
    tick: Tick,
    style: Style,
    first: u32,
    one: &str,
    other: &str,
    greens: Together,
)
    requires one { length one.now ≤ 32 }
    requires other { length other.now ≤ 32 }
    ensures { Puts O.taken O.faults draft.old draft.new sink.old sink.new (together_text tick style first one.now other.now greens) }
{
    put_together_label(draft, sink, style, one, other);
    put_together_rest(draft, sink, tick, style, first, greens);
}

/// Puts the first line of a page: the names of the columns, or for how many ticks pictures were shown, and from which one on.
#[tactic(auto, unfolding(crate::specs::Texts::head_text))]
pub fn put_head<O: Sink>(
    draft: &mut Draft,
    sink: &mut O,
    tick: Tick,
    style: Style,
    shown: u32,
    first: u32,
)
    ensures { Puts O.taken O.faults draft.old draft.new sink.old sink.new (head_text tick style shown first) }
{
    match style {
        Style::Table => {
            draft.put(
                sink,
                b"what,group,other,needed,count,shortest,second,longest\n",
            );
        }
        Style::Lines => {
            if shown == 0 {
                draft.put(sink, b"no second\n");
            } else {
                put_ticks(draft, sink, tick, u64::from(shown));
                put_length(draft, sink, tick, b" s from second ", first);
                draft.put(sink, b"\n");
            }
        }
    }
}

// Puts how many there were, the shortest and the longest.
fn put_numbers<O: Sink>(
    draft: &mut Draft,
    sink: &mut O,
    tick: Tick,
    style: Style,
    first: u32,
    came: Extremes,
)
    ensures { Puts O.taken O.faults draft.old draft.new sink.old sink.new (numbers_text tick style first came) }
{
    match style {
        Style::Table => put_fields(draft, sink, tick, first, came),
        Style::Lines => put_words(draft, sink, tick, first, came),
    }
}

// The beginning of the row of what isn't known.
fn unknown_label(style: Style) -> &'static [u8]
    ensures label { result.now ≡ unknown_label style }
    ensures short { length result.now ≤ 12 }
{
    match style {
        Style::Table => b"unknown,,,,",
        Style::Lines => b"not known: ",
    }
}

/// Puts the row of the stretches of which nothing is known, where there are some.
pub fn put_unknown<O: Sink>(
    draft: &mut Draft,
    sink: &mut O,
    tick: Tick,
    style: Style,
    unknown: Extremes,
)
    ensures { Puts O.taken O.faults draft.old draft.new sink.old sink.new (unknown_text tick style unknown) }
{
    if unknown.count == 0 {
        return;
    }
    draft.put(sink, unknown_label(style));
    put_numbers(draft, sink, tick, style, 0, unknown);
    draft.put(sink, b"\n");
}

impl Sheet<'_> {
    ghost use Rattle.log_protocol.specs.Sheet.{IsSheet, rules_on};
    ghost use Rattle.log_protocol.specs.Told.{came_by};

    // Puts the rest of a row: the numbers of what came, and what the table says.
    #[tactic(auto, unfolding(crate::specs::Texts::rest_text))]
    fn put_rest<O: Sink>(&self, draft: &mut Draft, sink: &mut O, needed: u32, came: Extremes)
        ensures { Puts O.taken O.faults draft.old draft.new sink.old sink.new (rest_text self.now.tick self.now.style self.now.first needed came) }
    {
        match self.style {
            Style::Table => {
                put_length(draft, sink, self.tick, b",", needed);
                draft.put(sink, b",");
                put_fields(draft, sink, self.tick, self.first, came);
                draft.put(sink, b"\n");
            }
            Style::Lines => {
                draft.put(sink, b": ");
                put_words(draft, sink, self.tick, self.first, came);
                put_length(draft, sink, self.tick, b"; ", needed);
                draft.put(sink, b" s in the table\n");
            }
        }
    }

    // Puts the beginning of a row of a group.
    fn put_run_label<O: Sink>(&self, draft: &mut Draft, sink: &mut O, kind: Kind, name: &str)
        requires { length name.now ≤ 32 }
        ensures { Puts O.taken O.faults draft.old draft.new sink.old sink.new (run_label self.now.style kind name.now) }
    {
        match self.style {
            Style::Table => {
                draft.put(sink, kind_name(Style::Table, kind));
                draft.put(sink, b",");
                draft.put(sink, name.as_bytes());
                draft.put(sink, b",");
            }
            Style::Lines => {
                draft.put(sink, name.as_bytes());
                draft.put(sink, b" ");
                draft.put(sink, kind_name(Style::Lines, kind));
            }
        }
    }

    // The time of a group in the table.
    fn time_of(&self, kind: Kind, g: GroupNo) -> u32
        requires { g.0 < self.now.limits.now.pairs.count }
        ensures { result ≡ time_of (rules_on self.now) kind g.0 }
    {
        match kind {
            Kind::Green => self.limits.min(g),
            Kind::Red => self.limits.min_red(g),
            Kind::RedAmber => self.limits.red_amber(g),
            Kind::Amber => self.limits.amber(g),
        }
    }

    // Puts a row of a group.
    #[tactic(auto, unfolding(crate::specs::Texts::run_text))]
    fn put_run<O: Sink>(&self, draft: &mut Draft, sink: &mut O, kind: Kind, g: u8)
        requires sheet { IsSheet self.now }
        requires group { g < groups_in self.now.plan.now }
        ensures { Puts O.taken O.faults draft.old draft.new sink.old sink.new
            (run_text self.now.tick self.now.style self.now.first (came_by self.now.told) (rules_on self.now) (name_at self.now.plan.now.names g) g kind) }
    {
        let group = GroupNo(g);
        self.put_run_label(draft, sink, kind, self.plan.group_name(group));
        let came = self.told.runs(kind, group);
        self.put_rest(draft, sink, self.time_of(kind, group), came);
    }

    // Puts the rows of a group.
    #[tactic(auto, unfolding(crate::specs::Texts::group_text))]
    fn put_group<O: Sink>(&self, draft: &mut Draft, sink: &mut O, g: u8)
        requires sheet { IsSheet self.now }
        requires group { g < groups_in self.now.plan.now }
        ensures { Puts O.taken O.faults draft.old draft.new sink.old sink.new
            (group_text self.now.tick self.now.style self.now.first (came_by self.now.told) (rules_on self.now) (name_at self.now.plan.now.names g) g) }
    {
        self.put_run(draft, sink, Kind::Green, g);
        self.put_run(draft, sink, Kind::Red, g);
        self.put_run(draft, sink, Kind::RedAmber, g);
        self.put_run(draft, sink, Kind::Amber, g);
    }

    // Puts the rows of all groups.
    fn put_groups<O: Sink>(&self, draft: &mut Draft, sink: &mut O)
        requires { IsSheet self.now }
        ensures { Puts O.taken O.faults draft.old draft.new sink.old sink.new
            (gather (λ g. group_text self.now.tick self.now.style self.now.first (came_by self.now.told) (rules_on self.now) (name_at self.now.plan.now.names g) g)
            (groups_in self.now.plan.now)) }
    {
        for g in 0..self.plan.groups() {
            self.put_group(draft, sink, g);
        }
    }

    // Puts the row of a pair, where the table has it.
    #[tactic(auto, unfolding(crate::specs::Texts::change_text))]
    fn put_change<O: Sink>(&self, draft: &mut Draft, sink: &mut O, to: u8, from: u8)
        requires sheet { IsSheet self.now }
        requires to { to < groups_in self.now.plan.now }
        requires from { from < groups_in self.now.plan.now }
        ensures { Puts O.taken O.faults draft.old draft.new sink.old sink.new
            (change_text self.now.tick self.now.style self.now.first (came_by self.now.told) self.now.plan.now.names to from ((rules_on self.now).between from to)) }
    {
        let (to, from) = (GroupNo(to), GroupNo(from));
        match self.limits.between(from, to) {
            None => {}
            Some(needed) => {
                let name = self.plan.group_name(to);
                put_change_label(draft, sink, self.style, name, self.plan.group_name(from));
                self.put_rest(draft, sink, u32::from(needed), self.told.changes(to, from));
            }
        }
    }

    // Puts the rows of the pairs to a group.
    fn put_changes_to<O: Sink>(&self, draft: &mut Draft, sink: &mut O, to: u8)
        requires sheet { IsSheet self.now }
        requires to { to < groups_in self.now.plan.now }
        ensures { Puts O.taken O.faults draft.old draft.new sink.old sink.new
            (gather (λ from. change_text self.now.tick self.now.style self.now.first (came_by self.now.told) self.now.plan.now.names to from ((rules_on self.now).between from to))
            (groups_in self.now.plan.now)) }
    {
        for from in 0..self.plan.groups() {
            self.put_change(draft, sink, to, from);
        }
    }

    // Puts the rows of all pairs of the table.
    fn put_changes<O: Sink>(&self, draft: &mut Draft, sink: &mut O)
        requires { IsSheet self.now }
        ensures { Puts O.taken O.faults draft.old draft.new sink.old sink.new
            (gather (λ to. gather (λ from. change_text self.now.tick self.now.style self.now.first (came_by self.now.told) self.now.plan.now.names to from
            ((rules_on self.now).between from to)) (groups_in self.now.plan.now)) (groups_in self.now.plan.now)) }
    {
        for to in 0..self.plan.groups() {
            self.put_changes_to(draft, sink, to);
        }
    }

    // Whether the table has no intergreen between two groups.
    fn is_unlisted(&self, one: GroupNo, other: GroupNo) -> bool
        requires one { one.0 < self.now.limits.now.pairs.count }
        requires other { other.0 < self.now.limits.now.pairs.count }
        ensures { result ≡ is_unlisted (rules_on self.now) one.0 other.0 }
    {
        !(self.limits.between(one, other).is_some() || self.limits.between(other, one).is_some())
    }

    // Puts the row of two groups, where they were green together and the table has no intergreen between them.
    #[tactic(auto, unfolding(crate::specs::Texts::greens_text))]
    fn put_greens<O: Sink>(&self, draft: &mut Draft, sink: &mut O, g: u8, i: u8)
        requires sheet { IsSheet self.now }
        requires one { g < groups_in self.now.plan.now }
        requires other { i < groups_in self.now.plan.now }
        ensures { Puts O.taken O.faults draft.old draft.new sink.old sink.new
            (greens_text self.now.tick self.now.style self.now.first (came_by self.now.told) self.now.plan.now.names (rules_on self.now) g i) }
    {
        let (one, other) = (GroupNo(g), GroupNo(i));
        let greens = self.told.greens(one, other);
        if g < i && self.is_unlisted(one, other) && greens.seconds != 0 {
            let name = self.plan.group_name(one);
            let other = self.plan.group_name(other);
            put_together(
                draft, sink, self.tick, self.style, self.first, name, other, greens,
            );
        }
    }

    // Puts the rows of a group and those of higher numbers that were green with it.
    fn put_greens_of<O: Sink>(&self, draft: &mut Draft, sink: &mut O, g: u8)
        requires sheet { IsSheet self.now }
        requires group { g < groups_in self.now.plan.now }
        ensures { Puts O.taken O.faults draft.old draft.new sink.old sink.new
            (gather (λ i. greens_text self.now.tick self.now.style self.now.first (came_by self.now.told) self.now.plan.now.names (rules_on self.now) g i)
            (groups_in self.now.plan.now)) }
    {
        for i in 0..self.plan.groups() {
            self.put_greens(draft, sink, g, i);
        }
    }

    // Puts the rows of all groups that were green together.
    fn put_all_greens<O: Sink>(&self, draft: &mut Draft, sink: &mut O)
        requires { IsSheet self.now }
        ensures { Puts O.taken O.faults draft.old draft.new sink.old sink.new
            (gather (λ g. gather (λ i. greens_text self.now.tick self.now.style self.now.first (came_by self.now.told) self.now.plan.now.names (rules_on self.now) g i)
            (groups_in self.now.plan.now)) (groups_in self.now.plan.now)) }
    {
        for g in 0..self.plan.groups() {
            self.put_greens_of(draft, sink, g);
        }
    }

    /// Puts the rows of a page: what came of each group, in the changes of each pair of the table, and of each two groups that were
    /// green together though the table has no intergreen between them.
    #[tactic(auto, unfolding(crate::specs::Texts::came_text))]
    pub fn put<O: Sink>(&self, draft: &mut Draft, sink: &mut O)
        requires { IsSheet self.now }
        ensures { Puts O.taken O.faults draft.old draft.new sink.old sink.new
            (came_text self.now.tick self.now.style self.now.first (came_by self.now.told) self.now.plan.now.names (rules_on self.now)) }
    {
        self.put_groups(draft, sink);
        self.put_changes(draft, sink);
        self.put_all_greens(draft, sink);
    }
}
