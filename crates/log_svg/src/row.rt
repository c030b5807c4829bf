// A group's row.
ghost use Rattle.std.specs.Prelude.{◌≡◌, ◌+◌, ◌-◌, ◌*◌, ◌/◌, ◌^◌, ◌<◌, ◌≤◌, ◌++◌, ℕ, List, Option, IsTrue, length};
ghost use Rattle.sig_io.specs.Draft.{Puts};
ghost use Rattle.log_svg.specs.Layout.{IsLayout};
ghost use Rattle.log_svg.specs.Svg.{IsSeen, begin_of, begun_text, class_of, digit_count, ended_text, first_in, group_text, inset_of, inside_text};
ghost use Rattle.log_svg.specs.Svg.{is_seen, is_told, is_whole, last_in, row_text, seconds_text, seen_text, span_text, span_title};
ghost use Rattle.log_svg.specs.Svg.{thick_of, times_text, told_text, width_of, word_of};

use crate::layout::{Layout, right_of, x_of};
use crate::least::put_least;
use crate::pieces::{begin_box, put_across, put_label, put_number_label};
use log_chart::Span;
use sig_io::{Draft, Sink};
use sig_types::Aspect;

// The first of the strip's seconds that the span has.
fn first_in<T>(layout: Layout, span: &Span<T>) -> u32
    ensures first { result ≡ first_in layout span.now }
    ensures begin { layout.from ≤ result }
{
    layout.from.max(span.first.0)
}

// The last one.
fn last_in<T>(layout: Layout, span: &Span<T>) -> u32
    ensures last { result ≡ last_in layout span.now }
    ensures end { result ≤ layout.to }
{
    layout.to.min(span.last.0)
}

/// Whether the span has some of the strip's seconds.
pub(crate) fn is_seen<T>(layout: Layout, span: &Span<T>) -> bool
    ensures seen { result ≡ is_seen layout span.now }
    ensures order { IsTrue result → IsSeen layout span.now }
{
    first_in(layout, span) <= last_in(layout, span)
}

/// Where the seconds of a span begin that are in the strip.
pub(crate) fn begin_of<T>(layout: Layout, span: &Span<T>) -> u32
    requires layout { IsLayout layout }
    requires span { IsSeen layout span.now }
    ensures x { result ≡ begin_of layout span.now }
    ensures fits { result ≤ 13000 }
{
    x_of(layout, first_in(layout, span))
}

/// How wide they are.
pub(crate) fn width_of<T>(layout: Layout, span: &Span<T>) -> u32
    requires layout { IsLayout layout }
    requires span { IsSeen layout span.now }
    ensures width { result ≡ width_of layout span.now }
    ensures fits { result ≤ 12000 }
{
    (last_in(layout, span) + 1 - first_in(layout, span)) * layout.scale
}

// How many digits a number below 10,000 has.
fn digit_count(n: u32) -> u32
    ensures count { result ≡ digit_count n }
    ensures few { result ≤ 4 }
{
    if n < 10 {
        1
    } else if n < 100 {
        2
    } else if n < 1000 {
        3
    } else {
        4
    }
}

// Whether the whole of it is in the strip, and begins and ends inside the diagram.
fn is_whole(layout: Layout, span: &Span<Aspect>) -> bool
    ensures whole { result ≡ is_whole layout span.now }
    ensures end { IsTrue result → span.now.last.0 ≤ layout.to }
{
    let is_in_strip = layout.from <= span.first.0 && span.last.0 <= layout.to;
    is_in_strip && (layout.first < span.first.0 && span.last.0 < layout.last)
}

// Whether a green has its seconds written in it.
fn is_told(layout: Layout, span: &Span<Aspect>) -> bool
    requires layout { IsLayout layout }
    requires span { IsSeen layout span.now }
    ensures told { result ≡ is_told layout span.now }
    ensures end { IsTrue result → span.now.last.0 ≤ layout.to }
{
    is_whole(layout, span)
        && digit_count(span.last.0 + 1 - span.first.0) * 7 + 4 <= width_of(layout, span)
}

// Puts the seconds of a green where they are told.
fn put_seconds<O: Sink>(
    draft: &mut Draft,
    sink: &mut O,
    layout: Layout,
    y: u32,
    span: &Span<Aspect>,
)
    requires layout { IsLayout layout }
    requires span { IsSeen layout span.now }
    requires y { y ≤ 100000 }
    ensures { Puts O.taken O.faults draft.old draft.new sink.old sink.new (seconds_text layout y span.now) }
{
    if is_told(layout, span) {
        let x = begin_of(layout, span) + width_of(layout, span) / 2;
        put_number_label(draft, sink, b"k", x, y + 15, span.last.0 + 1 - span.first.0);
    }
}

// Puts the minimum and the seconds of a green, where they are told.
fn put_told<O: Sink>(
    draft: &mut Draft,
    sink: &mut O,
    layout: Layout,
    y: u32,
    minimum: u32,
    span: &Span<Aspect>,
)
    requires layout { IsLayout layout }
    requires minimum { minimum ≤ 255 }
    requires span { IsSeen layout span.now }
    requires y { y ≤ 100000 }
    ensures { Puts O.taken O.faults draft.old draft.new sink.old sink.new (told_text layout y minimum span.now span.now.shown) }
{
    match span.shown {
        Aspect::Red => {}
        Aspect::RedAmber => {}
        Aspect::Green => {
            put_least(draft, sink, layout, y, minimum, span);
            put_seconds(draft, sink, layout, y, span);
        }
        Aspect::Amber => {}
    }
}

// The class of an aspect.
fn class_of(aspect: Aspect) -> &'static [u8]
    ensures class { result.now ≡ class_of aspect }
    ensures short { length result.now ≤ 4096 }
{
    match aspect {
        Aspect::Red => b"r",
        Aspect::RedAmber => b"u",
        Aspect::Green => b"g",
        Aspect::Amber => b"a",
    }
}

// How far below the beginning of its row an aspect begins: a red is a line, and the other aspects are bars.
fn inset_of(aspect: Aspect) -> u32
    ensures inset { result ≡ inset_of aspect }
    ensures few { result ≤ 10 }
{
    match aspect {
        Aspect::Red => 10,
        Aspect::RedAmber => 5,
        Aspect::Green => 5,
        Aspect::Amber => 5,
    }
}

// How high an aspect is.
fn thick_of(aspect: Aspect) -> u32
    ensures { result ≡ thick_of aspect }
{
    match aspect {
        Aspect::Red => 2,
        Aspect::RedAmber => 12,
        Aspect::Green => 12,
        Aspect::Amber => 12,
    }
}

// The word of an aspect.
fn word_of(aspect: Aspect) -> &'static [u8]
    ensures word { result.now ≡ word_of aspect }
    ensures short { length result.now ≤ 4096 }
{
    match aspect {
        Aspect::Red => b"red",
        Aspect::RedAmber => b"red-amber",
        Aspect::Green => b"green",
        Aspect::Amber => b"amber",
    }
}

// Puts from when to when, and how long.
fn put_inside<O: Sink>(draft: &mut Draft, sink: &mut O, first: u32, last: u32)
    requires { (first ≤ last) × (last < 1000000) }
    ensures { Puts O.taken O.faults draft.old draft.new sink.old sink.new (inside_text first last) }
{
    draft.put(sink, b" ");
    draft.put_number(sink, first);
    draft.put(sink, b" to ");
    draft.put_number(sink, last);
    draft.put(sink, b", ");
    draft.put_number(sink, last + 1 - first);
    draft.put(sink, b" s");
}

// Puts from when, and to when where it ends inside the diagram.
fn put_begun<O: Sink, T>(draft: &mut Draft, sink: &mut O, layout: Layout, span: &Span<T>)
    requires last { layout.last < 1000000 }
    requires span { IsSeen layout span.now }
    ensures { Puts O.taken O.faults draft.old draft.new sink.old sink.new (begun_text layout span.now) }
{
    if span.last.0 < layout.last {
        put_inside(draft, sink, span.first.0, span.last.0);
    } else {
        draft.put(sink, b" from ");
        draft.put_number(sink, span.first.0);
    }
}

// Puts to when, where it ends inside the diagram.
fn put_ended<O: Sink, T>(draft: &mut Draft, sink: &mut O, layout: Layout, span: &Span<T>)
    ensures { Puts O.taken O.faults draft.old draft.new sink.old sink.new (ended_text layout span.now) }
{
    if span.last.0 < layout.last {
        draft.put(sink, b" to ");
        draft.put_number(sink, span.last.0);
    }
}

/// Puts when a thing is shown, as far as the diagram shows it.
#[tactic(auto, unfolding(crate::specs::Svg::times_text))]
pub(crate) fn put_times<O: Sink, T>(draft: &mut Draft, sink: &mut O, layout: Layout, span: &Span<T>)
    requires last { layout.last < 1000000 }
    requires span { IsSeen layout span.now }
    ensures { Puts O.taken O.faults draft.old draft.new sink.old sink.new (times_text layout span.now) }
{
    if layout.first < span.first.0 {
        put_begun(draft, sink, layout, span);
    } else {
        put_ended(draft, sink, layout, span);
    }
}

// Puts what is told of a span where one points at it.
fn put_title<O: Sink>(
    draft: &mut Draft,
    sink: &mut O,
    layout: Layout,
    name: &[u8],
    span: &Span<Aspect>,
)
    requires last { layout.last < 1000000 }
    requires name { length name.now ≤ 32 }
    requires span { IsSeen layout span.now }
    ensures { Puts O.taken O.faults draft.old draft.new sink.old sink.new (span_title layout name.now span.now) }
{
    draft.put(sink, b"><title>");
    draft.put(sink, name);
    draft.put(sink, b" ");
    draft.put(sink, word_of(span.shown));
    put_times(draft, sink, layout, span);
    draft.put(sink, b"</title></rect>\n");
}

// Puts a span, with what is told of it.
fn put_span<O: Sink>(
    draft: &mut Draft,
    sink: &mut O,
    layout: Layout,
    y: u32,
    name: &[u8],
    minimum: u32,
    span: &Span<Aspect>,
)
    requires layout { IsLayout layout }
    requires minimum { minimum ≤ 255 }
    requires name { length name.now ≤ 32 }
    requires span { IsSeen layout span.now }
    requires y { y ≤ 100000 }
    ensures { Puts O.taken O.faults draft.old draft.new sink.old sink.new (span_text layout y name.now minimum span.now) }
{
    let x = begin_of(layout, span);
    let width = width_of(layout, span);
    let thick = thick_of(span.shown);
    let inset = inset_of(span.shown);
    begin_box(
        draft,
        sink,
        class_of(span.shown),
        (x, y + inset),
        width,
        thick,
    );
    put_title(draft, sink, layout, name, span);
    put_told(draft, sink, layout, y, minimum, span);
}

// Puts a span that has some of the strip's seconds.
fn put_seen<O: Sink>(
    draft: &mut Draft,
    sink: &mut O,
    layout: Layout,
    y: u32,
    name: &[u8],
    minimum: u32,
    span: &Span<Aspect>,
)
    requires layout { IsLayout layout }
    requires minimum { minimum ≤ 255 }
    requires name { length name.now ≤ 32 }
    requires y { y ≤ 100000 }
    ensures { Puts O.taken O.faults draft.old draft.new sink.old sink.new (seen_text layout y name.now minimum span.now) }
{
    if is_seen(layout, span) {
        put_span(draft, sink, layout, y, name, minimum, span);
    }
}

// Puts the spans of a group.
fn put_row<O: Sink>(
    draft: &mut Draft,
    sink: &mut O,
    layout: Layout,
    y: u32,
    name: &[u8],
    minimum: u32,
    spans: &[Span<Aspect>],
)
    requires layout { IsLayout layout }
    requires minimum { minimum ≤ 255 }
    requires name { length name.now ≤ 32 }
    requires y { y ≤ 100000 }
    ensures { Puts O.taken O.faults draft.old draft.new sink.old sink.new (row_text layout y name.now minimum spans.now) }
{
    for span in spans {
        put_seen(draft, sink, layout, y, name, minimum, span);
    }
}

/// Puts a group: its name, its spans, and a line below.
pub fn put_group<O: Sink>(
    draft: &mut Draft,
    sink: &mut O,
    layout: Layout,
    y: u32,
    name: &[u8],
    minimum: u32,
    spans: &[Span<Aspect>],
)
    requires layout { IsLayout layout }
    requires minimum { minimum ≤ 255 }
    requires name { length name.now ≤ 32 }
    requires y { y ≤ 100000 }
    ensures { Puts O.taken O.faults draft.old draft.new sink.old sink.new (group_text layout y name.now minimum spans.now) }
{
    put_label(draft, sink, b"n", layout.left - 12, y + 15, name);
    put_row(draft, sink, layout, y, name, minimum, spans);
    put_across(draft, sink, y + 20, right_of(layout));
}
