// The lines down and the labels of the seconds.
ghost use Rattle.std.specs.Prelude.{◌≡◌, ◌+◌, ◌-◌, ◌*◌, ◌^◌, ◌<◌, ◌≤◌, ◌++◌, ℕ, List, Option, codes};
ghost use Rattle.std.specs.Option.{ForSome};
ghost use Rattle.sig_io.specs.Draft.{Puts};
ghost use Rattle.log_svg.specs.Layout.{IsLayout};
ghost use Rattle.log_svg.specs.Svg.{label_text};
ghost use Rattle.log_svg.specs.Words.{below_text};
ghost use Rattle.log_svg.specs.Axis.{axis_text, label_above, label_below, label_step, second_text, tick_above, tick_below, tick_step};

use crate::layout::{Layout, x_of};
use crate::pieces::{begin_label, put_number_label, put_upright};
use crate::words::{moment_of, put_below};
use sig_io::{Draft, Sink};

// Every how many seconds a label stands, so that labels are at least 60 units apart.
fn label_step(scale: u32) -> u32
    requires { scale ≤ 20 }
    ensures step { result ≡ label_step scale }
    ensures some { 1 ≤ result }
{
    if 5 * scale >= 60 {
        5
    } else if 10 * scale >= 60 {
        10
    } else if 20 * scale >= 60 {
        20
    } else {
        30
    }
}

// Every how many seconds a tick stands.
fn tick_step(scale: u32) -> u32
    ensures step { result ≡ tick_step scale }
    ensures some { 1 ≤ result }
{
    if scale >= 8 { 1 } else { 5 }
}

// Puts the tick above the beginning of a second, and where it has a label a thin line through all rows.
fn put_tick_above<O: Sink>(draft: &mut Draft, sink: &mut O, layout: Layout, end: u32, second: u32)
    requires layout { IsLayout layout }
    requires second { (layout.from ≤ second) × (second ≤ layout.to) }
    requires end { end ≤ 100000 }
    ensures { Puts O.taken O.faults draft.old draft.new sink.old sink.new (tick_above layout end second) }
{
    let x = x_of(layout, second);
    if second % label_step(layout.scale) == 0 {
        put_upright(draft, sink, b"b", x, (44, end + 2));
        put_upright(draft, sink, b"c", x, (42, 50));
    } else if second % tick_step(layout.scale) == 0 {
        put_upright(draft, sink, b"c", x, (46, 50));
    }
}

// Puts the tick below it.
fn put_tick_below<O: Sink>(
    draft: &mut Draft,
    sink: &mut O,
    begin: Option<u32>,
    layout: Layout,
    end: u32,
    second: u32,
)
    requires begin { ForSome begin (λ t. t < 86400) }
    requires layout { IsLayout layout }
    requires second { (layout.from ≤ second) × (second ≤ layout.to) }
    requires end { end ≤ 100000 }
    ensures { Puts O.taken O.faults draft.old draft.new sink.old sink.new (tick_below begin layout end second) }
{
    let x = x_of(layout, second);
    let moment = moment_of(begin, second);
    if moment % label_step(layout.scale) == 0 {
        put_upright(draft, sink, b"c", x, (end + 2, end + 10));
    } else if moment % tick_step(layout.scale) == 0 {
        put_upright(draft, sink, b"c", x, (end + 2, end + 6));
    }
}

// Puts the label above: its number.
fn put_label_above<O: Sink>(draft: &mut Draft, sink: &mut O, layout: Layout, second: u32)
    requires layout { IsLayout layout }
    requires second { (layout.from ≤ second) × (second ≤ layout.to) }
    ensures { Puts O.taken O.faults draft.old draft.new sink.old sink.new (label_above layout second) }
{
    if second % label_step(layout.scale) == 0 {
        put_number_label(draft, sink, b"l", x_of(layout, second), 39, second);
    }
}

// Puts the time of the day of a moment, or its number.
fn put_moment<O: Sink>(
    draft: &mut Draft,
    sink: &mut O,
    begin: Option<u32>,
    x: u32,
    y: u32,
    second: u32,
)
    requires begin { ForSome begin (λ t. t < 86400) }
    requires second { second < 1000000 }
    ensures { Puts O.taken O.faults draft.old draft.new sink.old sink.new (label_text (codes "l") x y (below_text begin second)) }
{
    begin_label(draft, sink, b"l", x, y);
    put_below(draft, sink, begin, second);
    draft.put(sink, b"</text>\n");
}

// Puts the label below.
fn put_label_below<O: Sink>(
    draft: &mut Draft,
    sink: &mut O,
    begin: Option<u32>,
    layout: Layout,
    end: u32,
    second: u32,
)
    requires begin { ForSome begin (λ t. t < 86400) }
    requires layout { IsLayout layout }
    requires second { (layout.from ≤ second) × (second ≤ layout.to) }
    requires end { end ≤ 100000 }
    ensures { Puts O.taken O.faults draft.old draft.new sink.old sink.new (label_below begin layout end second) }
{
    if moment_of(begin, second) % label_step(layout.scale) == 0 {
        put_moment(draft, sink, begin, x_of(layout, second), end + 20, second);
    }
}

// Puts what stands at the beginning of a second.
fn put_second<O: Sink>(
    draft: &mut Draft,
    sink: &mut O,
    begin: Option<u32>,
    layout: Layout,
    end: u32,
    second: u32,
)
    requires begin { ForSome begin (λ t. t < 86400) }
    requires layout { IsLayout layout }
    requires second { (layout.from ≤ second) × (second ≤ layout.to) }
    requires end { end ≤ 100000 }
    ensures { Puts O.taken O.faults draft.old draft.new sink.old sink.new (second_text begin layout end second) }
{
    put_tick_above(draft, sink, layout, end, second);
    put_tick_below(draft, sink, begin, layout, end, second);
    put_label_above(draft, sink, layout, second);
    put_label_below(draft, sink, begin, layout, end, second);
}

/// Puts the lines and labels of all seconds, of a diagram whose rows end at `end`.
pub fn put_axis<O: Sink>(
    draft: &mut Draft,
    sink: &mut O,
    begin: Option<u32>,
    layout: Layout,
    end: u32,
)
    requires begin { ForSome begin (λ t. t < 86400) }
    requires layout { IsLayout layout }
    requires end { end ≤ 100000 }
    ensures { Puts O.taken O.faults draft.old draft.new sink.old sink.new (axis_text begin layout end (layout.to + 1 - layout.from)) }
{
    for place in 0..layout.to + 1 - layout.from {
        put_second(draft, sink, begin, layout, end, layout.from + place);
    }
}
