// The minimum green of a group: a darker part of each of its greens.
ghost use Rattle.std.specs.Prelude.{◌≡◌, ◌+◌, ◌-◌, ◌*◌, ◌^◌, ◌<◌, ◌≤◌, ◌++◌, ℕ, List, Option, length};
ghost use Rattle.sig_io.specs.Draft.{Puts};
ghost use Rattle.log_svg.specs.Layout.{IsLayout};
ghost use Rattle.log_svg.specs.Svg.{IsSeen, least_part, least_text, darker_text};

use crate::layout::Layout;
use crate::pieces::put_box;
use crate::row::{begin_of, is_seen, width_of};
use log_chart::Span;
use sig_io::{Draft, Sink};
use sig_types::{Aspect, Second};

// The first seconds of a green, up to its minimum.
fn least_part(minimum: u32, span: &Span<Aspect>) -> Span<Aspect>
    requires minimum { (1 ≤ minimum) × (minimum ≤ 255) }
    requires first { span.now.first.0 < 1000000 }
    ensures { result ≡ least_part minimum span.now }
{
    Span {
        shown: span.shown,
        first: span.first,
        last: Second(span.last.0.min(span.first.0 + minimum - 1)),
    }
}

// Puts a box over these seconds, where some of them are in the strip.
fn put_darker<O: Sink>(draft: &mut Draft, sink: &mut O, layout: Layout, y: u32, part: &Span<Aspect>)
    requires layout { IsLayout layout }
    requires part { IsSeen layout part.now }
    requires y { y ≤ 100000 }
    ensures { Puts O.taken O.faults draft.old draft.new sink.old sink.new (darker_text layout y part.now) }
{
    let x = begin_of(layout, part);
    let width = width_of(layout, part);
    put_box(draft, sink, b"e", (x, y + 5), width, 12);
}

/// Puts the darker part of a green, where it is told.
pub(crate) fn put_least<O: Sink>(
    draft: &mut Draft,
    sink: &mut O,
    layout: Layout,
    y: u32,
    minimum: u32,
    span: &Span<Aspect>,
)
    requires layout { IsLayout layout }
    requires minimum { minimum ≤ 255 }
    requires span { IsSeen layout span.now }
    requires y { y ≤ 100000 }
    ensures { Puts O.taken O.faults draft.old draft.new sink.old sink.new (least_text layout y minimum span.now) }
{
    if 0 < minimum && layout.first < span.first.0 {
        let part = least_part(minimum, span);
        if is_seen(layout, &part) {
            put_darker(draft, sink, layout, y, &part);
        }
    }
}
