// The bars of the detectors, as long as they are covered.
ghost use Rattle.std.specs.Prelude.{◌≡◌, ◌+◌, ◌-◌, ◌*◌, ◌^◌, ◌<◌, ◌≤◌, ◌++◌, ◌&&◌, ℕ, List, Option, length};
ghost use Rattle.sig_io.specs.Draft.{Puts};
ghost use Rattle.log_svg.specs.Layout.{IsLayout};
ghost use Rattle.log_svg.specs.Svg.{IsSeen};
ghost use Rattle.log_svg.specs.Covers.{cover_text, cover_title, covers_text, is_covered, seen_cover, spans_in, spans_of};

use crate::layout::Layout;
use crate::pieces::begin_box;
use crate::row::{begin_of, is_seen, put_times, width_of};
use log_chart::{Cover, Span};
use sig_io::{Draft, Sink};
use sig_types::DetNo;

/// The spans of a detector.
pub fn spans_of(covers: &[Cover], detector: DetNo) -> &[Span<bool>]
    requires covers { length covers.now ≡ 64 }
    requires detector { (1 ≤ detector.0) × (detector.0 ≤ 64) }
    ensures { result.now ≡ spans_of (spans_in covers.now) detector.0 }
{
    covers[usize::from(detector.0 - 1)].spans.as_slice()
}

/// Whether a detector with these spans is covered in some second.
pub(crate) fn is_covered(spans: &[Span<bool>]) -> bool
    ensures { result ≡ is_covered spans.now }
{
    spans.iter().any(|span| span.shown)
}

// Puts what is told of a bar where one points at it.
fn put_title<O: Sink>(
    draft: &mut Draft,
    sink: &mut O,
    layout: Layout,
    detector: DetNo,
    span: &Span<bool>,
)
    requires last { layout.last < 1000000 }
    requires span { IsSeen layout span.now }
    ensures { Puts O.taken O.faults draft.old draft.new sink.old sink.new (cover_title layout detector.0 span.now) }
{
    draft.put(sink, b"><title>detector ");
    draft.put_number(sink, u32::from(detector.0));
    draft.put(sink, b" covered");
    put_times(draft, sink, layout, span);
    draft.put(sink, b"</title></rect>\n");
}

// Puts a bar.
fn put_cover<O: Sink>(
    draft: &mut Draft,
    sink: &mut O,
    layout: Layout,
    y: u32,
    detector: DetNo,
    span: &Span<bool>,
)
    requires layout { IsLayout layout }
    requires span { IsSeen layout span.now }
    requires y { y ≤ 100000 }
    ensures { Puts O.taken O.faults draft.old draft.new sink.old sink.new (cover_text layout y detector.0 span.now) }
{
    let x = begin_of(layout, span);
    let width = width_of(layout, span);
    begin_box(draft, sink, b"q", (x, y + 13), width, 6);
    put_title(draft, sink, layout, detector, span);
}

// Puts a span in which it is covered, where some of the strip's seconds are in it.
fn put_seen<O: Sink>(
    draft: &mut Draft,
    sink: &mut O,
    layout: Layout,
    y: u32,
    detector: DetNo,
    span: &Span<bool>,
)
    requires layout { IsLayout layout }
    requires y { y ≤ 100000 }
    ensures { Puts O.taken O.faults draft.old draft.new sink.old sink.new (seen_cover layout y detector.0 span.now) }
{
    if span.shown && is_seen(layout, span) {
        put_cover(draft, sink, layout, y, detector, span);
    }
}

/// Puts the bars of a detector with these spans.
pub(crate) fn put_covers<O: Sink>(
    draft: &mut Draft,
    sink: &mut O,
    layout: Layout,
    y: u32,
    detector: DetNo,
    spans: &[Span<bool>],
)
    requires layout { IsLayout layout }
    requires y { y ≤ 100000 }
    ensures { Puts O.taken O.faults draft.old draft.new sink.old sink.new (covers_text layout y detector.0 spans.now) }
{
    for span in spans {
        put_seen(draft, sink, layout, y, detector, span);
    }
}
