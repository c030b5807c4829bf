// The rows of the detectors.
ghost use Rattle.std.specs.Prelude.{◌≡◌, ◌+◌, ◌-◌, ◌*◌, ◌^◌, ◌<◌, ◌≤◌, ◌++◌, ◌==◌, ◌||◌, min, ℕ, List, Option, length};
ghost use Rattle.sig_io.specs.Draft.{Puts};
ghost use Rattle.log_svg.specs.Layout.{IsLayout};
ghost use Rattle.log_svg.specs.Covers.{spans_in};
ghost use Rattle.log_svg.specs.Marks.{fronts_of, has_front, is_told, row_count, shown_to};
ghost use Rattle.log_svg.specs.Marks.{detector_name, detector_text, detectors_text, front_text, shown_text};

use crate::covers::{is_covered, put_covers, spans_of};
use crate::layout::{Layout, has_row, has_second, middle_of, right_of, y_of};
use crate::pieces::{begin_label, put_across, put_upright};
use log_chart::{Cover, Span};
use sig_io::{Draft, Sink};
use sig_types::DetNo;

/// Fronts of a detector in a second.
#[derive(Clone, Copy)]
pub struct FrontMark {
    /// The second.
    pub second: u32,
    /// The detector.
    pub detector: DetNo,
    /// How many vehicles began to cover it.
    pub fronts: u32,
}

// Puts the fronts of a second: the more, the higher.
fn put_front<O: Sink>(draft: &mut Draft, sink: &mut O, layout: Layout, y: u32, mark: &FrontMark)
    requires layout { IsLayout layout }
    requires mark { (layout.from ≤ mark.now.second) × (mark.now.second ≤ layout.to) }
    requires y { y ≤ 100000 }
    ensures { Puts O.taken O.faults draft.old draft.new sink.old sink.new (front_text layout y mark.now) }
{
    let top = y + 16 - 3 * mark.fronts.min(3);
    put_upright(
        draft,
        sink,
        b"t",
        middle_of(layout, mark.second),
        (top, y + 19),
    );
}

// Puts the fronts of one detector.
fn put_fronts<O: Sink>(
    draft: &mut Draft,
    sink: &mut O,
    layout: Layout,
    y: u32,
    detector: DetNo,
    marks: &[FrontMark],
)
    requires layout { IsLayout layout }
    requires y { y ≤ 100000 }
    ensures { Puts O.taken O.faults draft.old draft.new sink.old sink.new (fronts_of layout y detector.0 marks.now) }
{
    for mark in marks {
        if mark.detector.0 == detector.0 && has_second(layout, mark.second) {
            put_front(draft, sink, layout, y, mark);
        }
    }
}

// Puts a detector's name.
fn put_name<O: Sink>(draft: &mut Draft, sink: &mut O, layout: Layout, y: u32, detector: DetNo)
    requires layout { IsLayout layout }
    requires y { y ≤ 100000 }
    ensures { Puts O.taken O.faults draft.old draft.new sink.old sink.new (detector_name layout y detector.0) }
{
    begin_label(draft, sink, b"d", layout.left - 12, y + 14);
    draft.put(sink, b"D");
    draft.put_number(sink, u32::from(detector.0));
    draft.put(sink, b"</text>\n");
}

// Puts a detector's row at this height: its name, a thin line across, its bars and its fronts.
fn put_detector<O: Sink>(
    draft: &mut Draft,
    sink: &mut O,
    layout: Layout,
    y: u32,
    detector: DetNo,
    marks: &[FrontMark],
    spans: &[Span<bool>],
)
    requires layout { IsLayout layout }
    requires y { y ≤ 100000 }
    ensures { Puts O.taken O.faults draft.old draft.new sink.old sink.new (detector_text layout y marks.now spans.now detector.0) }
{
    put_name(draft, sink, layout, y, detector);
    put_across(draft, sink, y + 19, right_of(layout));
    put_covers(draft, sink, layout, y, detector, spans);
    put_fronts(draft, sink, layout, y, detector, marks);
}

// Whether a detector has a front in the diagram.
fn has_front(marks: &[FrontMark], detector: DetNo) -> bool
    ensures { result ≡ has_front marks.now detector.0 }
{
    marks.iter().any(|mark| mark.detector.0 == detector.0)
}

// Whether a detector has a row: it has a front or is covered in the diagram.
fn is_told(marks: &[FrontMark], covers: &[Cover], detector: DetNo) -> bool
    requires covers { length covers.now ≡ 64 }
    requires detector { (1 ≤ detector.0) × (detector.0 ≤ 64) }
    ensures { result ≡ is_told marks.now (spans_in covers.now) detector.0 }
{
    has_front(marks, detector) || is_covered(spans_of(covers, detector))
}

// How many rows a detector has.
fn row_count(marks: &[FrontMark], covers: &[Cover], detector: DetNo) -> u32
    requires covers { length covers.now ≡ 64 }
    requires detector { (1 ≤ detector.0) × (detector.0 ≤ 64) }
    ensures count { result ≡ row_count marks.now (spans_in covers.now) detector.0 }
    ensures few { result ≤ 1 }
{
    if is_told(marks, covers, detector) {
        1
    } else {
        0
    }
}

// Puts a detector's row, where it has one and that is in the part.
fn put_shown<O: Sink>(
    draft: &mut Draft,
    sink: &mut O,
    layout: Layout,
    row: u32,
    detector: DetNo,
    marks: &[FrontMark],
    covers: &[Cover],
)
    requires layout { IsLayout layout }
    requires row { layout.row ≤ 20000 }
    requires covers { length covers.now ≡ 64 }
    requires detector { (1 ≤ detector.0) × (detector.0 ≤ 64) }
    ensures { Puts O.taken O.faults draft.old draft.new sink.old sink.new
        (shown_text layout row marks.now (spans_in covers.now) detector.0) }
{
    if is_told(marks, covers, detector) && has_row(layout, row) {
        let spans = spans_of(covers, detector);
        put_detector(
            draft,
            sink,
            layout,
            y_of(layout, row),
            detector,
            marks,
            spans,
        );
    }
}

/// How many rows the detectors have.
pub fn count_shown(marks: &[FrontMark], covers: &[Cover]) -> u32
    requires { length covers.now ≡ 64 }
    ensures count { result ≡ shown_to marks.now (spans_in covers.now) 64 }
    ensures fits { result ≤ 64 }
{
    let mut count = 0;
    for place in 0..64u8 {
        count += row_count(marks, covers, DetNo(place + 1));
    }
    count
}

/// Puts the rows of the detectors, from this row on, as far as they are in the part.
pub fn put_detectors<O: Sink>(
    draft: &mut Draft,
    sink: &mut O,
    layout: Layout,
    row: u32,
    marks: &[FrontMark],
    covers: &[Cover],
)
    requires layout { IsLayout layout }
    requires part { layout.row ≤ 20000 }
    requires row { row ≤ 100000 }
    requires covers { length covers.now ≡ 64 }
    ensures { Puts O.taken O.faults draft.old draft.new sink.old sink.new
        (detectors_text layout row marks.now (spans_in covers.now) 64) }
{
    let mut shown = 0;
    for place in 0..64u8 {
        let detector = DetNo(place + 1);
        put_shown(draft, sink, layout, row + shown, detector, marks, covers);
        shown += row_count(marks, covers, detector);
    }
}
