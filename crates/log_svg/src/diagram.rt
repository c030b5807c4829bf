// A whole signal timing diagram.
ghost use Rattle.std.specs.Prelude.{◌≡◌, ◌+◌, ◌-◌, ◌*◌, ◌/◌, ◌^◌, ◌<◌, ◌≤◌, ◌++◌, ℕ, List, Option, length};
ghost use Rattle.sig_io.specs.Draft.{Puts};
ghost use Rattle.log_svg.specs.Layout.{IsLayout, IsSheet, top_of};
ghost use Rattle.log_svg.specs.LookIn.{look_in};
ghost use Rattle.log_svg.specs.ShownIn.{shown_in};
ghost use Rattle.log_svg.specs.Words.{IsLook};
ghost use Rattle.log_svg.specs.Diagram.{IsShowable, IsStrip, detectors_row, diagram_text, fault_rows, faults_row, lower_text, named_faults, panel_at, panel_text};
ghost use Rattle.log_svg.specs.Diagram.{part_text, parts_text, rows_in, sheet_in, shift_text, strip_from, strip_seconds, strips_in, strips_text, upper_text, whole_text};

use crate::axis::put_axis;
use crate::band::put_band;
use crate::fronts::{FrontMark, count_shown, put_detectors};
use crate::groups::put_groups;
use crate::head::put_head;
use crate::layout::{Layout, Sheet, end_of, has_row, top_of, y_of};
use crate::legend::{put_least_key, put_legend};
use crate::marks::{FaultMark, RefusalMark, put_faults, put_marks};
use crate::pieces::put_label;
use crate::words::Look;
use log_chart::{Chart, Cover, Span};
use sig_io::{Draft, Sink};
use sig_types::{ShortName, StagePlace};

/// What a diagram shows: the groups of a log in some of its seconds.
#[derive(Drop)]
pub struct Diagram {
    /// The names of the groups.
    pub names: Vec<ShortName>,
    /// The first second.
    pub from: u32,
    /// The last second.
    pub to: u32,
    /// The chart of these seconds.
    pub chart: Chart,
    /// The stays at stages and interstages.
    pub stays: Vec<Span<StagePlace>>,
    /// The fronts of the detectors.
    pub fronts: Vec<FrontMark>,
    /// The 64 detectors, with the spans in which they are covered.
    pub covers: Vec<Cover>,
    /// The refused commands.
    pub refusals: Vec<RefusalMark>,
    /// The faults.
    pub faults: Vec<FaultMark>,
}

// How many rows there are for faults.
fn fault_rows(faults: &[FaultMark]) -> u32
    ensures rows { result ≡ fault_rows faults.now }
    ensures few { result ≤ 1 }
{
    if faults.len() == 0 { 0 } else { 1 }
}

// The row of faults, behind those of the groups.
fn faults_at(diagram: &Diagram) -> u32
    requires { IsShowable (shown_in diagram.now) }
    ensures row { result ≡ length diagram.now.names.items }
    ensures fits { result ≤ 64 }
{
    diagram.names.len() as u32
}

// The first row of detectors.
fn detectors_row(diagram: &Diagram) -> u32
    requires { IsShowable (shown_in diagram.now) }
    ensures row { result ≡ detectors_row (shown_in diagram.now) }
    ensures fits { result ≤ 65 }
{
    faults_at(diagram) + fault_rows(&diagram.faults)
}

// How many rows there are.
fn rows_in(diagram: &Diagram) -> u32
    requires { IsShowable (shown_in diagram.now) }
    ensures rows { result ≡ rows_in (shown_in diagram.now) }
    ensures fits { result ≤ 129 }
{
    detectors_row(diagram) + count_shown(&diagram.fronts, &diagram.covers)
}

// The seconds of a whole strip.
fn strip_seconds(diagram: &Diagram, strip: u32) -> u32
    requires diagram { IsShowable (shown_in diagram.now) }
    requires strip { IsStrip strip }
    ensures seconds { result ≡ strip_seconds (shown_in diagram.now) strip }
    ensures some { 1 ≤ result }
    ensures fits { result ≤ 600 }
{
    strip.min(diagram.to + 1 - diagram.from)
}

// How many strips there are.
fn strips_in(diagram: &Diagram, strip: u32) -> u32
    requires diagram { IsShowable (shown_in diagram.now) }
    requires strip { IsStrip strip }
    ensures strips { result ≡ strips_in (shown_in diagram.now) strip }
    ensures some { 1 ≤ result }
    ensures fits { result ≤ 3600 }
{
    (diagram.to - diagram.from) / strip + 1
}

// The sheet of the diagram.
fn sheet_in(diagram: &Diagram, strip: u32) -> Sheet
    requires diagram { IsShowable (shown_in diagram.now) }
    requires strip { IsStrip strip }
    ensures sheet { result ≡ sheet_in (shown_in diagram.now) strip }
    ensures fits { IsSheet result }
{
    Sheet::of(
        &diagram.names,
        strip_seconds(diagram, strip),
        rows_in(diagram),
        strips_in(diagram, strip),
    )
}

// The first second of a strip.
fn strip_from(diagram: &Diagram, strip: u32, number: u32) -> u32
    requires diagram { IsShowable (shown_in diagram.now) }
    requires number { number < strips_in (shown_in diagram.now) strip }
    ensures from { result ≡ strip_from (shown_in diagram.now) strip number }
    ensures inside { result ≤ diagram.now.to }
{
    diagram.from + strip * number
}

// A part of the rows in a strip.
fn panel_at(diagram: &Diagram, sheet: Sheet, strip: u32, number: u32, part: u32) -> Layout
    requires diagram { IsShowable (shown_in diagram.now) }
    requires sheet { IsSheet sheet }
    requires strip { IsStrip strip }
    requires number { number < strips_in (shown_in diagram.now) strip }
    requires part { part < sheet.parts }
    ensures panel { result ≡ panel_at sheet (shown_in diagram.now) strip number part }
    ensures fits { IsLayout result }
    ensures row { result.row ≤ 20000 }
{
    let from = strip_from(diagram, strip, number);
    let row = part * sheet.each;
    Layout {
        first: diagram.from,
        last: diagram.to,
        from,
        to: diagram.to.min(from + strip - 1),
        scale: sheet.scale,
        left: sheet.left,
        row,
        rows: sheet.each.min(sheet.rows.saturating_sub(row)),
    }
}

// Puts the row of faults, with its name.
fn put_named_faults<O: Sink>(
    draft: &mut Draft,
    sink: &mut O,
    layout: Layout,
    y: u32,
    marks: &[FaultMark],
)
    requires layout { IsLayout layout }
    requires y { y ≤ 100000 }
    ensures { Puts O.taken O.faults draft.old draft.new sink.old sink.new (named_faults layout y marks.now) }
{
    put_label(draft, sink, b"d", layout.left - 12, y + 14, b"faults");
    put_faults(draft, sink, layout, y, marks);
}

// Puts the row of faults, where there are any and it is in the part.
fn put_faults_row<O: Sink>(
    draft: &mut Draft,
    sink: &mut O,
    layout: Layout,
    row: u32,
    marks: &[FaultMark],
)
    requires layout { IsLayout layout }
    requires row { layout.row ≤ 20000 }
    ensures { Puts O.taken O.faults draft.old draft.new sink.old sink.new (faults_row layout row marks.now) }
{
    if marks.len() > 0 && has_row(layout, row) {
        put_named_faults(draft, sink, layout, y_of(layout, row), marks);
    }
}

// Puts the seconds, the band and the rows of groups, with the marks of what was refused.
fn put_upper<O: Sink>(
    draft: &mut Draft,
    sink: &mut O,
    look: Look<'_>,
    layout: Layout,
    diagram: &Diagram,
)
    requires look { IsLook (look_in look) }
    requires layout { IsLayout layout }
    requires row { layout.row ≤ 20000 }
    requires diagram { IsShowable (shown_in diagram.now) }
    ensures { Puts O.taken O.faults draft.old draft.new sink.old sink.new (upper_text (look_in look.entry) layout (shown_in diagram.now)) }
{
    put_axis(draft, sink, look.begin, layout, end_of(layout));
    put_label(draft, sink, b"n", layout.left - 12, 73, b"stage");
    put_band(draft, sink, look.stages, layout, &diagram.stays);
    put_marks(
        draft,
        sink,
        layout,
        &diagram.names,
        None,
        58,
        &diagram.refusals,
    );
    put_groups(
        draft,
        sink,
        layout,
        &diagram.names,
        look.minimums,
        &diagram.chart,
        &diagram.refusals,
    );
}

// Puts the rows of faults and detectors.
fn put_lower<O: Sink>(draft: &mut Draft, sink: &mut O, layout: Layout, diagram: &Diagram)
    requires layout { IsLayout layout }
    requires row { layout.row ≤ 20000 }
    requires diagram { IsShowable (shown_in diagram.now) }
    ensures { Puts O.taken O.faults draft.old draft.new sink.old sink.new (lower_text layout (shown_in diagram.now)) }
{
    put_faults_row(draft, sink, layout, faults_at(diagram), &diagram.faults);
    put_detectors(
        draft,
        sink,
        layout,
        detectors_row(diagram),
        &diagram.fronts,
        &diagram.covers,
    );
}

// Puts that what follows stands so far below.
fn put_shift<O: Sink>(draft: &mut Draft, sink: &mut O, y: u32)
    ensures { Puts O.taken O.faults draft.old draft.new sink.old sink.new (shift_text y) }
{
    draft.put(sink, b"<g transform=\"translate(0 ");
    draft.put_number(sink, y);
    draft.put(sink, b")\">\n");
}

// Puts a panel at this height.
fn put_panel<O: Sink>(
    draft: &mut Draft,
    sink: &mut O,
    look: Look<'_>,
    layout: Layout,
    y: u32,
    diagram: &Diagram,
)
    requires look { IsLook (look_in look) }
    requires layout { IsLayout layout }
    requires row { layout.row ≤ 20000 }
    requires diagram { IsShowable (shown_in diagram.now) }
    ensures { Puts O.taken O.faults draft.old draft.new sink.old sink.new (panel_text (look_in look.entry) layout y (shown_in diagram.now)) }
{
    put_shift(draft, sink, y);
    put_upper(draft, sink, look, layout, diagram);
    put_lower(draft, sink, layout, diagram);
    draft.put(sink, b"</g>\n");
}

// Puts the parts of a strip.
fn put_parts<O: Sink>(
    draft: &mut Draft,
    sink: &mut O,
    sheet: Sheet,
    diagram: &Diagram,
    look: Look<'_>,
    number: u32,
)
    requires sheet { IsSheet sheet }
    requires diagram { IsShowable (shown_in diagram.now) }
    requires look { IsLook (look_in look) }
    requires number { number < strips_in (shown_in diagram.now) look.strip }
    requires few { number < 3600 }
    ensures { Puts O.taken O.faults draft.old draft.new sink.old sink.new
        (parts_text sheet (shown_in diagram.now) (look_in look.entry) number sheet.parts) }
{
    for part in 0..sheet.parts {
        let layout = panel_at(diagram, sheet, look.strip, number, part);
        let y = top_of(sheet, number * sheet.parts + part);
        put_panel(draft, sink, look, layout, y, diagram);
    }
}

// Puts the strips.
fn put_strips<O: Sink>(
    draft: &mut Draft,
    sink: &mut O,
    sheet: Sheet,
    diagram: &Diagram,
    look: Look<'_>,
)
    requires sheet { IsSheet sheet }
    requires diagram { IsShowable (shown_in diagram.now) }
    requires look { IsLook (look_in look) }
    requires strips { sheet.strips ≡ strips_in (shown_in diagram.now) look.strip }
    ensures { Puts O.taken O.faults draft.old draft.new sink.old sink.new
        (strips_text sheet (shown_in diagram.now) (look_in look.entry) sheet.strips) }
{
    for number in 0..sheet.strips {
        put_parts(draft, sink, sheet, diagram, look, number);
    }
}

/// Puts the text of the diagram, which is to look so.
pub fn put_diagram<O: Sink>(draft: &mut Draft, sink: &mut O, diagram: &Diagram, look: Look<'_>)
    requires diagram { IsShowable (shown_in diagram.now) }
    requires look { IsLook (look_in look) }
    ensures { Puts O.taken O.faults draft.old draft.new sink.old sink.new (diagram_text (shown_in diagram.now) (look_in look.entry)) }
{
    let sheet = sheet_in(diagram, look.strip);
    put_head(
        draft,
        sink,
        sheet,
        look.title.as_bytes(),
        diagram.from,
        diagram.to,
    );
    put_legend(draft, sink, 32);
    put_least_key(draft, sink, sheet.width, look.minimums);
    put_strips(draft, sink, sheet, diagram, look);
    draft.put(sink, b"</svg>\n");
}
