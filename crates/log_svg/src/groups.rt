// The rows of all groups.
ghost use Rattle.std.specs.Prelude.{◌≡◌, ◌+◌, ◌*◌, ◌^◌, ◌<◌, ◌≤◌, ◌++◌, ℕ, List, Option, All, length};
ghost use Rattle.sig_io.specs.Draft.{Puts};
ghost use Rattle.log_svg.specs.Layout.{IsLayout};
ghost use Rattle.log_svg.specs.Marks.{IsRefused};
ghost use Rattle.log_svg.specs.Groups.{groups_text, marked_group, minimum_of, shown_group};

use crate::layout::{Layout, has_row, y_of};
use crate::marks::{RefusalMark, put_marks};
use crate::row::put_group;
use log_chart::{Chart, Span};
use sig_io::{Draft, Sink};
use sig_types::{Aspect, GroupNo, ShortName};

// Puts a group at this height, and the marks of its refused turns.
fn put_marked<O: Sink>(
    draft: &mut Draft,
    sink: &mut O,
    layout: Layout,
    names: &[ShortName],
    group: GroupNo,
    y: u32,
    name: &[u8],
    minimum: u32,
    spans: &[Span<Aspect>],
    marks: &[RefusalMark],
)
    requires layout { IsLayout layout }
    requires y { y ≤ 100000 }
    requires name { length name.now ≤ 32 }
    requires minimum { minimum ≤ 255 }
    requires marks { All (λ m. IsRefused (length names.now) m.refused) marks.now }
    ensures { Puts O.taken O.faults draft.old draft.new sink.old sink.new
        (marked_group names.now layout y group.0 name.now minimum spans.now marks.now) }
{
    put_group(draft, sink, layout, y, name, minimum, spans);
    put_marks(draft, sink, layout, names, Some(group), y + 9, marks);
}

// Puts a group, where its row is in the part.
fn put_shown<O: Sink>(
    draft: &mut Draft,
    sink: &mut O,
    layout: Layout,
    names: &[ShortName],
    group: GroupNo,
    name: &[u8],
    minimum: u32,
    spans: &[Span<Aspect>],
    marks: &[RefusalMark],
)
    requires layout { IsLayout layout }
    requires row { layout.row ≤ 20000 }
    requires name { length name.now ≤ 32 }
    requires minimum { minimum ≤ 255 }
    requires marks { All (λ m. IsRefused (length names.now) m.refused) marks.now }
    ensures { Puts O.taken O.faults draft.old draft.new sink.old sink.new
        (shown_group names.now layout group.0 name.now minimum spans.now marks.now) }
{
    let row = u32::from(group.0);
    if has_row(layout, row) {
        put_marked(
            draft,
            sink,
            layout,
            names,
            group,
            y_of(layout, row),
            name,
            minimum,
            spans,
            marks,
        );
    }
}

// The minimum green of a group, 0 where there is none.
fn minimum_of(minimums: &[u8], group: GroupNo) -> u32
    ensures minimum { result ≡ minimum_of minimums.now group.0 }
    ensures most { result ≤ 255 }
{
    match minimums.get(usize::from(group.0)) {
        Some(minimum) => u32::from(*minimum),
        None => 0,
    }
}

/// Puts those rows of a chart of the diagram's seconds that are in the part, with the names of the groups, their minimum greens and
/// the marks of refused turns.
pub fn put_groups<O: Sink>(
    draft: &mut Draft,
    sink: &mut O,
    layout: Layout,
    names: &[ShortName],
    minimums: &[u8],
    chart: &Chart,
    marks: &[RefusalMark],
)
    requires layout { IsLayout layout }
    requires names { length names.now ≤ 64 }
    requires row { layout.row ≤ 20000 }
    requires chart { length chart.now.rows ≡ length names.now }
    requires marks { All (λ m. IsRefused (length names.now) m.refused) marks.now }
    ensures { Puts O.taken O.faults draft.old draft.new sink.old sink.new
        (groups_text layout names.now minimums.now chart.now.rows marks.now (length names.now)) }
{
    for place in 0..names.len() {
        let group = GroupNo(place as u8);
        let name = &names[place];
        let row = chart.row(group);
        let minimum = minimum_of(minimums, group);
        put_shown(
            draft,
            sink,
            layout,
            names,
            group,
            name.bytes(),
            minimum,
            row,
            marks,
        );
    }
}
