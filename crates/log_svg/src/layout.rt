// Where things stand in a diagram.
ghost use Rattle.std.specs.Prelude.{◌≡◌, ◌+◌, ◌-◌, ◌*◌, ◌/◌, ◌<◌, ◌≤◌, IsTrue};
ghost use Rattle.log_svg.specs.Layout.{IsLayout, end_of, has_row, has_second, middle_of, right_of, x_of, y_of};
ghost use Rattle.log_svg.specs.Layout.{IsSheet, each_of, height_of, left_of, longest_of, pitch_of, scale_of, sheet_by, third_by, third_of, top_of};

use sig_types::ShortName;

/// Where a part of the rows stands in a strip of the seconds.
#[derive(Clone, Copy)]
pub struct Layout {
    /// The first second of the diagram.
    pub first: u32,
    /// The last second of the diagram.
    pub last: u32,
    /// The first second of the strip.
    pub from: u32,
    /// The last second of the strip.
    pub to: u32,
    /// The units of a second.
    pub scale: u32,
    /// Where the first second begins.
    pub left: u32,
    /// The first row, counted from 0.
    pub row: u32,
    /// How many rows there are.
    pub rows: u32,
}

/// Where a second begins, or where the last one ends.
pub(crate) fn x_of(layout: Layout, second: u32) -> u32
    requires layout { IsLayout layout }
    requires second { (layout.from ≤ second) × (second ≤ layout.to + 1) }
    ensures x { result ≡ x_of layout second }
    ensures fits { result ≤ 13000 }
    ensures room { 12 ≤ result }
{
    layout.left + (second - layout.from) * layout.scale
}

/// The middle of a second.
pub(crate) fn middle_of(layout: Layout, second: u32) -> u32
    requires layout { IsLayout layout }
    requires second { (layout.from ≤ second) × (second ≤ layout.to) }
    ensures x { result ≡ middle_of layout second }
    ensures fits { result ≤ 14000 }
    ensures room { 13 ≤ result }
{
    x_of(layout, second) + layout.scale / 2
}

/// Where the last second ends.
pub(crate) fn right_of(layout: Layout) -> u32
    requires { IsLayout layout }
    ensures x { result ≡ right_of layout }
    ensures fits { result ≤ 13000 }
{
    x_of(layout, layout.to + 1)
}

/// Whether the strip has this second.
pub(crate) fn has_second(layout: Layout, second: u32) -> bool
    ensures has { result ≡ has_second layout second }
    ensures order { IsTrue result → (layout.from ≤ second) × (second ≤ layout.to) }
{
    layout.from <= second && second <= layout.to
}

/// Whether the part has this row.
pub(crate) fn has_row(layout: Layout, row: u32) -> bool
    requires layout { IsLayout layout }
    requires row { layout.row ≤ 20000 }
    ensures has { result ≡ has_row layout row }
    ensures order { IsTrue result → (layout.row ≤ row) × (row < layout.row + layout.rows) }
{
    layout.row <= row && row < layout.row + layout.rows
}

/// Where a row of the part begins.
pub(crate) fn y_of(layout: Layout, row: u32) -> u32
    requires layout { IsLayout layout }
    requires row { (layout.row ≤ row) × (row < layout.row + layout.rows) }
    ensures y { result ≡ y_of layout row }
    ensures fits { result ≤ 5000 }
{
    84 + 20 * (row - layout.row)
}

/// Where the last row ends.
pub(crate) fn end_of(layout: Layout) -> u32
    requires { IsLayout layout }
    ensures end { result ≡ end_of layout }
    ensures fits { result ≤ 5000 }
{
    84 + 20 * layout.rows
}

/// Where the panels of a diagram stand: each a part of the rows in a strip of the seconds.
#[derive(Clone, Copy)]
pub struct Sheet {
    /// Where the first second of a strip begins.
    pub left: u32,
    /// The units of a second.
    pub scale: u32,
    /// How wide the picture is.
    pub width: u32,
    /// How high a page is.
    pub page: u32,
    /// How many rows there are.
    pub rows: u32,
    /// How many of them a part has.
    pub each: u32,
    /// How many parts there are.
    pub parts: u32,
    /// How many strips there are.
    pub strips: u32,
    /// How high a panel is.
    pub pitch: u32,
    /// How many panels a page has.
    pub fit: u32,
}

// The letters of the longest of these names.
fn longest_of(names: &[ShortName]) -> u32
    ensures longest { result ≡ longest_of names.now }
    ensures fits { result ≤ 32 }
{
    let mut longest = 0;
    for name in names {
        longest = longest.max(name.bytes().len() as u32);
    }
    longest
}

/// Where the first second begins, with room for the names of the groups at the left.
pub(crate) fn left_of(names: &[ShortName]) -> u32
    ensures left { result ≡ left_of names.now }
    ensures least { 12 ≤ result }
    ensures fits { result ≤ 248 }
{
    24 + 7 * longest_of(names).max(6)
}

// The units of a second where a strip has so many.
fn scale_of(seconds: u32) -> u32
    requires { (1 ≤ seconds) × (seconds ≤ 600) }
    ensures scale { result ≡ scale_of seconds }
    ensures least { 2 ≤ result }
    ensures fits { result ≤ 20 }
    ensures room { seconds * result ≤ 1200 }
{
    (1200 / seconds).min(20)
}

// A third of the width of the picture.
fn third_of(left: u32, plot: u32) -> u32
    requires left { left ≤ 248 }
    requires plot { plot ≤ 1200 }
    ensures third { result ≡ third_of left plot }
    ensures least { 320 ≤ result }
    ensures fits { result ≤ 500 }
{
    ((left + plot + 24).max(960) + 2) / 3
}

// How many rows a part has.
fn each_of(rows: u32, third: u32) -> u32
    requires rows { rows ≤ 129 }
    requires third { (320 ≤ third) × (third ≤ 500) }
    ensures each { result ≡ each_of rows third }
    ensures some { 1 ≤ result }
    ensures fits { result ≤ 129 }
{
    ((2 * third - 164) / 20).min(rows).max(1)
}

impl Sheet {
    /// The sheet of so many strips that have so many seconds each, and of so many rows, the first of them those of groups with these
    /// names.
    pub(crate) fn of(names: &[ShortName], seconds: u32, rows: u32, strips: u32) -> Sheet
        requires seconds { (1 ≤ seconds) × (seconds ≤ 600) }
        requires rows { rows ≤ 129 }
        requires strips { (1 ≤ strips) × (strips ≤ 3600) }
        ensures sheet { result ≡ sheet_by (left_of names.now) seconds rows strips }
        ensures fits { IsSheet result }
    {
        let left = left_of(names);
        let scale = scale_of(seconds);
        let third = third_of(left, seconds * scale);
        let each = each_of(rows, third);
        let pitch = 90 + 20 * each;
        Sheet {
            left,
            scale,
            width: 3 * third,
            page: 2 * third,
            rows,
            each,
            parts: rows.saturating_sub(1) / each + 1,
            strips,
            pitch,
            fit: ((2 * third - 74) / pitch).max(1),
        }
    }
}

/// Where a panel begins.
pub(crate) fn top_of(sheet: Sheet, panel: u32) -> u32
    requires sheet { IsSheet sheet }
    requires panel { panel ≤ 464400 }
    ensures top { result ≡ top_of sheet panel }
    ensures fits { result ≤ 2200000000 }
{
    50 + panel / sheet.fit * sheet.page + panel % sheet.fit * sheet.pitch
}

/// How high the picture is.
pub(crate) fn height_of(sheet: Sheet) -> u32
    requires { IsSheet sheet }
    ensures { result ≡ height_of sheet }
{
    top_of(sheet, sheet.strips * sheet.parts - 1) + sheet.pitch + 24
}
