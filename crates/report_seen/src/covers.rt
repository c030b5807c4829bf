// The seconds in which a detector is covered, as characters.
ghost use Rattle.std.specs.Prelude.{◌≡◌, ◌+◌, ◌<◌, ◌≤◌, ◌^◌};
ghost use Rattle.std.specs.List.{fold};
ghost use Rattle.report_seen.specs.Letters.{IsBlock, covered_to, empty_row, with_cover};

use crate::letters::{Block, MarkRow, empty_row, seconds_in, with_letter};
use log_chart::Span;

// The row with the sign of a covered detector in so many seconds from a second on.
fn covered_to(block: Block, row: MarkRow, second: u32, count: u32) -> MarkRow
    requires block { IsBlock block }
    requires end { row.end ≤ 60 }
    requires second { second + count < 2 ^ 32 }
    ensures row { result ≡ covered_to block row second count }
    ensures end { result.end ≤ 60 }
{
    let mut filled = row;
    for place in 0..count {
        filled = with_letter(block, filled, second + place, b'=');
    }
    filled
}

// The row with the seconds of a span, where the detector is covered in them.
fn with_cover(block: Block, row: MarkRow, span: &Span<bool>) -> MarkRow
    requires block { IsBlock block }
    requires end { row.end ≤ 60 }
    ensures row { result ≡ with_cover block row span.now }
    ensures end { result.end ≤ 60 }
{
    if span.shown {
        let seconds = seconds_in(block, span.first.0, span.last.0);
        covered_to(block, row, block.first.max(span.first.0), seconds)
    } else {
        row
    }
}

/// The row with the seconds of these spans in which a detector is covered.
pub(crate) fn with_covers(block: Block, spans: &[Span<bool>]) -> MarkRow
    requires block { IsBlock block }
    ensures row { result ≡ fold (with_cover block) empty_row spans.now }
    ensures end { result.end ≤ 60 }
{
    let mut row = empty_row();
    for span in spans {
        row = with_cover(block, row, span);
    }
    row
}
