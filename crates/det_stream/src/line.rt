// One line of a detector file, judged after the lines before it.
ghost use Rattle.std.specs.Prelude.{◌≡◌, ◌+◌, ◌*◌, ◌<◌, ◌≤◌, length, OnOk};
ghost use Rattle.det_stream.specs.Entries.{frame_of};
ghost use Rattle.det_stream.specs.Stream.{IsTooLong, LineIsJudged};
ghost use Rattle.det_stream.specs.Totals.{HasAtMost, IsSum, RearsWithinFronts};

use crate::entries::read_entries;
use crate::refusal::StreamWhy;
use crate::totals::{Totals, judge_totals};
use sig_types::{Frame, MOST_LINES};

/// The reason to refuse a line of more than 1,024 bytes that follows `second` lines.
pub fn too_long(second: u32) -> StreamWhy
    requires { second ≤ 604800 }
    ensures { IsTooLong second result }
{
    if second == MOST_LINES {
        StreamWhy::TooManySeconds
    } else {
        StreamWhy::LineTooLong
    }
}

/// Reads a line of at most 1,024 bytes that follows `second` lines: its frame, and the counts so far with it.
#[inline(always)]
pub fn read_line(
    second: u32,
    line: &[u8],
    totals: &mut Totals,
    frame: &mut Frame,
) -> Result<(), StreamWhy>
    requires at_most { second ≤ 604800 }
    requires totals { HasAtMost (99 * second) totals.old }
    requires within_fronts { RearsWithinFronts totals.old }
    ensures judged { LineIsJudged second totals.old line.now result }
    ensures below { OnOk result (second < 604800) }
    ensures frame { OnOk result (frame.new ≡ frame_of line.now) }
    ensures counts { OnOk result (HasAtMost 99 frame.new) }
    ensures size { OnOk result (length frame.new ≡ 64) }
    ensures sum { OnOk result (IsSum totals.old frame.new totals.new) }
    ensures totals { OnOk result (HasAtMost (99 * (second + 1)) totals.new) }
    ensures within_fronts { OnOk result (RearsWithinFronts totals.new) }
{
    if second == MOST_LINES {
        return Err(StreamWhy::TooManySeconds);
    }
    match read_entries(line, totals, frame) {
        Ok(true) => Ok(()),
        Ok(false) => judge_totals(totals, frame),
        Err(why) => Err(why),
    }
}
