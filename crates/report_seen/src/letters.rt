// A diagram of characters, in blocks of 60 seconds.
ghost use Rattle.std.specs.Prelude.{◌≡◌, ◌+◌, ◌-◌, ◌*◌, ◌/◌, ◌^◌, ◌<◌, ◌≤◌, ◌++◌, Option, length, replicate};
ghost use Rattle.std.specs.Fmt.{decimal};
ghost use Rattle.sig_io.specs.Draft.{Puts};
ghost use Rattle.log_svg.specs.Covers.{spans_in};
ghost use Rattle.log_svg.specs.Diagram.{IsShowable};
ghost use Rattle.log_svg.specs.ShownIn.{shown_in};
ghost use Rattle.report_seen.specs.Letters.{IsBlock, block_at, block_head, block_rows, block_text, letters_in, letters_text};
ghost use Rattle.report_seen.specs.Letters.{band_row, detector_row, detector_rows, faults_row, group_row, group_rows, groups_rows};
ghost use Rattle.report_seen.specs.Letters.{empty_row, numbers_row, refusals_row, ticks_row, filler_of, free_after, margin_of};
ghost use Rattle.report_seen.specs.Letters.{detector_word, front_letter, is_numbered, key_text, letter_of, number_cell, seconds_in};
ghost use Rattle.report_seen.specs.Letters.{marks_text, name_text, span_text, stay_cells, stay_text, tick_of, with_first, with_front, with_letter, with_refusal};

use crate::covers::with_covers;
use itoa::Buffer;
use log_chart::{Cover, Span};
use log_svg::{
    Diagram, FaultMark, FrontMark, RefusalMark, is_of, put_place, rule_letter, rule_of, spans_of,
};
use sig_io::{Draft, Sink};
use sig_types::{Aspect, DetNo, GroupNo, ShortName, StagePlace};

// How many seconds stand in a row.
const BLOCK: u32 = 60;

// A block's first second, how many seconds it has, and how many columns stand before them.
#[derive(Clone, Copy)]
pub(crate) struct Block {
    pub(crate) first: u32,
    pub(crate) count: u32,
    pub(crate) margin: usize,
}

// Puts the same character so many times.
fn put_times<O: Sink>(draft: &mut Draft, sink: &mut O, letter: u8, count: u32)
    ensures { Puts O.taken O.faults draft.old draft.new sink.old sink.new (replicate count letter) }
{
    for _time in 0..count {
        draft.put(sink, &[letter]);
    }
}

// Puts what stands at the beginning of a row.
fn put_name<O: Sink>(draft: &mut Draft, sink: &mut O, block: Block, name: &[u8])
    requires block { IsBlock block }
    requires name { length name.now ≤ 32 }
    ensures { Puts O.taken O.faults draft.old draft.new sink.old sink.new (name_text block.margin name.now) }
{
    draft.put(sink, name);
    put_times(
        draft,
        sink,
        b' ',
        block.margin.saturating_sub(name.len()) as u32,
    );
}

// How many of the seconds from `first` to `last` the block has.
pub(crate) fn seconds_in(block: Block, first: u32, last: u32) -> u32
    requires { IsBlock block }
    ensures seconds { result ≡ seconds_in block first last }
    ensures few { result ≤ 60 }
{
    let past = last.min(block.first + block.count - 1) + 1;
    past.saturating_sub(first.max(block.first))
}

// How many digits a number has.
fn digits(n: u32) -> u32
    ensures digits { result ≡ length (decimal n) }
    ensures few { result ≤ 10 }
{
    Buffer::new().format(n).len() as u32
}

// Whether the number of a second stands above it: it is a tenth one, or the first of the block with room before the next tenth.
fn is_numbered(block: Block, second: u32) -> bool
    ensures { result ≡ is_numbered block.first second }
{
    second % 10 == 0 || second == block.first && second % 10 + digits(second) < 10
}

// Puts what stands above a second, where nothing stands yet from second `free` on.
fn put_number_cell<O: Sink>(draft: &mut Draft, sink: &mut O, block: Block, free: u32, second: u32)
    ensures { Puts O.taken O.faults draft.old draft.new sink.old sink.new (number_cell block.first free second) }
{
    if second >= free {
        if is_numbered(block, second) {
            draft.put_number(sink, second);
        } else {
            draft.put(sink, b" ");
        }
    }
}

// The first second above which nothing stands after it.
fn free_after(block: Block, free: u32, second: u32) -> u32
    requires { second < 1000000 }
    ensures { result ≡ free_after block.first free second }
{
    if second < free {
        free
    } else if is_numbered(block, second) {
        second + digits(second)
    } else {
        second + 1
    }
}

// Puts the numbers of the seconds.
fn put_numbers<O: Sink>(draft: &mut Draft, sink: &mut O, block: Block)
    requires { IsBlock block }
    ensures { Puts O.taken O.faults draft.old draft.new sink.old sink.new (numbers_row block) }
{
    put_name(draft, sink, block, b"");
    let mut free = block.first;
    for place in 0..block.count {
        put_number_cell(draft, sink, block, free, block.first + place);
        free = free_after(block, free, block.first + place);
    }
    draft.put(sink, b"\n");
}

// The tick of a second.
fn tick_of(second: u32) -> &'static [u8]
    ensures tick { result.now ≡ tick_of second }
    ensures short { length result.now ≤ 1 }
{
    if second % 10 == 0 {
        b"|"
    } else if second % 5 == 0 {
        b"+"
    } else {
        b"."
    }
}

// Puts the ticks of the seconds.
fn put_ticks<O: Sink>(draft: &mut Draft, sink: &mut O, block: Block)
    requires { IsBlock block }
    ensures { Puts O.taken O.faults draft.old draft.new sink.old sink.new (ticks_row block) }
{
    put_name(draft, sink, block, b"");
    for place in 0..block.count {
        draft.put(sink, tick_of(block.first + place));
    }
    draft.put(sink, b"\n");
}

// How many letters the name of a stage or an interstage has.
fn letters_in(place: StagePlace) -> u32
    ensures { result ≡ letters_in place }
{
    match place {
        StagePlace::NoPlan => 1,
        StagePlace::Stage(stage) => 1 + digits(u32::from(stage.0)),
        StagePlace::Inter { from, to, t: _ } => {
            1 + digits(u32::from(from.0)) + digits(u32::from(to.0))
        }
    }
}

// What fills the seconds of a stage or an interstage behind its name.
fn filler_of(place: StagePlace) -> u8
    ensures { result ≡ filler_of place }
{
    match place {
        StagePlace::NoPlan => b'.',
        StagePlace::Stage(_) => b'.',
        StagePlace::Inter {
            from: _,
            to: _,
            t: _,
        } => b'>',
    }
}

// Puts so many seconds of a stage or an interstage.
#[tactic(auto, unfolding(crate::specs::Letters::stay_cells))]
fn put_cells<O: Sink>(draft: &mut Draft, sink: &mut O, place: StagePlace, seconds: u32)
    requires { seconds ≤ 60 }
    ensures { Puts O.taken O.faults draft.old draft.new sink.old sink.new (stay_cells place seconds) }
{
    let letters = letters_in(place);
    if seconds < letters {
        put_times(draft, sink, filler_of(place), seconds);
    } else {
        put_place(draft, sink, place);
        put_times(draft, sink, filler_of(place), seconds - letters);
    }
}

// Puts the seconds of a stay that are in the block.
#[tactic(auto, unfolding(crate::specs::Letters::stay_text))]
fn put_stay<O: Sink>(draft: &mut Draft, sink: &mut O, block: Block, stay: &Span<StagePlace>)
    requires { IsBlock block }
    ensures { Puts O.taken O.faults draft.old draft.new sink.old sink.new (stay_text block stay.now) }
{
    let seconds = seconds_in(block, stay.first.0, stay.last.0);
    if seconds > 0 {
        put_cells(draft, sink, stay.shown, seconds);
    }
}

// Puts the stages.
fn put_band<O: Sink>(draft: &mut Draft, sink: &mut O, block: Block, stays: &[Span<StagePlace>])
    requires block { IsBlock block }
    ensures { Puts O.taken O.faults draft.old draft.new sink.old sink.new (band_row block stays.now) }
{
    put_name(draft, sink, block, b"stage");
    for stay in stays {
        put_stay(draft, sink, block, stay);
    }
    draft.put(sink, b"\n");
}

// The character of an aspect.
fn letter_of(aspect: Aspect) -> u8
    ensures { result ≡ letter_of aspect }
{
    match aspect {
        Aspect::Red => b'-',
        Aspect::RedAmber => b'/',
        Aspect::Green => b'#',
        Aspect::Amber => b'\\',
    }
}

// Puts the seconds of a span that are in the block.
fn put_span<O: Sink>(draft: &mut Draft, sink: &mut O, block: Block, span: &Span<Aspect>)
    requires { IsBlock block }
    ensures { Puts O.taken O.faults draft.old draft.new sink.old sink.new (span_text block span.now) }
{
    let seconds = seconds_in(block, span.first.0, span.last.0);
    put_times(draft, sink, letter_of(span.shown), seconds);
}

// Puts the spans of a group.
fn put_row<O: Sink>(
    draft: &mut Draft,
    sink: &mut O,
    block: Block,
    name: &[u8],
    spans: &[Span<Aspect>],
)
    requires block { IsBlock block }
    requires name { length name.now ≤ 32 }
    ensures { Puts O.taken O.faults draft.old draft.new sink.old sink.new (group_row block name.now spans.now) }
{
    put_name(draft, sink, block, name);
    for span in spans {
        put_span(draft, sink, block, span);
    }
    draft.put(sink, b"\n");
}

// A row of marks: its cells, and how many they are up to the last mark.
#[derive(Clone, Copy)]
pub(crate) struct MarkRow {
    pub(crate) cells: [u8; 60],
    pub(crate) end: usize,
}

// A row of spaces.
pub(crate) fn empty_row() -> MarkRow
    ensures { result ≡ empty_row }
{
    MarkRow {
        cells: [b' '; 60],
        end: 0,
    }
}

// The row with a letter in a second, if that is in the block.
pub(crate) fn with_letter(block: Block, row: MarkRow, second: u32, letter: u8) -> MarkRow
    requires block { IsBlock block }
    requires end { row.end ≤ 60 }
    ensures row { result ≡ with_letter block row second letter }
    ensures end { result.end ≤ 60 }
{
    if second < block.first || block.first + block.count <= second {
        return row;
    }
    let place = (second - block.first) as usize;
    let mut row = row;
    row.cells[place] = letter;
    row.end = row.end.max(place + 1);
    row
}

// Puts a row with its name, where it has a mark.
#[tactic(auto, unfolding(crate::specs::Letters::marks_text))]
fn put_marks<O: Sink>(draft: &mut Draft, sink: &mut O, block: Block, name: &[u8], row: MarkRow)
    requires block { IsBlock block }
    requires name { length name.now ≤ 32 }
    requires end { row.end ≤ 60 }
    ensures { Puts O.taken O.faults draft.old draft.new sink.old sink.new (marks_text block name.now row) }
{
    if row.end > 0 {
        put_name(draft, sink, block, name);
        draft.put(sink, &row.cells[..row.end]);
        draft.put(sink, b"\n");
    }
}

// The row with a letter in a second, if that is in the block, and nothing stands there yet.
fn with_first(block: Block, row: MarkRow, second: u32, letter: u8) -> MarkRow
    requires block { IsBlock block }
    requires end { row.end ≤ 60 }
    ensures row { result ≡ with_first block row second letter }
    ensures end { result.end ≤ 60 }
{
    if second < block.first || block.first + block.count <= second {
        return row;
    }
    let place = (second - block.first) as usize;
    if row.cells[place] != b' ' {
        return row;
    }
    with_letter(block, row, second, letter)
}

// The row with the letter of the rule of a refusal, where it is one that the row shows, and the first one of its second.
fn with_refusal(block: Block, group: Option<GroupNo>, row: MarkRow, mark: &RefusalMark) -> MarkRow
    requires block { IsBlock block }
    requires end { row.end ≤ 60 }
    ensures row { result ≡ with_refusal block group row mark.now }
    ensures end { result.end ≤ 60 }
{
    if is_of(group, mark.refused) {
        with_first(block, row, mark.second, rule_letter(rule_of(mark.refused)))
    } else {
        row
    }
}

// Puts the marks of refused stage commands, or of the refused turns of a group.
fn put_refusals<O: Sink>(
    draft: &mut Draft,
    sink: &mut O,
    block: Block,
    marks: &[RefusalMark],
    group: Option<GroupNo>,
)
    requires { IsBlock block }
    ensures { Puts O.taken O.faults draft.old draft.new sink.old sink.new (refusals_row block marks.now group) }
{
    let mut row = empty_row();
    for mark in marks {
        row = with_refusal(block, group, row, mark);
    }
    put_marks(draft, sink, block, b" refused", row);
}

// Puts the marks of faults.
fn put_faults<O: Sink>(draft: &mut Draft, sink: &mut O, block: Block, marks: &[FaultMark])
    requires { IsBlock block }
    ensures { Puts O.taken O.faults draft.old draft.new sink.old sink.new (faults_row block marks.now) }
{
    let mut row = empty_row();
    for mark in marks {
        row = with_letter(block, row, mark.second, b'X');
    }
    put_marks(draft, sink, block, b"fault", row);
}

// The name of a detector's row.
fn detector_name(number: u8) -> [u8; 3]
    requires { number < 100 }
    ensures { result ≡ detector_word number }
{
    if number < 10 {
        [b'D', b'0' + number, b' ']
    } else {
        [b'D', b'0' + number / 10, b'0' + number % 10]
    }
}

// The digit of some fronts; a star stands for ten or more.
fn front_letter(fronts: u32) -> u8
    ensures { result ≡ front_letter fronts }
{
    if fronts < 10 {
        b'0' + fronts as u8
    } else {
        b'*'
    }
}

// The row with the fronts of a detector in a second.
fn with_front(block: Block, number: u8, row: MarkRow, mark: &FrontMark) -> MarkRow
    requires block { IsBlock block }
    requires end { row.end ≤ 60 }
    ensures row { result ≡ with_front block number row mark.now }
    ensures end { result.end ≤ 60 }
{
    if mark.detector.0 == number {
        with_letter(block, row, mark.second, front_letter(mark.fronts))
    } else {
        row
    }
}

// Puts the fronts of a detector in their seconds, and where there are none, that it is covered.
fn put_detector<O: Sink>(
    draft: &mut Draft,
    sink: &mut O,
    block: Block,
    marks: &[FrontMark],
    spans: &[Span<bool>],
    number: u8,
)
    requires block { IsBlock block }
    requires number { number < 100 }
    ensures { Puts O.taken O.faults draft.old draft.new sink.old sink.new (detector_row block marks.now spans.now number) }
{
    let mut row = with_covers(block, spans);
    for mark in marks {
        row = with_front(block, number, row, mark);
    }
    put_marks(draft, sink, block, &detector_name(number), row);
}

// Puts the rows of all detectors.
fn put_detectors<O: Sink>(
    draft: &mut Draft,
    sink: &mut O,
    block: Block,
    marks: &[FrontMark],
    covers: &[Cover],
)
    requires block { IsBlock block }
    requires covers { length covers.now ≡ 64 }
    ensures { Puts O.taken O.faults draft.old draft.new sink.old sink.new
        (detector_rows block marks.now (spans_in covers.now) 64) }
{
    for place in 0..64u8 {
        let spans = spans_of(covers, DetNo(place + 1));
        put_detector(draft, sink, block, marks, spans, place + 1);
    }
}

// Puts the rows of a group.
fn put_group<O: Sink>(
    draft: &mut Draft,
    sink: &mut O,
    diagram: &Diagram,
    block: Block,
    place: usize,
)
    requires diagram { IsShowable (shown_in diagram.now) }
    requires block { IsBlock block }
    requires place { place < length diagram.now.names.items }
    ensures { Puts O.taken O.faults draft.old draft.new sink.old sink.new (group_rows block (shown_in diagram.now) place) }
{
    let group = GroupNo(place as u8);
    let name = &diagram.names[place];
    put_row(draft, sink, block, name.bytes(), diagram.chart.row(group));
    put_refusals(draft, sink, block, &diagram.refusals, Some(group));
}

// Puts the rows of the groups.
fn put_groups<O: Sink>(draft: &mut Draft, sink: &mut O, diagram: &Diagram, block: Block)
    requires diagram { IsShowable (shown_in diagram.now) }
    requires block { IsBlock block }
    ensures { Puts O.taken O.faults draft.old draft.new sink.old sink.new
        (groups_rows block (shown_in diagram.now) (length diagram.now.names.items)) }
{
    for place in 0..diagram.names.len() {
        put_group(draft, sink, diagram, block, place);
    }
}

// Puts the seconds, the stages and the refused stage commands of a block.
fn put_block_head<O: Sink>(draft: &mut Draft, sink: &mut O, diagram: &Diagram, block: Block)
    requires diagram { IsShowable (shown_in diagram.now) }
    requires block { IsBlock block }
    ensures { Puts O.taken O.faults draft.old draft.new sink.old sink.new (block_head block (shown_in diagram.now)) }
{
    draft.put(sink, b"\n");
    put_numbers(draft, sink, block);
    put_ticks(draft, sink, block);
    put_band(draft, sink, block, &diagram.stays);
    put_refusals(draft, sink, block, &diagram.refusals, None);
}

// Puts the groups, the faults and the detectors of a block.
fn put_block_rows<O: Sink>(draft: &mut Draft, sink: &mut O, diagram: &Diagram, block: Block)
    requires diagram { IsShowable (shown_in diagram.now) }
    requires block { IsBlock block }
    ensures { Puts O.taken O.faults draft.old draft.new sink.old sink.new (block_rows block (shown_in diagram.now)) }
{
    put_groups(draft, sink, diagram, block);
    put_faults(draft, sink, block, &diagram.faults);
    put_detectors(draft, sink, block, &diagram.fronts, &diagram.covers);
}

// Puts a block.
#[tactic(auto, unfolding(crate::specs::Letters::block_text))]
fn put_block<O: Sink>(draft: &mut Draft, sink: &mut O, diagram: &Diagram, block: Block)
    requires diagram { IsShowable (shown_in diagram.now) }
    requires block { IsBlock block }
    ensures { Puts O.taken O.faults draft.old draft.new sink.old sink.new (block_text block (shown_in diagram.now)) }
{
    put_block_head(draft, sink, diagram, block);
    put_block_rows(draft, sink, diagram, block);
}

// How many columns stand before the seconds: those of the longest name and a space.
fn margin_of(names: &[ShortName]) -> usize
    ensures margin { result ≡ margin_of names.now }
    ensures fits { result ≤ 40 }
{
    let mut margin = 9;
    for name in names {
        margin = margin.max(name.bytes().len() + 1);
    }
    margin
}

// Block `number` of a diagram.
fn block_at(diagram: &Diagram, number: u32) -> Block
    requires diagram { IsShowable (shown_in diagram.now) }
    requires number { number ≤ (diagram.now.to - diagram.now.from) / 60 }
    ensures block { result ≡ block_at (shown_in diagram.now) number }
    ensures fits { IsBlock result }
{
    let first = diagram.from + number * BLOCK;
    Block {
        first,
        count: BLOCK.min(diagram.to + 1 - first),
        margin: margin_of(&diagram.names),
    }
}

// Puts what the characters mean.
fn put_key<O: Sink>(draft: &mut Draft, sink: &mut O)
    ensures { Puts O.taken O.faults draft.old draft.new sink.old sink.new key_text }
{
    draft.put(
        sink,
        b"- red  / red-amber  # green  \\ amber  X fault  1 to 9, * fronts  = covered\n",
    );
    draft.put(
        sink,
        b"refused: G minimum green  R minimum red  C conflict  I intergreen  S sequence  r interstage runs  w wrong stage  n no interstage\n",
    );
}

/// Puts the diagram as characters, a row for each group, in blocks of 60 seconds.
pub fn put_text<O: Sink>(draft: &mut Draft, sink: &mut O, diagram: &Diagram)
    requires { IsShowable (shown_in diagram.now) }
    ensures { Puts O.taken O.faults draft.old draft.new sink.old sink.new (letters_text (shown_in diagram.now)) }
{
    put_key(draft, sink);
    for number in 0..(diagram.to - diagram.from) / BLOCK + 1 {
        put_block(draft, sink, diagram, block_at(diagram, number));
    }
}
