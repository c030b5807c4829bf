// The band of stages and interstages.
ghost use Rattle.std.specs.Prelude.{◌≡◌, ◌+◌, ◌-◌, ◌*◌, ◌/◌, ◌^◌, ◌<◌, ◌≤◌, ◌++◌, ℕ, List, Option, IsTrue, length};
ghost use Rattle.sig_io.specs.Draft.{Puts};
ghost use Rattle.log_svg.specs.Layout.{IsLayout};
ghost use Rattle.log_svg.specs.Svg.{IsSeen};
ghost use Rattle.log_svg.specs.Band.{band_text, is_named, name_letters, place_class, place_name, seen_stay, stage_digits, stay_name, stay_text, stay_title, stay_words};
ghost use Rattle.log_svg.specs.Band.{end_letters, end_name, has_name, name_at, named_place, stage_letters, stage_name};

use crate::layout::Layout;
use crate::pieces::{begin_box, begin_label};
use crate::row::{begin_of, is_seen, put_times, width_of};
use log_chart::Span;
use sig_io::{Draft, Sink};
use sig_types::{ShortName, StageNo, StagePlace};

// The class of a place.
fn place_class(place: StagePlace) -> &'static [u8]
    ensures class { result.now ≡ place_class place }
    ensures short { length result.now ≤ 4096 }
{
    match place {
        StagePlace::NoPlan => b"s",
        StagePlace::Stage(_) => b"s",
        StagePlace::Inter {
            from: _,
            to: _,
            t: _,
        } => b"i",
    }
}

// How many digits the number of a stage has.
fn stage_digits(stage: StageNo) -> u32
    ensures digits { result ≡ stage_digits stage }
    ensures few { result ≤ 2 }
{
    if stage.0 < 10 { 1 } else { 2 }
}

// Whether the stage has a name of these.
fn has_name(stages: &[ShortName], stage: StageNo) -> bool
    ensures has { result ≡ has_name stages.now stage }
    ensures least { IsTrue result → 1 ≤ stage.0 }
    ensures most { IsTrue result → stage.0 ≤ length stages.now }
{
    1 <= stage.0 && usize::from(stage.0) <= stages.len()
}

// Its name.
fn name_at(stages: &[ShortName], stage: StageNo) -> &[u8]
    requires least { 1 ≤ stage.0 }
    requires most { stage.0 ≤ length stages.now }
    ensures name { result.now ≡ name_at stages.now stage }
    ensures few { length result.now ≤ 32 }
{
    stages[usize::from(stage.0 - 1)].bytes()
}

// How many letters a stage of an interstage has.
fn end_letters(stages: &[ShortName], stage: StageNo) -> u32
    ensures letters { result ≡ end_letters stages.now stage }
    ensures few { result ≤ 32 }
{
    if has_name(stages, stage) {
        name_at(stages, stage).len() as u32
    } else {
        stage_digits(stage)
    }
}

// How many letters a stage has.
fn stage_letters(stages: &[ShortName], stage: StageNo) -> u32
    ensures letters { result ≡ stage_letters stages.now stage }
    ensures few { result ≤ 32 }
{
    if has_name(stages, stage) {
        name_at(stages, stage).len() as u32
    } else {
        1 + stage_digits(stage)
    }
}

// How many letters the name of a place has.
fn name_letters(stages: &[ShortName], place: StagePlace) -> u32
    ensures letters { result ≡ name_letters stages.now place }
    ensures few { result ≤ 65 }
{
    match place {
        StagePlace::NoPlan => 1,
        StagePlace::Stage(stage) => stage_letters(stages, stage),
        StagePlace::Inter { from, to, t: _ } => {
            1 + end_letters(stages, from) + end_letters(stages, to)
        }
    }
}

// Puts a stage of an interstage, by its name or its number.
fn put_end<O: Sink>(draft: &mut Draft, sink: &mut O, stages: &[ShortName], stage: StageNo)
    ensures { Puts O.taken O.faults draft.old draft.new sink.old sink.new (end_name stages.now stage) }
{
    if has_name(stages, stage) {
        draft.put(sink, name_at(stages, stage));
    } else {
        draft.put_number(sink, u32::from(stage.0));
    }
}

// Puts a stage by its name, or its number where it has none of these.
fn put_stage<O: Sink>(draft: &mut Draft, sink: &mut O, stages: &[ShortName], stage: StageNo)
    ensures { Puts O.taken O.faults draft.old draft.new sink.old sink.new (stage_name stages.now stage) }
{
    if has_name(stages, stage) {
        draft.put(sink, name_at(stages, stage));
    } else {
        draft.put(sink, b"S");
        draft.put_number(sink, u32::from(stage.0));
    }
}

// Puts a stage or an interstage by its names.
fn put_named<O: Sink>(draft: &mut Draft, sink: &mut O, stages: &[ShortName], place: StagePlace)
    ensures { Puts O.taken O.faults draft.old draft.new sink.old sink.new (named_place stages.now place) }
{
    match place {
        StagePlace::NoPlan => draft.put(sink, b"-"),
        StagePlace::Stage(stage) => put_stage(draft, sink, stages, stage),
        StagePlace::Inter { from, to, t: _ } => {
            put_end(draft, sink, stages, from);
            draft.put(sink, b"-");
            put_end(draft, sink, stages, to);
        }
    }
}

/// Puts the name of a stage or an interstage: `S1`, `1-2`, or a dash where there is no stage.
pub fn put_place<O: Sink>(draft: &mut Draft, sink: &mut O, place: StagePlace)
    ensures { Puts O.taken O.faults draft.old draft.new sink.old sink.new (place_name place) }
{
    match place {
        StagePlace::NoPlan => draft.put(sink, b"-"),
        StagePlace::Stage(stage) => {
            draft.put(sink, b"S");
            draft.put_number(sink, u32::from(stage.0));
        }
        StagePlace::Inter { from, to, t: _ } => {
            draft.put_number(sink, u32::from(from.0));
            draft.put(sink, b"-");
            draft.put_number(sink, u32::from(to.0));
        }
    }
}

// Puts the name in the middle of a stay.
fn put_stay_name<O: Sink>(
    draft: &mut Draft,
    sink: &mut O,
    stages: &[ShortName],
    layout: Layout,
    stay: &Span<StagePlace>,
)
    requires layout { IsLayout layout }
    requires stay { IsSeen layout stay.now }
    ensures { Puts O.taken O.faults draft.old draft.new sink.old sink.new (stay_name stages.now layout stay.now) }
{
    let middle = begin_of(layout, stay) + width_of(layout, stay) / 2;
    begin_label(draft, sink, b"m", middle, 73);
    put_named(draft, sink, stages, stay.shown);
    draft.put(sink, b"</text>\n");
}

// Whether a stay is wide enough for its name.
fn is_named(stages: &[ShortName], layout: Layout, stay: &Span<StagePlace>) -> bool
    requires layout { IsLayout layout }
    requires stay { IsSeen layout stay.now }
    ensures { result ≡ is_named stages.now layout stay.now }
{
    name_letters(stages, stay.shown) * 7 + 4 <= width_of(layout, stay)
}

// Puts the name of a stay where it is wide enough.
fn put_stay_words<O: Sink>(
    draft: &mut Draft,
    sink: &mut O,
    stages: &[ShortName],
    layout: Layout,
    stay: &Span<StagePlace>,
)
    requires layout { IsLayout layout }
    requires stay { IsSeen layout stay.now }
    ensures { Puts O.taken O.faults draft.old draft.new sink.old sink.new (stay_words stages.now layout stay.now) }
{
    if is_named(stages, layout, stay) {
        put_stay_name(draft, sink, stages, layout, stay);
    }
}

// Puts what is told of a stay where one points at it.
fn put_title<O: Sink>(
    draft: &mut Draft,
    sink: &mut O,
    stages: &[ShortName],
    layout: Layout,
    stay: &Span<StagePlace>,
)
    requires layout { IsLayout layout }
    requires stay { IsSeen layout stay.now }
    ensures { Puts O.taken O.faults draft.old draft.new sink.old sink.new (stay_title stages.now layout stay.now) }
{
    draft.put(sink, b"><title>");
    put_named(draft, sink, stages, stay.shown);
    put_times(draft, sink, layout, stay);
    draft.put(sink, b"</title></rect>\n");
}

// Puts a stay: a box, and its name.
fn put_stay<O: Sink>(
    draft: &mut Draft,
    sink: &mut O,
    stages: &[ShortName],
    layout: Layout,
    stay: &Span<StagePlace>,
)
    requires layout { IsLayout layout }
    requires stay { IsSeen layout stay.now }
    ensures { Puts O.taken O.faults draft.old draft.new sink.old sink.new (stay_text stages.now layout stay.now) }
{
    let width = width_of(layout, stay);
    let x = begin_of(layout, stay);
    begin_box(draft, sink, place_class(stay.shown), (x, 60), width, 18);
    put_title(draft, sink, stages, layout, stay);
    put_stay_words(draft, sink, stages, layout, stay);
}

// Puts a stay that has some of the strip's seconds.
fn put_seen<O: Sink>(
    draft: &mut Draft,
    sink: &mut O,
    stages: &[ShortName],
    layout: Layout,
    stay: &Span<StagePlace>,
)
    requires layout { IsLayout layout }
    ensures { Puts O.taken O.faults draft.old draft.new sink.old sink.new (seen_stay stages.now layout stay.now) }
{
    if is_seen(layout, stay) {
        put_stay(draft, sink, stages, layout, stay);
    }
}

/// Puts the band of the stays, with the names of the stages, where there are some.
pub fn put_band<O: Sink>(
    draft: &mut Draft,
    sink: &mut O,
    stages: &[ShortName],
    layout: Layout,
    stays: &[Span<StagePlace>],
)
    requires layout { IsLayout layout }
    ensures { Puts O.taken O.faults draft.old draft.new sink.old sink.new (band_text stages.now layout stays.now) }
{
    for stay in stays {
        put_seen(draft, sink, stages, layout, stay);
    }
}
