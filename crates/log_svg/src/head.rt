// The head of a diagram: its size, how things look, and what it is of.
ghost use Rattle.std.specs.Prelude.{◌+◌, ◌*◌, ◌^◌, ◌<◌, ◌≤◌, ◌++◌, ℕ, List, Option};
ghost use Rattle.sig_io.specs.Draft.{Puts};
ghost use Rattle.log_svg.specs.Layout.{IsSheet};
ghost use Rattle.log_svg.specs.Diagram.{dark_style, given_title, ground_text, head_text, heading_text, looks_text, seconds_title, size_text, title_text, view_text};
ghost use Rattle.log_svg.specs.Diagram.{amber_pattern, bars_style, half_pattern, interstage_pattern, marks_style, words_style};

use crate::layout::{Sheet, height_of};
use crate::pieces::{begin_label, put_attribute};
use crate::words::put_title_words;
use sig_io::{Draft, Sink};

// Puts what part of the plane is shown.
fn put_view<O: Sink>(draft: &mut Draft, sink: &mut O, width: u32, height: u32)
    ensures { Puts O.taken O.faults draft.old draft.new sink.old sink.new (view_text width height) }
{
    draft.put(sink, b" viewBox=\"0 0 ");
    draft.put_number(sink, width);
    draft.put(sink, b" ");
    draft.put_number(sink, height);
}

// Puts the beginning of the text, by the size of the picture.
fn put_size<O: Sink>(draft: &mut Draft, sink: &mut O, width: u32, height: u32)
    ensures { Puts O.taken O.faults draft.old draft.new sink.old sink.new (size_text width height) }
{
    draft.put(sink, b"<svg xmlns=\"http://www.w3.org/2000/svg\"");
    put_attribute(draft, sink, b"width", width);
    put_attribute(draft, sink, b"height", height);
    put_view(draft, sink, width, height);
    draft.put(
        sink,
        b"\" role=\"img\" font-family=\"'DejaVu Sans Mono',Consolas,monospace\" font-size=\"12\">\n",
    );
}

// Puts how bars look.
fn put_bars_style<O: Sink>(draft: &mut Draft, sink: &mut O)
    ensures { Puts O.taken O.faults draft.old draft.new sink.old sink.new bars_style }
{
    draft.put(
        sink,
        b"<style>@page{size:A4 landscape;margin:12.667mm 10mm}@media print{svg{width:100%;height:auto}}\n",
    );
    draft.put(
        sink,
        b".r{fill:#c4161c}.u{fill:url(#u);stroke:#000;stroke-width:.4}\n",
    );
    draft.put(
        sink,
        b".g{fill:#00843d;stroke:#000;stroke-width:.6}.a{fill:url(#a);stroke:#000;stroke-width:.6}\n",
    );
    draft.put(
        sink,
        b".s{fill:#eef1f4;stroke:#000;stroke-width:.8}.i{fill:url(#i);stroke:#000;stroke-width:.8}.q{fill:#9db4cc}\n",
    );
}

// Puts how words look.
fn put_words_style<O: Sink>(draft: &mut Draft, sink: &mut O)
    ensures { Puts O.taken O.faults draft.old draft.new sink.old sink.new words_style }
{
    draft.put(
        sink,
        b".n,.d{text-anchor:end}.m,.l,.k{text-anchor:middle}.k{fill:#fff;font-size:10px}.l,.d{font-size:10px}\n",
    );
    draft.put(sink, b".h{font-size:13px;font-weight:bold}\n");
    draft.put(
        sink,
        b".m{font-weight:bold;paint-order:stroke;stroke:#fff;stroke-width:4;stroke-linejoin:round}\n",
    );
}

// Puts how lines and marks look.
fn put_marks_style<O: Sink>(draft: &mut Draft, sink: &mut O)
    ensures { Puts O.taken O.faults draft.old draft.new sink.old sink.new marks_style }
{
    draft.put(
        sink,
        b".w,.p{fill:#fff}.b,.c,.t,.f{fill:none;stroke:#000}.b{stroke:#d5d9dd}.t{stroke-width:1.4}.f{stroke-width:2}\n",
    );
    draft.put(
        sink,
        b".x{font-size:9px;font-weight:bold;text-anchor:middle;paint-order:stroke;stroke:#fff;stroke-width:3;stroke-linejoin:round}\n",
    );
}

// Puts how all of it looks on a dark screen.
fn put_dark_style<O: Sink>(draft: &mut Draft, sink: &mut O)
    ensures { Puts O.taken O.faults draft.old draft.new sink.old sink.new dark_style }
{
    draft.put(
        sink,
        b"@media screen and (prefers-color-scheme:dark){text{fill:#e6e8ea}.w,.p{fill:#16191c}.s{fill:#2b3036}.s,.i{stroke:#c3c8cd}\n",
    );
    draft.put(
        sink,
        b".m,.x{stroke:#16191c}.k{fill:#fff}.q{fill:#4a6480}.b{stroke:#3a4047}.c,.t,.f{stroke:#e6e8ea}.r{fill:#ff5a5f}}</style>\n",
    );
}

// Puts the pattern of red-amber, dark over light.
fn put_half_pattern<O: Sink>(draft: &mut Draft, sink: &mut O)
    ensures { Puts O.taken O.faults draft.old draft.new sink.old sink.new half_pattern }
{
    draft.put(
        sink,
        b"<defs><linearGradient id=\"u\" x1=\"0\" y1=\"0\" x2=\"0\" y2=\"1\">",
    );
    draft.put(
        sink,
        b"<stop offset=\".5\" stop-color=\"#c4161c\"/><stop offset=\".5\" stop-color=\"#ffd500\"/></linearGradient>\n",
    );
}

// Puts the pattern of amber, striped.
fn put_amber_pattern<O: Sink>(draft: &mut Draft, sink: &mut O)
    ensures { Puts O.taken O.faults draft.old draft.new sink.old sink.new amber_pattern }
{
    draft.put(
        sink,
        b"<pattern id=\"a\" width=\"5\" height=\"5\" patternUnits=\"userSpaceOnUse\" patternTransform=\"rotate(45)\">",
    );
    draft.put(
        sink,
        b"<rect width=\"5\" height=\"5\" fill=\"#ffd500\"/><rect width=\"1.6\" height=\"5\" fill=\"#000\"/></pattern>\n",
    );
}

// Puts the pattern of interstages, thinly striped.
fn put_interstage_pattern<O: Sink>(draft: &mut Draft, sink: &mut O)
    ensures { Puts O.taken O.faults draft.old draft.new sink.old sink.new interstage_pattern }
{
    draft.put(
        sink,
        b"<pattern id=\"i\" width=\"5\" height=\"5\" patternUnits=\"userSpaceOnUse\" patternTransform=\"rotate(45)\">",
    );
    draft.put(
        sink,
        b"<rect class=\"p\" width=\"5\" height=\"5\"/><rect width=\"1\" height=\"5\" fill=\"#8a9199\"/></pattern></defs>\n",
    );
}

// Puts how everything looks.
fn put_styles<O: Sink>(draft: &mut Draft, sink: &mut O)
    ensures { Puts O.taken O.faults draft.old draft.new sink.old sink.new (bars_style ++ words_style ++ marks_style ++ dark_style) }
{
    put_bars_style(draft, sink);
    put_words_style(draft, sink);
    put_marks_style(draft, sink);
    put_dark_style(draft, sink);
}

// Puts how everything looks, and the patterns.
fn put_looks<O: Sink>(draft: &mut Draft, sink: &mut O)
    ensures { Puts O.taken O.faults draft.old draft.new sink.old sink.new looks_text }
{
    put_styles(draft, sink);
    put_half_pattern(draft, sink);
    put_amber_pattern(draft, sink);
    put_interstage_pattern(draft, sink);
}

// Puts the ground.
fn put_ground<O: Sink>(draft: &mut Draft, sink: &mut O, width: u32, height: u32)
    ensures { Puts O.taken O.faults draft.old draft.new sink.old sink.new (ground_text width height) }
{
    draft.put(sink, b"<rect class=\"w\"");
    put_attribute(draft, sink, b"width", width);
    put_attribute(draft, sink, b"height", height);
    draft.put(sink, b"/>\n");
}

// Puts the title that is asked for, or what every diagram is.
fn put_given<O: Sink>(draft: &mut Draft, sink: &mut O, title: &[u8])
    ensures { Puts O.taken O.faults draft.old draft.new sink.old sink.new (given_title title.now) }
{
    if title.len() == 0 {
        draft.put(sink, b"Signal timing diagram");
    } else {
        put_title_words(draft, sink, title);
    }
}

// Puts what the diagram is of.
fn put_seconds<O: Sink>(draft: &mut Draft, sink: &mut O, title: &[u8], from: u32, to: u32)
    ensures { Puts O.taken O.faults draft.old draft.new sink.old sink.new (seconds_title title.now from to) }
{
    put_given(draft, sink, title);
    draft.put(sink, b", seconds ");
    draft.put_number(sink, from);
    draft.put(sink, b" to ");
    draft.put_number(sink, to);
}

// Puts the title, which a screen reader reads.
fn put_title<O: Sink>(draft: &mut Draft, sink: &mut O, title: &[u8], from: u32, to: u32)
    ensures { Puts O.taken O.faults draft.old draft.new sink.old sink.new (title_text title.now from to) }
{
    draft.put(sink, b"<title>");
    put_seconds(draft, sink, title, from, to);
    draft.put(sink, b"</title>\n");
}

// Puts the title that is seen.
fn put_heading<O: Sink>(draft: &mut Draft, sink: &mut O, title: &[u8], from: u32, to: u32)
    ensures { Puts O.taken O.faults draft.old draft.new sink.old sink.new (heading_text title.now from to) }
{
    begin_label(draft, sink, b"h", 12, 20);
    put_seconds(draft, sink, title, from, to);
    draft.put(sink, b"</text>\n");
}

/// Puts the head of a diagram of these seconds.
pub fn put_head<O: Sink>(
    draft: &mut Draft,
    sink: &mut O,
    sheet: Sheet,
    title: &[u8],
    from: u32,
    to: u32,
)
    requires { IsSheet sheet }
    ensures { Puts O.taken O.faults draft.old draft.new sink.old sink.new (head_text sheet title.now from to) }
{
    let height = height_of(sheet);
    let width = sheet.width;
    put_size(draft, sink, width, height);
    put_title(draft, sink, title, from, to);
    put_looks(draft, sink);
    put_ground(draft, sink, width, height);
    put_heading(draft, sink, title, from, to);
}
