// The elements of the SVG text. Each call puts one at the end of a draft.
ghost use Rattle.std.specs.Prelude.{◌+◌, ◌*◌, ◌^◌, ◌<◌, ◌≤◌, ◌++◌, ℕ, List, Option, length};
ghost use Rattle.std.specs.Fmt.{decimal};
ghost use Rattle.sig_io.specs.Draft.{Puts};
ghost use Rattle.log_svg.specs.Svg.{across_text, attribute_text, box_begin, box_text, cross_text, label_begin, label_text, path_begin, upright_text};

use sig_io::{Draft, Sink};

/// Puts an attribute that is a number.
pub fn put_attribute<O: Sink>(draft: &mut Draft, sink: &mut O, name: &[u8], n: u32)
    requires { length name.now ≤ 4096 }
    ensures { Puts O.taken O.faults draft.old draft.new sink.old sink.new (attribute_text name.now n) }
{
    draft.put(sink, b" ");
    draft.put(sink, name);
    draft.put(sink, b"=\"");
    draft.put_number(sink, n);
    draft.put(sink, b"\"");
}

/// Puts the beginning of a box of a class, by its upper left corner, its width and its height.
pub fn begin_box<O: Sink>(
    draft: &mut Draft,
    sink: &mut O,
    class: &[u8],
    corner: (u32, u32),
    width: u32,
    height: u32,
)
    requires { length class.now ≤ 4096 }
    ensures { Puts O.taken O.faults draft.old draft.new sink.old sink.new (box_begin class.now corner.0 corner.1 width height) }
{
    draft.put(sink, b"<rect class=\"");
    draft.put(sink, class);
    draft.put(sink, b"\"");
    put_attribute(draft, sink, b"x", corner.0);
    put_attribute(draft, sink, b"y", corner.1);
    put_attribute(draft, sink, b"width", width);
    put_attribute(draft, sink, b"height", height);
}

/// Puts a box of which nothing more is told.
pub fn put_box<O: Sink>(
    draft: &mut Draft,
    sink: &mut O,
    class: &[u8],
    corner: (u32, u32),
    width: u32,
    height: u32,
)
    requires { length class.now ≤ 4096 }
    ensures { Puts O.taken O.faults draft.old draft.new sink.old sink.new (box_text class.now corner.0 corner.1 width height) }
{
    begin_box(draft, sink, class, corner, width, height);
    draft.put(sink, b"/>\n");
}

// Puts the beginning of a word's element.
pub(crate) fn begin_label<O: Sink>(draft: &mut Draft, sink: &mut O, class: &[u8], x: u32, y: u32)
    requires { length class.now ≤ 4096 }
    ensures { Puts O.taken O.faults draft.old draft.new sink.old sink.new (label_begin class.now x y) }
{
    draft.put(sink, b"<text class=\"");
    draft.put(sink, class);
    draft.put(sink, b"\"");
    put_attribute(draft, sink, b"x", x);
    put_attribute(draft, sink, b"y", y);
    draft.put(sink, b">");
}

/// Puts a word of a class.
pub fn put_label<O: Sink>(
    draft: &mut Draft,
    sink: &mut O,
    class: &[u8],
    x: u32,
    y: u32,
    word: &[u8],
)
    requires class { length class.now ≤ 4096 }
    requires word { length word.now ≤ 4096 }
    ensures { Puts O.taken O.faults draft.old draft.new sink.old sink.new (label_text class.now x y word.now) }
{
    begin_label(draft, sink, class, x, y);
    draft.put(sink, word);
    draft.put(sink, b"</text>\n");
}

/// Puts a number of a class.
pub fn put_number_label<O: Sink>(
    draft: &mut Draft,
    sink: &mut O,
    class: &[u8],
    x: u32,
    y: u32,
    n: u32,
)
    requires { length class.now ≤ 4096 }
    ensures { Puts O.taken O.faults draft.old draft.new sink.old sink.new (label_text class.now x y (decimal n)) }
{
    begin_label(draft, sink, class, x, y);
    draft.put_number(sink, n);
    draft.put(sink, b"</text>\n");
}

/// Puts a thin line across.
pub fn put_across<O: Sink>(draft: &mut Draft, sink: &mut O, y: u32, right: u32)
    ensures { Puts O.taken O.faults draft.old draft.new sink.old sink.new (across_text y right) }
{
    draft.put(sink, b"<path class=\"b\" d=\"M12 ");
    draft.put_number(sink, y);
    draft.put(sink, b"H");
    draft.put_number(sink, right);
    draft.put(sink, b"\"/>\n");
}

// Puts the beginning of a path of a class, at this x.
fn begin_path<O: Sink>(draft: &mut Draft, sink: &mut O, class: &[u8], x: u32)
    requires { length class.now ≤ 4096 }
    ensures { Puts O.taken O.faults draft.old draft.new sink.old sink.new (path_begin class.now x) }
{
    draft.put(sink, b"<path class=\"");
    draft.put(sink, class);
    draft.put(sink, b"\" d=\"M");
    draft.put_number(sink, x);
    draft.put(sink, b" ");
}

/// Puts a line down, of a class.
pub fn put_upright<O: Sink>(draft: &mut Draft, sink: &mut O, class: &[u8], x: u32, ends: (u32, u32))
    requires { length class.now ≤ 4096 }
    ensures { Puts O.taken O.faults draft.old draft.new sink.old sink.new (upright_text class.now x ends.0 ends.1) }
{
    begin_path(draft, sink, class, x);
    draft.put_number(sink, ends.0);
    draft.put(sink, b"V");
    draft.put_number(sink, ends.1);
    draft.put(sink, b"\"/>\n");
}

/// Puts a cross with this corner, up to the end of its outline.
pub fn begin_cross<O: Sink>(draft: &mut Draft, sink: &mut O, x: u32, y: u32)
    ensures { Puts O.taken O.faults draft.old draft.new sink.old sink.new (cross_text x y) }
{
    begin_path(draft, sink, b"f", x);
    draft.put_number(sink, y);
    draft.put(sink, b"l8 8m0 -8l-8 8\"");
}
