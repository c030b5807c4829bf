// Words of a diagram's reader: its title, and the time of the day.
ghost use Rattle.std.specs.Prelude.{◌≡◌, ◌+◌, ◌-◌, ◌*◌, ◌/◌, ◌%◌, ◌^◌, ◌<◌, ◌≤◌, ◌++◌, ℕ, List, Option, length};
ghost use Rattle.std.specs.Option.{ForSome};
ghost use Rattle.sig_io.specs.Draft.{Puts};
ghost use Rattle.log_svg.specs.Words.{below_text, clock_text, escaped, moment_of, title_words, two_text};

use sig_io::{Draft, Sink};
use sig_types::ShortName;

/// How a diagram is to look.
#[derive(Clone, Copy)]
pub struct Look<'a> {
    /// How many seconds a strip has, from 30 to 600.
    pub strip: u32,
    /// The title, at most 80 bytes; none where it is empty.
    pub title: &'a str,
    /// The time of the day at which second 1 begins, in seconds after midnight.
    pub begin: Option<u32>,
    /// The minimum greens of the groups in seconds; none where there is no table of them.
    pub minimums: &'a [u8],
    /// The names of the stages; none where there is no plan.
    pub stages: &'a [ShortName],
}

// Puts a byte of a title, as SVG has it.
fn put_escaped<O: Sink>(draft: &mut Draft, sink: &mut O, byte: u8)
    ensures { Puts O.taken O.faults draft.old draft.new sink.old sink.new (escaped byte) }
{
    if byte == b'&' {
        draft.put(sink, b"&amp;");
    } else if byte == b'<' {
        draft.put(sink, b"&lt;");
    } else if byte == b'>' {
        draft.put(sink, b"&gt;");
    } else {
        draft.put(sink, &[byte]);
    }
}

/// Puts a title, as SVG has it.
pub fn put_title_words<O: Sink>(draft: &mut Draft, sink: &mut O, title: &[u8])
    ensures { Puts O.taken O.faults draft.old draft.new sink.old sink.new (title_words title.now) }
{
    for byte in title {
        put_escaped(draft, sink, *byte);
    }
}

// Puts a number of two digits.
fn put_two<O: Sink>(draft: &mut Draft, sink: &mut O, n: u32)
    ensures { Puts O.taken O.faults draft.old draft.new sink.old sink.new (two_text n) }
{
    if n < 10 {
        draft.put(sink, b"0");
    }
    draft.put_number(sink, n);
}

// Puts a time of the day, so many seconds after midnight.
fn put_clock<O: Sink>(draft: &mut Draft, sink: &mut O, n: u32)
    ensures { Puts O.taken O.faults draft.old draft.new sink.old sink.new (clock_text n) }
{
    put_two(draft, sink, n / 3600);
    draft.put(sink, b":");
    put_two(draft, sink, n / 60 % 60);
    draft.put(sink, b":");
    put_two(draft, sink, n % 60);
}

/// The time of the day at which a second begins, where that of second 1 is known, or its number.
pub fn moment_of(begin: Option<u32>, second: u32) -> u32
    requires begin { ForSome begin (λ t. t < 86400) }
    requires second { second < 1000000 }
    ensures { result ≡ moment_of begin second }
{
    match begin {
        None => second,
        Some(begin) => (begin + second).saturating_sub(1) % 86400,
    }
}

/// Puts what stands below a second: its time of the day, where that of second 1 is known, or its number.
pub fn put_below<O: Sink>(draft: &mut Draft, sink: &mut O, begin: Option<u32>, second: u32)
    requires begin { ForSome begin (λ t. t < 86400) }
    requires second { second < 1000000 }
    ensures { Puts O.taken O.faults draft.old draft.new sink.old sink.new (below_text begin second) }
{
    match begin {
        None => draft.put_number(sink, second),
        Some(_) => put_clock(draft, sink, moment_of(begin, second)),
    }
}
