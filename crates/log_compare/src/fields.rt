// The fields of a line of a log, and what is told of two of them.
ghost use Rattle.std.specs.Prelude.{◌≡◌, ◌≤◌, ℕ, None, Some, MatchOption, length};
ghost use Rattle.sig_io.specs.Draft.{Puts};
ghost use Rattle.log_read.specs.Fields.{fields_of};
ghost use Rattle.log_compare.specs.Fields.{fields_in};
ghost use Rattle.log_compare.specs.Text.{aspect_text, aspects_text, field_text, fields_text, lines_text, values_text};

use crate::long::put_long;
use sig_io::{Draft, Sink};
use sig_types::ShortName;
use sig_types::text::cut_at;

/// The fields of a record's line, behind its second.
#[derive(Clone, Copy)]
pub struct Fields<'a> {
    /// The second.
    pub second: &'a [u8],
    /// The stage or the interstage.
    pub place: &'a [u8],
    /// The letters of the groups.
    pub aspects: &'a [u8],
    /// The counts of the detectors.
    pub counts: &'a [u8],
    /// What was refused.
    pub refused: &'a [u8],
    /// The fault.
    pub fault: &'a [u8],
}

// The fields of a line, cut at its first five bars.
#[tactic(auto, unfolding(log_read::specs::Fields::fields_of))]
fn fields_of(line: &[u8]) -> Option<Fields<'_>>
    ensures { MatchOption result (fields_of line.now ≡ None) (λ f. fields_of line.now ≡ Some (fields_in f)) }
{
    let (second, rest) = cut_at(b'|', line)?;
    let (place, rest) = cut_at(b'|', rest)?;
    let (aspects, rest) = cut_at(b'|', rest)?;
    let (counts, rest) = cut_at(b'|', rest)?;
    let (refused, fault) = cut_at(b'|', rest)?;
    Some(Fields {
        second,
        place,
        aspects,
        counts,
        refused,
        fault,
    })
}

// Puts two values.
fn put_values<O: Sink>(draft: &mut Draft, sink: &mut O, one: &[u8], other: &[u8])
    ensures { Puts O.taken O.faults draft.old draft.new sink.old sink.new (values_text one.now other.now) }
{
    draft.put(sink, b" ");
    put_long(draft, sink, one);
    draft.put(sink, b" | ");
    put_long(draft, sink, other);
    draft.put(sink, b"\n");
}

// Puts the line of a field in which the two lines differ.
#[tactic(auto, unfolding(crate::specs::Text::field_text))]
fn put_field<O: Sink>(
    draft: &mut Draft,
    sink: &mut O,
    second: u32,
    word: &[u8],
    one: &[u8],
    other: &[u8],
)
    requires { length word.now ≤ 20 }
    ensures { Puts O.taken O.faults draft.old draft.new sink.old sink.new (field_text second word.now one.now other.now) }
{
    if one == other {
        return;
    }
    draft.put_number(sink, second);
    draft.put(sink, word);
    put_values(draft, sink, one, other);
}

// Puts the line of a group whose letters differ.
#[tactic(auto, unfolding(crate::specs::Text::aspect_text))]
fn put_aspect<O: Sink>(
    draft: &mut Draft,
    sink: &mut O,
    second: u32,
    name: &ShortName,
    one: u8,
    other: u8,
)
    ensures { Puts O.taken O.faults draft.old draft.new sink.old sink.new (aspect_text second name.now one other) }
{
    if one == other {
        return;
    }
    draft.put_number(sink, second);
    draft.put(sink, b" GROUP ");
    draft.put(sink, name.bytes());
    put_values(draft, sink, &[one], &[other]);
}

// Puts the lines of the groups whose letters differ.
fn put_aspects<O: Sink>(
    draft: &mut Draft,
    sink: &mut O,
    second: u32,
    names: &[ShortName],
    one: &[u8],
    other: &[u8],
)
    ensures { Puts O.taken O.faults draft.old draft.new sink.old sink.new (aspects_text second names.now one.now other.now) }
{
    for (place, name) in names.iter().enumerate() {
        if place < one.len() && place < other.len() {
            put_aspect(draft, sink, second, name, one[place], other[place]);
        }
    }
}

// Puts the lines of the fields that differ.
#[tactic(auto, unfolding(crate::specs::Text::fields_text))]
fn put_fields<O: Sink>(
    draft: &mut Draft,
    sink: &mut O,
    second: u32,
    names: &[ShortName],
    one: &Fields<'_>,
    other: &Fields<'_>,
)
    ensures { Puts O.taken O.faults draft.old draft.new sink.old sink.new
        (fields_text second names.now (fields_in one.now) (fields_in other.now)) }
{
    put_field(draft, sink, second, b" STAGE", one.place, other.place);
    put_aspects(draft, sink, second, names, one.aspects, other.aspects);
    put_field(draft, sink, second, b" COUNTS", one.counts, other.counts);
    put_field(draft, sink, second, b" REFUSED", one.refused, other.refused);
    put_field(draft, sink, second, b" FAULT", one.fault, other.fault);
}

/// Puts what differs in two lines of a second, of groups with these names: a line for each field, and of the letters one for each
/// group.
pub(crate) fn put_lines<O: Sink>(
    draft: &mut Draft,
    sink: &mut O,
    second: u32,
    names: &[ShortName],
    one: &[u8],
    other: &[u8],
)
    ensures { Puts O.taken O.faults draft.old draft.new sink.old sink.new (lines_text second names.now one.now other.now) }
{
    match (fields_of(one), fields_of(other)) {
        (Some(one), Some(other)) => put_fields(draft, sink, second, names, &one, &other),
        (None, _) | (Some(_), None) => {}
    }
}
