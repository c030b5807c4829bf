// A list of junctions.
ghost use Rattle.std.specs.Prelude.{◌≡◌, ◌<◌, ◌≤◌, length, map, string_bytes, IfOk, IfErr, IfSome, MatchOption, None, Some, true, ◌∷◌};
ghost use Rattle.std.specs.List.{list_all};
ghost use Rattle.sig_types.specs.Text.{fed_lines};
ghost use Rattle.junction_net.specs.List.{are_file_names, is_file_name, is_name_byte, names_of};
ghost use Rattle.junction_net.specs.Answers.{Gives};
ghost use Rattle.junction_net.specs.Rows.{RefusedAs, names_in_parts, words_in};
ghost use Rattle.junction_net.specs.declared.rows.ListRefusal.TheVariants.{Memory};

use sig_types::text::cut_at;
use std::alloc::{AllocError, AllocFailed, Global};
use std::fmt;
use std::marker::Model;
use thiserror::Error;

/// The most junctions of a list.
const MOST_JUNCTIONS: usize = 16;

/// The files of a junction, by their names.
#[derive(Drop)]
pub struct Names {
    pub program: String,
    pub plan: String,
    pub times: String,
    pub intergreens: String,
    pub detectors: String,
}

/// The junctions of a list, 1 to 16. Contracts see it as the list of the names of their files.
#[derive(Drop)]
pub struct List {
    rows: Vec<Names>,
}

impl Model for List {
    ghost use Rattle.std.specs.Prelude.{◌≤◌, List, map, length};
    ghost use Rattle.junction_net.specs.List.{JobWords};
    ghost use Rattle.junction_net.specs.Rows.{words_in};

    ghost Value = { List JobWords };

    ghost view = { λ l. map words_in l.rows.items };

    ghost invariant = { λ l. (1 ≤ length l.rows.items) × (length l.rows.items ≤ 16) };
}

impl List {
    /// The junctions, in the order of their lines.
    pub fn rows(&self) -> &[Names]
        ensures rows { map words_in result.now ≡ self.now }
        ensures some { 1 ≤ length result.now }
        ensures few { length result.now ≤ 16 }
    {
        self.rows.as_slice()
    }
}

/// The reasons to refuse a list.
#[derive(Clone, Copy, PartialEq, Eq)]
pub enum ListWhy {
    /// A line that isn't five names parted by one space each, or no line at all.
    Row,
    /// The 17th line.
    Limit,
}

impl fmt::Debug for ListWhy {
    fn fmt<W: fmt::Write>(&self, f: &mut fmt::Formatter<W>) -> fmt::Result {
        f.write_str(match self {
            ListWhy::Row => "Row",
            ListWhy::Limit => "Limit",
        })
    }
}

/// A list that was not read.
#[derive(Debug, Drop, Error)]
pub enum ListRefusal {
    /// Memory was wanted and could not be had.
    #[error("out of memory")]
    Memory,
    /// The list is refused at a line, counted from 1. Line 0 is the whole list.
    #[error("the list is refused")]
    At { line: u32, why: ListWhy },
}

impl From<AllocError> for ListRefusal {
    ghost from_gives = { λ _ e. e ≡ Memory };

    fn from(_: AllocError) -> Self {
        ListRefusal::Memory
    }
}

impl<T: Drop> From<AllocFailed<T>> for ListRefusal {
    ghost from_gives = { λ _ e. e ≡ Memory };

    fn from(_: AllocFailed<T>) -> Self {
        ListRefusal::Memory
    }
}

// The parts of a line that are the names of a junction's files.
#[derive(Clone, Copy)]
pub(crate) struct Parts<'a> {
    program: &'a [u8],
    plan: &'a [u8],
    times: &'a [u8],
    intergreens: &'a [u8],
    detectors: &'a [u8],
}

// The first line, and what stands after it.
fn first_line(text: &[u8]) -> (&[u8], &[u8])
    requires { 0 < length text.now }
    ensures lines { fed_lines text.now ≡ result.0.now ∷ fed_lines result.1.now }
    ensures rest { length result.1.now < length text.now }
{
    match cut_at(b'\n', text) {
        Some((line, rest)) => (line, rest),
        None => (text, &[]),
    }
}

// Whether all bytes are from 33 to 126.
fn are_name_bytes(bytes: &[u8]) -> bool
    ensures { result ≡ list_all is_name_byte bytes.now }
{
    bytes.iter().all(|b| b'!' <= *b && *b <= b'~')
}

// Whether the bytes are a name.
fn is_file_name(name: &[u8]) -> bool
    ensures { result ≡ is_file_name name.now }
{
    !name.is_empty() && are_name_bytes(name)
}

impl Parts<'_> {
    // Whether all five are names.
    fn are_names(&self) -> bool
        ensures { result ≡ are_file_names (names_in_parts self.now) }
    {
        is_file_name(self.program)
            && is_file_name(self.plan)
            && is_file_name(self.times)
            && is_file_name(self.intergreens)
            && is_file_name(self.detectors)
    }
}

// The names in a line, parted by one space each; None where it isn't five names.
fn parts_of(line: &[u8]) -> Option<Parts<'_>>
    ensures names { MatchOption result (names_of line.now ≡ None) (λ parts. names_of line.now ≡ Some (names_in_parts parts)) }
    ensures are_names { IfSome result (λ parts. are_file_names (names_in_parts parts) ≡ true) }
{
    let (program, rest) = cut_at(b' ', line)?;
    let (plan, rest) = cut_at(b' ', rest)?;
    let (times, rest) = cut_at(b' ', rest)?;
    let (intergreens, detectors) = cut_at(b' ', rest)?;
    let parts = Parts {
        program,
        plan,
        times,
        intergreens,
        detectors,
    };
    if parts.are_names() { Some(parts) } else { None }
}

// The name as a text of its own.
fn text_of(alloc: Global, name: &[u8]) -> Result<String, AllocError>
    requires { is_file_name name.now ≡ true }
    ensures { IfOk result (λ text. string_bytes text ≡ name.now) }
{
    match str::from_utf8(name) {
        Ok(name) => String::from_str(alloc, name),
        Err(_) => unreachable!(),
    }
}

// The names as texts of their own.
fn own_names(alloc: Global, parts: Parts<'_>) -> Result<Names, AllocError>
    requires { are_file_names (names_in_parts parts) ≡ true }
    ensures { IfOk result (λ names. words_in names ≡ names_in_parts parts.entry) }
{
    Ok(Names {
        program: text_of(alloc, parts.program)?,
        plan: text_of(alloc, parts.plan)?,
        times: text_of(alloc, parts.times)?,
        intergreens: text_of(alloc, parts.intergreens)?,
        detectors: text_of(alloc, parts.detectors)?,
    })
}

/// The junctions of a list, or the first line at which it is refused, and why. Keeps nothing of a list that it refuses.
pub fn read_list(alloc: Global, text: &[u8]) -> Result<List, ListRefusal>
    ensures list { IfOk result (λ list. Gives text.now (Ok list)) }
    ensures refused { IfErr result (λ refusal. RefusedAs refusal text.now) }
{
    let mut rows = Vec::new(alloc);
    let mut rest = text;
    while !rest.is_empty() {
        let (line, more) = first_line(rest);
        let number = rows.len() as u32 + 1;
        if rows.len() == MOST_JUNCTIONS {
            return Err(ListRefusal::At {
                line: number,
                why: ListWhy::Limit,
            });
        }
        let Some(parts) = parts_of(line) else {
            return Err(ListRefusal::At {
                line: number,
                why: ListWhy::Row,
            });
        };
        rows.push(own_names(alloc, parts)?)?;
        rest = more;
    }
    if rows.is_empty() {
        return Err(ListRefusal::At {
            line: 0,
            why: ListWhy::Row,
        });
    }
    Ok(List { rows })
}
