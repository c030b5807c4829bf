// The cases of a text.
//
// A line `=== NAME` begins a case, a line `### NAME` one that those below it begin with, up to the next such line: they take of it the
// words and the files that they leave out. A line `--- TITLE` begins a part of a case, whose text is the lines below. What stands above
// the first case of a text is no part of one. A part is one of these:
//
//   words WORDS   the words of the call, further ones on the lines below, one a line: `check` and those of `junction_check`, `report` and
//                 those of `log_report`, `trace` and those of `junction_trace`, `calls`, the files of a run and a log that the calls of
//                 the library have to add up to, `driven`, a program, the files of its site and a line for each second that a caller
//                 decides (`second`, `list`), of which the log is written and the masks that are asked for, `by_live` and `by_net` and
//                 any words for the calls of these names, or those of `junction`
//   out STATUS    the exit status, and the whole text that has to be written
//   begin STATUS, end STATUS, part STATUS
//                 the exit status, and a text with which what is written has to begin or to end, or that has to stand in it, where
//                 its last line end doesn't count
//   same STATUS FILE
//                 the exit status, and the file with the whole text that has to be written
//   notes, notes N
//                 the whole text of the notes, which is empty where this part is left out; they come in N writes at most, in one where
//                 N isn't told
//   asked NAMES   the files that are asked for, in their order, each once while it is asked for on and on, with a `!` behind it for
//                 each read that fails
//   calls FILE    how the call reads and writes: for each write the number of reads of FILE before it, a blank and the text, and at
//                 the end the number of all these reads, as `9 reads`
//   writes N      how many writes there are at most
//   room N        how many bytes the output takes
//   pieces N      how many bytes a read gives at most
//   takes N       how many bytes a write takes at most
//   each read fails STATUS, each write fails STATUS
//                 the exit status that the call has to end with, whichever one of its reads or writes fails, and a note of it: what is
//                 written until then is a front of the text of `out`. Behind a status of reads `unwritten` says that nothing is
//                 written; the files of `asked` are then asked for up to the one that the note of `junction` names, and whole lines are
//                 written. After a write that failed there is none, and less than all is written; the part's text is the whole note
//   any other     a file of this name
//
// A file that a call asks for and that is none of these is read from the folder. A part whose title begins with a backslash has `\HH`
// for the byte with these two digits, and a backslash at the end of a line for no line end. There a line `\*N LINE` stands for so
// many lines, with `\#` for the number of each, from 0, and `\+` for the same from 1, and `\*N` for so many empty ones.
use itoa::Buffer;
use std::alloc::{AllocError, Global};

/// A part of a case: its title and its text.
pub type Part = (String, Vec<u8>);

/// A case: its name, whether those below it take of it what they leave out, and its parts.
#[derive(Drop)]
pub struct Case {
    pub name: String,
    pub is_base: bool,
    pub parts: Vec<Part>,
}

// The number that a digit stands for.
fn digit(byte: u8) -> u8 {
    match byte {
        b'0'..=b'9' => byte - b'0',
        b'a'..=b'f' => byte - b'a' + 10,
        _ => 0,
    }
}

// Adds a line of this number, in which a backslash and two digits stand for a byte.
fn add_escaped(text: &mut Vec<u8>, line: &[u8], number: u32) -> Result<(), AllocError> {
    let mut is_first = true;
    for piece in line.split(|byte| *byte == b'\\') {
        match piece {
            [b'#', rest @ ..] if !is_first => {
                text.extend_from_slice(Buffer::new().format(number).as_bytes())?;
                text.extend_from_slice(rest)?;
            }
            [b'+', rest @ ..] if !is_first => {
                let next = number.wrapping_add(1);
                text.extend_from_slice(Buffer::new().format(next).as_bytes())?;
                text.extend_from_slice(rest)?;
            }
            [high, low, rest @ ..] if !is_first => {
                text.push(digit(*high).wrapping_mul(16).wrapping_add(digit(*low)))?;
                text.extend_from_slice(rest)?;
            }
            _ => text.extend_from_slice(piece)?,
        }
        is_first = false;
    }
    if !line.ends_with(b"\\") {
        text.push(b'\n')?;
    }
    Ok(())
}

// The number before the first blank of a line, and what follows behind it.
fn cut_number(line: &[u8]) -> (u32, &[u8]) {
    let mut number = 0u32;
    for place in 0..line.len() {
        let (_, rest) = line.split_at(place);
        match rest {
            [b' ', rest @ ..] => return (number, rest),
            [byte, ..] => {
                number = number
                    .wrapping_mul(10)
                    .wrapping_add(u32::from(digit(*byte)));
            }
            [] => {}
        }
    }
    (number, &[])
}

// Adds a line as often as the number says that it begins with.
fn add_times(text: &mut Vec<u8>, line: &[u8]) -> Result<(), AllocError> {
    let (times, line) = cut_number(line);
    for number in 0..times {
        add_escaped(text, line, number)?;
    }
    Ok(())
}

// Adds a line to a part.
fn add_line(part: &mut Part, line: &[u8]) -> Result<(), AllocError> {
    let (title, text) = part;
    if title.as_str().starts_with("\\") {
        return match line.strip_prefix(b"\\*") {
            Some(line) => add_times(text, line),
            None => add_escaped(text, line, 0),
        };
    }
    text.extend_from_slice(line)?;
    text.push(b'\n')?;
    Ok(())
}

// Begins a case.
fn begin(
    alloc: Global,
    name: &[u8],
    is_base: bool,
    cases: &mut Vec<Case>,
) -> Result<(), AllocError> {
    let name = String::from_utf8_lossy(alloc, name)?;
    let parts = Vec::new(alloc);
    cases.push(Case {
        name,
        is_base,
        parts,
    })?;
    Ok(())
}

// Begins a part.
fn begin_part(alloc: Global, title: &[u8], case: &mut Case) -> Result<(), AllocError> {
    let title = String::from_utf8_lossy(alloc, title)?;
    case.parts.push((title, Vec::new(alloc)))?;
    Ok(())
}

// Adds a line to the last part of a case.
fn add_to_last(case: &mut Case, line: &[u8]) -> Result<(), AllocError> {
    match case.parts.last_mut() {
        Some(part) => add_line(part, line),
        None => Ok(()),
    }
}

/// Adds the cases of a text.
pub fn read_cases(alloc: Global, text: &[u8], cases: &mut Vec<Case>) -> Result<(), AllocError> {
    let text = text.strip_suffix(b"\n").unwrap_or(text);
    let mut has_begun = false;
    for line in text.split(|byte| *byte == b'\n') {
        if let Some(name) = line.strip_prefix(b"=== ") {
            begin(alloc, name, false, cases)?;
            has_begun = true;
        } else if let Some(name) = line.strip_prefix(b"### ") {
            begin(alloc, name, true, cases)?;
            has_begun = true;
        } else if has_begun && let Some(case) = cases.last_mut() {
            match line.strip_prefix(b"--- ") {
                Some(title) => begin_part(alloc, title, case)?,
                None => add_to_last(case, line)?,
            }
        }
    }
    Ok(())
}

/// The title of a part, without the backslash.
pub fn title_of(part: &Part) -> &str {
    let title = part.0.as_str();
    title.strip_prefix("\\").unwrap_or(title)
}

/// The first part whose title begins with this word and a blank, or is the word, and what follows in its title.
pub fn part_of<'a>(parts: &'a [Part], word: &str) -> Option<(&'a str, &'a [u8])> {
    for part in parts {
        if let Some(rest) = title_of(part).strip_prefix(word) {
            if rest.is_empty() || rest.starts_with(" ") {
                return Some((rest.trim(), part.1.as_slice()));
            }
        }
    }
    None
}
