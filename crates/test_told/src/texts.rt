// Texts beside what is wanted of them.
use std::alloc::{AllocError, Global};

// Puts a line of a text, or that there is none.
fn put_line(
    alloc: Global,
    label: &str,
    line: Option<&[u8]>,
    told: &mut String,
) -> Result<(), AllocError> {
    let Some(line) = line else {
        return write!(told, "  {label} (the text ends)\n");
    };
    let line = String::from_utf8_lossy(alloc, line)?;
    write!(told, "  {label} {line}\n")
}

// Puts the first line in which a text isn't the wanted one.
fn put_first(
    alloc: Global,
    name: &str,
    text: &[u8],
    wanted: &[u8],
    told: &mut String,
) -> Result<(), AllocError> {
    let mut wanted = wanted.split(|byte| *byte == b'\n');
    let mut number = 1u32;
    for line in text.split(|byte| *byte == b'\n') {
        let other = wanted.next();
        if other != Some(line) {
            write!(told, "FAILED {name}: line {number}\n")?;
            put_line(alloc, "is:    ", Some(line), told)?;
            return put_line(alloc, "wanted:", other, told);
        }
        number = number.saturating_add(1);
    }
    write!(told, "FAILED {name}: line {number}\n")?;
    put_line(alloc, "is:    ", None, told)?;
    put_line(alloc, "wanted:", wanted.next(), told)
}

/// Whether a text is the wanted one. Where it isn't, tells where.
pub fn is_whole(
    alloc: Global,
    name: &str,
    text: &[u8],
    wanted: &[u8],
    told: &mut String,
) -> Result<bool, AllocError> {
    if text == wanted {
        return Ok(true);
    }
    put_first(alloc, name, text, wanted, told)?;
    Ok(false)
}

/// Whether a text has this part.
pub fn has(text: &[u8], part: &[u8]) -> bool {
    for place in 0..text.len() {
        let (_, rest) = text.split_at(place);
        if rest.starts_with(part) {
            return true;
        }
    }
    false
}

/// Whether a text begins or ends with this one, as the word says, or else has it somewhere, its last line end apart. Where it
/// doesn't, tells the text.
pub fn has_part(
    alloc: Global,
    name: &str,
    text: &[u8],
    word: &str,
    wanted: &[u8],
    told: &mut String,
) -> Result<bool, AllocError> {
    let has_it = if word == "begin" {
        text.starts_with(wanted)
    } else if word == "end" {
        text.ends_with(wanted)
    } else {
        has(text, wanted.strip_suffix(b"\n").unwrap_or(wanted))
    };
    if has_it {
        return Ok(true);
    }
    let text = String::from_utf8_lossy(alloc, text)?;
    let wanted = String::from_utf8_lossy(alloc, wanted)?;
    write!(
        told,
        "FAILED {name}: {word} is missing\n  wanted: {wanted}  is: {text}"
    )?;
    Ok(false)
}
