// Findings as lines of JSON, for tools.
ghost use Rattle.std.specs.Prelude.{◌≡◌, ◌++◌, IfOk, OnOk};
ghost use Rattle.site_findings.specs.Json.{cure_text, end_of, json_line, json_number, json_place, json_string};
ghost use Rattle.site_findings.specs.Json.{json_text, json_told, line_sentence, severity_text, word_text};
ghost use Rattle.site_findings.specs.Meant.{told_place};
ghost use Rattle.site_findings.specs.Put.{Puts};
ghost use Rattle.site_findings.specs.Sheets.{AreSheetsOf};
ghost use Rattle.site_findings.specs.Text.{editor_begin, line_at, record_text};

use crate::cures::warning_cure;
use crate::escaped::put_escaped;
use crate::finding::{Examined, FileKind, Finding, SiteNames, Told};
use crate::meant::{meant_spot, told_place};
use crate::reasons::put_refusal;
use crate::sentences::unread;
use crate::slips::said_of;
use crate::text::{
    Sheets, Text, column_of, editor_begin, file_name, line_at, put_means, put_record, sheets_of,
};
use crate::warned::{put_warning, warning_name};
use pua_lines::Spot;
use std::alloc::{AllocError, Global};

// Puts a text of JSON.
#[tactic(auto, unfolding(crate::specs::Json::json_string))]
fn put_json(text: &mut Text, bytes: &[u8]) -> Result<(), AllocError>
    ensures { OnOk result (Puts text.old text.new (json_string bytes.now)) }
{
    text.put(b"\"")?;
    put_escaped(text, bytes)?;
    text.put(b"\"")
}

// Puts a number that counts from 1; null where it isn't known.
#[tactic(auto, unfolding(crate::specs::Json::json_number))]
fn put_json_number(text: &mut Text, n: usize) -> Result<(), AllocError>
    ensures { OnOk result (Puts text.old text.new (json_number n)) }
{
    if n == 0 {
        text.put(b"null")
    } else {
        text.put_count(n)
    }
}

// The last column of what is meant; 0 where it isn't known.
#[tactic(auto, unfolding(crate::specs::Json::end_of))]
fn end_of(spot: Spot) -> usize
    ensures { result ≡ end_of spot }
{
    if spot.from < spot.to { spot.to } else { 0 }
}

fn severity_text(told: &Told) -> &'static [u8]
    ensures { result.now ≡ severity_text told.now }
{
    match told {
        Told::Refused(_) | Told::Unread | Told::NotJudged => b"error",
        Told::Warned(_) => b"warning",
    }
}

// Puts the word of what is told, and what it speaks of.
fn put_word(text: &mut Text, examined: &Examined, told: &Told) -> Result<(), AllocError>
    ensures { OnOk result (Puts text.old text.new (word_text examined.now told.now)) }
{
    match told {
        Told::Refused(refusal) => put_refusal(text, &examined.plan, refusal),
        Told::Unread => text.put(b"ReadFault"),
        Told::NotJudged => text.put(b"not-judged"),
        Told::Warned(warning) => text.put(warning_name(warning)),
    }
}

// Puts what is told of a line, in a sentence.
#[tactic(auto, unfolding(crate::specs::Prose::quote_text))]
fn put_line_sentence(
    text: &mut Text,
    examined: &Examined,
    file: FileKind,
    told: &Told,
    line: &[u8],
) -> Result<(), AllocError>
    ensures { OnOk result (Puts text.old text.new (line_sentence examined.now file told.now line.now)) }
{
    match told {
        Told::Refused(refusal) => {
            let said = said_of(refusal, file, &examined.advice, line);
            put_means(text, &said)
        }
        Told::Unread => text.put(unread().means),
        Told::NotJudged => text.put(b"not judged, since the PUA file is not accepted"),
        Told::Warned(warning) => put_warning(text, &examined.plan, warning),
    }
}

// What to do.
fn cure_of<'a>(examined: &'a Examined, file: FileKind, told: &Told, line: &'a [u8]) -> &'a [u8]
    ensures { result.now ≡ cure_text examined.now file told.now line.now }
{
    match told {
        Told::Refused(refusal) => said_of(refusal, file, &examined.advice, line).cure,
        Told::Unread => unread().cure,
        Told::NotJudged => &[],
        Told::Warned(warning) => warning_cure(warning),
    }
}

// Puts where a finding stands.
#[tactic(auto, unfolding(crate::specs::Json::json_place))]
fn put_json_place(text: &mut Text, name: &[u8], at: usize, spot: Spot) -> Result<(), AllocError>
    ensures { OnOk result (Puts text.old text.new (json_place name.now at spot)) }
{
    text.put(b"{\"file\":")?;
    put_json(text, name)?;
    text.put(b",\"line\":")?;
    put_json_number(text, at)?;
    text.put(b",\"column\":")?;
    put_json_number(text, column_of(spot))?;
    text.put(b",\"end\":")?;
    put_json_number(text, end_of(spot))
}

// Puts what is told of it.
#[tactic(auto, unfolding(crate::specs::Json::json_told))]
fn put_json_told(
    text: &mut Text,
    severity: &[u8],
    word: &[u8],
    sentence: &[u8],
    cure: &[u8],
) -> Result<(), AllocError>
    ensures { OnOk result (Puts text.old text.new (json_told severity.now word.now sentence.now cure.now)) }
{
    text.put(b",\"severity\":\"")?;
    text.put(severity)?;
    text.put(b"\",\"word\":")?;
    put_json(text, word)?;
    text.put(b",\"sentence\":")?;
    put_json(text, sentence)?;
    text.put(b",\"cure\":")?;
    put_json(text, cure)?;
    text.put(b"}\n")
}

// The word of what is told.
fn word_in(alloc: Global, examined: &Examined, told: &Told) -> Result<Vec<u8>, AllocError>
    ensures { IfOk result (λ v. v.items ≡ word_text examined.now told.now) }
{
    let mut word = Text::new(alloc);
    put_word(&mut word, examined, told)?;
    Ok(word.bytes)
}

// The sentence of a finding, with the number of the record that isn't that of its line.
#[tactic(auto, unfolding(crate::specs::Json::sentence_text))]
fn sentence_in(
    alloc: Global,
    examined: &Examined,
    finding: &Finding,
    line: &[u8],
    at: usize,
) -> Result<Vec<u8>, AllocError>
    ensures { IfOk result (λ v. v.items ≡ line_sentence examined.now finding.now.file finding.now.told line.now
        ++ record_text at (told_place examined.now finding.now)) }
{
    let mut sentence = Text::new(alloc);
    put_line_sentence(&mut sentence, examined, finding.file, &finding.told, line)?;
    put_record(&mut sentence, at, told_place(examined, finding))?;
    Ok(sentence.bytes)
}

// Puts the line of a finding.
#[tactic(auto, unfolding(crate::specs::Json::json_line, crate::specs::Json::sentence_text))]
fn put_json_line(
    alloc: Global,
    text: &mut Text,
    sheets: &Sheets<'_>,
    examined: &Examined,
    names: &SiteNames<'_>,
    finding: &Finding,
) -> Result<(), AllocError>
    requires { AreSheetsOf examined.now sheets.now }
    ensures { OnOk result (Puts text.old text.new (json_line names.now examined.now finding.now)) }
{
    let Finding { file, told, .. } = finding;
    let place = told_place(examined, finding);
    let line = line_at(sheets, *file, place);
    let word = word_in(alloc, examined, told)?;
    let begin = editor_begin(sheets, *file, place);
    let sentence = sentence_in(alloc, examined, finding, line, begin.line)?;
    let meant = meant_spot(examined, finding, begin, line);
    put_json_place(text, file_name(names, *file).as_bytes(), begin.line, meant)?;
    let cure = cure_of(examined, *file, told, line);
    put_json_told(text, severity_text(told), &word, &sentence, cure)
}

// So many bytes has the line of most findings at most.
const USUAL: usize = 320;

// Puts the lines of all findings.
fn put_lines(
    alloc: Global,
    text: &mut Text,
    sheets: &Sheets<'_>,
    examined: &Examined,
    names: &SiteNames<'_>,
) -> Result<(), AllocError>
    requires { AreSheetsOf examined.now sheets.now }
    ensures { OnOk result (Puts text.old text.new (json_text names.now examined.now)) }
{
    text.reserve(examined.findings.len().saturating_mul(USUAL))?;
    for finding in examined.findings.iter() {
        put_json_line(alloc, text, sheets, examined, names, finding)?;
    }
    Ok(())
}

/// All findings as lines of JSON, an object each.
pub fn write_json(
    alloc: Global,
    examined: &Examined,
    names: &SiteNames<'_>,
) -> Result<Vec<u8>, AllocError>
    ensures { IfOk result (λ v. v.items ≡ json_text names.now examined.now) }
{
    let sheets = sheets_of(alloc, examined)?;
    let mut text = Text::new(alloc);
    put_lines(alloc, &mut text, &sheets, examined, names)?;
    Ok(text.bytes)
}
