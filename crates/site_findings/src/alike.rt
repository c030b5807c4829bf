// Of one file and one word eight findings are told, and then how many more there are.
ghost use Rattle.std.specs.Prelude.{◌≡◌, OnOk, min};
ghost use Rattle.site_findings.specs.Put.{Puts};
ghost use Rattle.site_findings.specs.Sheets.{AreSheetsOf};
ghost use Rattle.site_findings.specs.Text.{alike_in, are_alike, more_text, told_word, turn_text};

use crate::finding::{Examined, Finding, SiteNames, Told};
use crate::reasons::refusal_word;
use crate::text::{Sheets, Text, file_name, file_place, put_finding, put_place};
use crate::warned::warning_name;
use std::alloc::AllocError;

// So many findings of one file and one word are told.
const MOST: usize = 8;

// The word of what is told, without what it speaks of.
fn told_word(told: &Told) -> &'static [u8]
    ensures { result.now ≡ told_word told.now }
{
    match told {
        Told::Refused(refusal) => refusal_word(refusal),
        Told::Unread => b"ReadFault",
        Told::NotJudged => b"not-judged",
        Told::Warned(warning) => warning_name(warning),
    }
}

// Whether two findings are of one file and have one word.
fn are_alike(one: &Finding, other: &Finding) -> bool
    ensures { result ≡ are_alike one.now other.now }
{
    file_place(one.file) == file_place(other.file) && told_word(&one.told) == told_word(&other.told)
}

// How many of these findings are of the file of this one and have its word.
fn alike_in(finding: &Finding, findings: &[Finding]) -> usize
    ensures { result ≡ alike_in finding.now findings.now }
{
    findings.iter().filter(|f| are_alike(finding, f)).count()
}

/// How many of these findings are of the file of this one and have its word, at most 9. It looks from the last one back, so
/// that of many findings each is compared with few.
pub(crate) fn alike_before(finding: &Finding, findings: &[Finding]) -> usize
    ensures { result ≡ min (alike_in finding.now findings.now) 9 }
{
    findings
        .iter()
        .rev()
        .filter(|f| are_alike(finding, f))
        .take(MOST + 1)
        .count()
}

// Puts how many more there are of the file and the word of a finding.
#[tactic(auto, unfolding(crate::specs::Text::more_text))]
fn put_more(
    text: &mut Text,
    names: &SiteNames<'_>,
    finding: &Finding,
    more: usize,
) -> Result<(), AllocError>
    ensures { OnOk result (Puts text.old text.new (more_text names.now finding.now more)) }
{
    put_place(text, file_name(names, finding.file), 0, 0)?;
    text.put(told_word(&finding.told))?;
    text.put(b": and ")?;
    text.put_count(more)?;
    text.put(b" more\n")
}

/// Puts what stands in the place of a finding that has so many of its file and its word before it.
#[tactic(auto, unfolding(crate::specs::Text::turn_text))]
pub(crate) fn put_turn(
    text: &mut Text,
    sheets: &Sheets<'_>,
    examined: &Examined,
    names: &SiteNames<'_>,
    finding: &Finding,
    before: usize,
) -> Result<(), AllocError>
    requires { AreSheetsOf examined.now sheets.now }
    ensures { OnOk result (Puts text.old text.new (turn_text names.now examined.now finding.now before)) }
{
    if before < MOST {
        put_finding(text, sheets, examined, names, finding)
    } else if before == MOST {
        let more = alike_in(finding, &examined.findings).saturating_sub(MOST);
        put_more(text, names, finding, more)
    } else {
        Ok(())
    }
}
