// What is told of a program that is refused.
ghost use Rattle.std.specs.Prelude.{◌≡◌, ◌≤◌, IfOk, length};
ghost use Rattle.site_check.specs.Advised.{IsAdvised, IsAdvisedOf, IsGiven};
ghost use Rattle.site_check.specs.Readings.{IsWithin, bytes_in};

use crate::program::Judged;
use crate::reading::Reading;
use crate::untaken::Untaken;
use program_advice::{Advice, advise};
use pua_lines::Spot;
use site_findings::Refusal;
use std::alloc::{AllocError, Global};
use vap_parse::ParseWhy;

// What is told of a text that is refused in a line, or at a place of it.
fn given(
    alloc: Global,
    text: &[u8],
    line: u32,
    place: Option<u32>,
) -> Result<Option<Advice>, AllocError>
    requires { length text.now ≤ 1048576 }
    ensures { IfOk result (IsGiven text.now) }
{
    let advice = advise(alloc, text, line, place)?;
    Ok(Some(advice))
}

// The place of the first token with which there is no program.
fn place_in(why: ParseWhy) -> Option<u32> {
    match why {
        ParseWhy::Unexpected(place) => Some(place),
        ParseWhy::Frequency | ParseWhy::TooDeep => None,
    }
}

// What is told of a text that is refused for this reason.
fn advice_on(
    alloc: Global,
    text: &[u8],
    spot: Spot,
    refusal: &Refusal,
) -> Result<Option<Advice>, AllocError>
    requires { length text.now ≤ 1048576 }
    ensures { IfOk result (IsAdvisedOf text.now refusal.now) }
{
    match refusal {
        Refusal::Lex(_) | Refusal::Check(_) => given(alloc, text, spot.line, None),
        Refusal::Parse(why) => given(alloc, text, spot.line, place_in(*why)),
        Refusal::Pua(_) | Refusal::Table(_) | Refusal::Stream(_) => Ok(None),
        Refusal::Mark | Refusal::TooLong => Ok(None),
    }
}

// The text as it is shown; none where it was not read whole.
fn shown_within(reading: &Reading) -> &[u8]
    requires { IsWithin reading.now }
    ensures bytes { result.now ≡ bytes_in reading.now }
    ensures within { length result.now ≤ 1048576 }
{
    match reading {
        Reading::Whole(bytes) => bytes,
        Reading::Unread | Reading::TooLong => &[],
    }
}

/// What is told of a program that was judged so, where it is refused.
pub(crate) fn advice_of(
    alloc: Global,
    reading: &Reading,
    judged: &Result<Judged, Untaken>,
) -> Result<Option<Advice>, AllocError>
    requires { IsWithin reading.now }
    ensures { IfOk result (IsAdvised (bytes_in reading.now) judged.now) }
{
    match judged {
        Err(Untaken::Refused(spot, refusal)) => {
            advice_on(alloc, shown_within(reading), *spot, refusal)
        }
        Err(Untaken::Unread | Untaken::NotJudged) | Ok(_) => Ok(None),
    }
}
