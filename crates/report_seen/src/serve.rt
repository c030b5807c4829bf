// Detectors that are asked for because they serve a group.
ghost use Rattle.std.specs.Prelude.{◌≡◌, ◌≤◌, ◌<◌, None, Some, Option, MatchOption, IfOk, IfSome, IfErr, Err, ◌⊎◌, List, [], true, false, length, map, string_bytes};
ghost use Rattle.std.specs.List.{position};
ghost use Rattle.std.specs.Str.{bytes_eq};
ghost use Rattle.log_read.specs.Fields.{place_of};
ghost use Rattle.report_seen.specs.Serves.{detectors_in, serve_for, serve_in, serve_words, serves_for, with_detector};

use crate::stop::Stop;
use log_sums::Serve;
use sig_types::text::{cut_at, is_name, number};
use sig_types::{GroupNo, ShortName};
use std::alloc::Global;

// Chooses a detector more, and tells whether it is one, and wasn't chosen yet.
fn choose(detectors: &mut [bool; 64], word: &[u8]) -> bool
    ensures right { result ≡ true → with_detector (Some detectors.old) word.now ≡ Some detectors.new }
    ensures wrong { result ≡ false → with_detector (Some detectors.old) word.now ≡ None }
{
    match number(word, 1, 64) {
        Some(n) => {
            let place = (n - 1) as usize;
            if detectors[place] {
                return false;
            }
            detectors[place] = true;
            true
        }
        None => false,
    }
}

// The detectors that are parted by commas.
fn detectors_in(text: &[u8]) -> Option<[bool; 64]>
    ensures { result ≡ detectors_in text.now }
{
    let mut detectors = [false; 64];
    let mut right = true;
    for word in text.split(|b| *b == b',') {
        if right {
            right = choose(&mut detectors, word);
        }
    }
    if right { Some(detectors) } else { None }
}

/// The detectors and the name of the group that they serve: `1,2:K1`.
#[tactic(auto, unfolding(crate::specs::Serves::serve_in))]
pub(crate) fn serve_in(word: &[u8]) -> Option<([bool; 64], &[u8])>
    ensures { MatchOption result (serve_in word.now ≡ None) (λ p. serve_in word.now ≡ Some (p.0, p.1.now)) }
{
    let (detectors, group) = cut_at(b':', word)?;
    if !is_name(group) {
        return None;
    }
    let detectors = detectors_in(detectors)?;
    Some((detectors, group))
}

// The place of this name.
fn position_of(names: &[ShortName], word: &[u8]) -> Option<usize>
    ensures place { result ≡ position (λ name. bytes_eq name word.now) names.now }
    ensures inside { IfSome result (λ place. place < length names.now) }
{
    names.iter().position(|name| name.bytes() == word)
}

// The group of this name.
fn group_of(names: &[ShortName], word: &[u8]) -> Option<GroupNo>
    requires { length names.now ≤ 64 }
    ensures { result ≡ place_of names.now word.now }
{
    match position_of(names, word) {
        Some(place) => Some(GroupNo(place as u8)),
        None => None,
    }
}

// The detectors and the group that a word names.
#[tactic(auto, unfolding(crate::specs::Serves::serve_for))]
fn serve_for(names: &[ShortName], word: &[u8]) -> Option<Serve>
    requires { length names.now ≤ 64 }
    ensures { result ≡ serve_for names.now word.now }
{
    let (detectors, group) = serve_in(word)?;
    let group = group_of(names, group)?;
    Some(Serve { group, detectors })
}

/// The detectors and the groups that every second one of these words names; `Words` where there is no such group.
pub(crate) fn serves_for(
    alloc: Global,
    names: &[ShortName],
    words: &[String],
) -> Result<Vec<Serve>, Stop>
    requires { length names.now ≤ 64 }
    ensures found { IfOk result (λ v. serves_for names.now (serve_words (map string_bytes words.now)) ≡ Some v.items) }
    ensures lacking { result ≡ Err Stop.Words → serves_for names.now (serve_words (map string_bytes words.now)) ≡ None }
    ensures stop { IfErr result (λ stop. (stop ≡ Stop.Memory) ⊎ (stop ≡ Stop.Words)) }
{
    let mut serves = Vec::new(alloc);
    let mut rest = words;
    while let [_, word, more @ ..] = rest {
        let Some(serve) = serve_for(names, word.as_bytes()) else {
            return Err(Stop::Words);
        };
        match serves.push(serve) {
            Ok(()) => {}
            Err(_) => return Err(Stop::Memory),
        }
        rest = more;
    }
    Ok(serves)
}
