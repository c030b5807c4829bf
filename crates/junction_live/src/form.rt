// The words of a live run.
ghost use Rattle.std.specs.Prelude.{◌≡◌, None, Some, MatchOption, IfSome, length, map, string_bytes};
ghost use Rattle.sig_types.specs.Text.{number_of, within};
ghost use Rattle.junction_live.specs.Form.{begins_live, live_form};
ghost use Rattle.junction_live.specs.FormWords.{form_in};

use crate::count::WatcherCount;
use sig_types::text::number;

const LIVE: &str = "live";

/// What a live run is asked for.
#[derive(Clone, Copy)]
pub(crate) struct LiveWords<'a> {
    /// The names of the program, the PUA file, the times and the intergreens.
    pub(crate) names: &'a [String],
    pub(crate) detectors: &'a str,
    pub(crate) watchers: WatcherCount,
}

/// Whether the first word asks for a live run.
pub fn begins_live(words: &[String]) -> bool
    ensures { result ≡ begins_live (map string_bytes words.now) }
{
    match words {
        [command, ..] => command.as_str() == LIVE,
        [] => false,
    }
}

// A number of watchers.
fn watchers_of(word: &str) -> Option<WatcherCount>
    ensures { MatchOption result (within 1 8 (number_of word.now) ≡ None)
        (λ watchers. within 1 8 (number_of word.now) ≡ Some watchers.count) }
{
    match number(word.as_bytes(), 1, 8) {
        Some(count) => Some(WatcherCount { count: count as u8 }),
        None => None,
    }
}

/// What the words ask for; None where they are not the form of a live run.
pub(crate) fn live_form(words: &[String]) -> Option<LiveWords<'_>>
    ensures form { MatchOption result (live_form (map string_bytes words.now) ≡ None)
        (λ form. live_form (map string_bytes words.now) ≡ Some (form_in form)) }
    ensures names { IfSome result (λ form. length form.names.now ≡ 4) }
{
    match words {
        [command, _program, _plan, _times, _intergreens, detectors] => {
            if command.as_str() != LIVE {
                return None;
            }
            Some(LiveWords {
                names: &words[1..5],
                detectors: detectors.as_str(),
                watchers: WatcherCount { count: 0 },
            })
        }
        [
            command,
            _program,
            _plan,
            _times,
            _intergreens,
            detectors,
            watchers,
        ] => {
            if command.as_str() != LIVE {
                return None;
            }
            let watchers = watchers_of(watchers.as_str())?;
            Some(LiveWords {
                names: &words[1..5],
                detectors: detectors.as_str(),
                watchers,
            })
        }
        _ => None,
    }
}
