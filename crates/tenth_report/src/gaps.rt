// The stretches of a record of which nothing is known.
ghost use Rattle.std.specs.Prelude.{◌≡◌, ◌<◌, ◌≤◌, ◌∷◌, [], ℕ, List, None};
ghost use Rattle.std.specs.Option.{ForSome};
ghost use Rattle.tenth_records.specs.declared.entry.Entry.{Entry as EntryOf};
ghost use Rattle.log_protocol.specs.Came.{extremes};
ghost use Rattle.tenth_report.specs.Gaps.{HasGaps, came_then, gap_since, is_unknown};

use log_judge::Extremes;
use log_protocol::joined;
use tenth_records::{Entry, Shown};

/// The stretches of which nothing is known, behind some entry. Times are in tenths of a second.
#[derive(Clone, Copy)]
pub(crate) struct Gaps {
    /// Those that are over.
    pub(crate) came: Extremes,
    /// Since when nothing is known now.
    pub(crate) since: Option<u32>,
}

// Whether nothing is known.
fn is_unknown(shown: &Shown) -> bool
    ensures { result ≡ is_unknown shown.now }
{
    match shown {
        Shown::Picture(_) => false,
        Shown::Unknown => true,
        Shown::End => false,
    }
}

impl Gaps {
    /// Before the first entry.
    pub(crate) fn new() -> Gaps
        ensures came { result.came ≡ extremes [] }
        ensures since { result.since ≡ None }
    {
        Gaps {
            came: Extremes {
                count: 0,
                least: 0,
                second: 0,
                most: 0,
            },
            since: None,
        }
    }

    // Those that are over behind this time, from which on this is shown.
    fn came_then(&self, at: u32, shown: &Shown) -> Extremes
        ensures { result ≡ came_then self.now.came self.now.since at shown.now }
    {
        match self.since {
            Some(since) if !is_unknown(shown) => {
                let lasted = at.saturating_sub(since);
                let one = Extremes {
                    count: 1,
                    least: lasted,
                    second: at,
                    most: lasted,
                };
                joined(self.came, 0, one)
            }
            Some(_) => self.came,
            None => self.came,
        }
    }

    // Since when nothing is known, from this time on.
    fn since_then(&self, at: u32, shown: &Shown) -> Option<u32>
        ensures { result ≡ gap_since self.now.since at shown.now }
    {
        if is_unknown(shown) {
            Some(self.since.unwrap_or(at))
        } else {
            None
        }
    }

    /// Takes an entry.
    pub(crate) fn take(&mut self, entry: &Entry)
        ensures since { self.new.since ≡ gap_since self.old.since entry.now.at entry.now.shown }
        ensures taken { (all rest : List EntryOf) (most : ℕ) → HasGaps self.old all (entry.now ∷ rest) most → most ≤ entry.now.at →
            ForSome self.old.since (λ _. most < entry.now.at) → HasGaps self.new all rest entry.now.at }
    {
        let came = self.came_then(entry.at, &entry.shown);
        self.since = self.since_then(entry.at, &entry.shown);
        self.came = came;
    }
}
