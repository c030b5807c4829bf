// Numbers behind their words.
ghost use Rattle.std.specs.Prelude.{◌≡◌, ◌+◌, ◌-◌, ◌*◌, ◌/◌, ◌%◌, ◌^◌, ◌<◌, ◌≤◌, ◌++◌, ◌==◌, max, ℕ, List, Bool, length, if◌then◌else◌};
ghost use Rattle.std.specs.Fmt.{decimal};
ghost use Rattle.sig_io.specs.Draft.{Puts};
ghost use Rattle.sums_text.specs.Words.{lengths_text, longest_from, longest_of, mean_of, pair_text, some_text, tenths_text};

use log_sums::{Figures, Spells};
use sig_io::{Draft, Sink};

/// Puts a word and a number.
pub(crate) fn put_pair<O: Sink>(draft: &mut Draft, sink: &mut O, word: &[u8], n: u32)
    requires { length word.now ≤ 20 }
    ensures { Puts O.taken O.faults draft.old draft.new sink.old sink.new (pair_text word.now n) }
{
    draft.put(sink, word);
    draft.put_number(sink, n);
}

/// Puts a word and a long number.
pub(crate) fn put_long<O: Sink>(draft: &mut Draft, sink: &mut O, word: &[u8], n: u64)
    requires { length word.now ≤ 20 }
    ensures { Puts O.taken O.faults draft.old draft.new sink.old sink.new (pair_text word.now n) }
{
    draft.put(sink, word);
    draft.put_long_number(sink, n);
}

/// Puts a word and a number where it isn't 0.
#[tactic(auto, unfolding(crate::specs::Words::some_text))]
pub(crate) fn put_some<O: Sink>(draft: &mut Draft, sink: &mut O, word: &[u8], n: u32)
    requires { length word.now ≤ 20 }
    ensures { Puts O.taken O.faults draft.old draft.new sink.old sink.new (some_text word.now n) }
{
    if n == 0 {
        return;
    }
    put_pair(draft, sink, word, n);
}

/// Puts tenths, with a point before the last one.
pub(crate) fn put_tenths<O: Sink>(draft: &mut Draft, sink: &mut O, tenths: u64)
    ensures { Puts O.taken O.faults draft.old draft.new sink.old sink.new (tenths_text tenths) }
{
    draft.put_long_number(sink, tenths / 10);
    draft.put(sink, b".");
    draft.put_long_number(sink, tenths % 10);
}

/// The mean in tenths, rounded down.
pub(crate) fn mean_of(figures: Figures) -> u64
    requires some { 1 ≤ figures.count }
    requires small { figures.sum < 2 ^ 60 }
    ensures { result ≡ mean_of figures }
{
    figures.sum * 10 / u64::from(figures.count)
}

/// Puts the shortest, the mean and the longest, behind these words.
#[tactic(auto, unfolding(crate::specs::Words::lengths_text))]
pub(crate) fn put_lengths<O: Sink>(
    draft: &mut Draft,
    sink: &mut O,
    shortest: &[u8],
    mean: &[u8],
    longest: &[u8],
    figures: Figures,
)
    requires shortest { length shortest.now ≤ 20 }
    requires mean { length mean.now ≤ 20 }
    requires longest { length longest.now ≤ 20 }
    requires small { figures.sum < 2 ^ 60 }
    ensures { Puts O.taken O.faults draft.old draft.new sink.old sink.new (lengths_text shortest.now mean.now longest.now figures) }
{
    if figures.count == 0 {
        return;
    }
    put_pair(draft, sink, shortest, figures.least);
    draft.put(sink, mean);
    put_tenths(draft, sink, mean_of(figures));
    put_pair(draft, sink, longest, figures.most);
}

/// How many seconds the longest spell has; one that runs when the log ends counts too.
pub(crate) fn longest_of(goes_on: bool, spells: &Spells) -> u32
    ensures { result ≡ longest_of goes_on spells.now }
{
    if goes_on {
        spells.over.most
    } else {
        spells.over.most.max(spells.run)
    }
}

/// The first second of the first one that is as long.
pub(crate) fn longest_from(goes_on: bool, seconds: u32, spells: &Spells) -> u32
    requires { seconds < 2 ^ 31 }
    ensures { result ≡ longest_from goes_on seconds spells.now }
{
    if longest_of(goes_on, spells) == spells.over.most {
        spells.over.at.saturating_sub(spells.over.most)
    } else {
        (seconds + 1).saturating_sub(spells.run)
    }
}
