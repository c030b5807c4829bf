// A number of ticks, in seconds.
ghost use Rattle.std.specs.Prelude.{◌≡◌, ◌++◌, List, ℕ, Option, codes};
ghost use Rattle.std.specs.Fmt.{decimal};
ghost use Rattle.sig_io.specs.Draft.{Puts};
ghost use Rattle.judge_text.specs.Ticks.{ticks_text};

use sig_io::{Draft, Sink};

/// How long a picture is shown.
#[derive(Clone, Copy)]
pub enum Tick {
    /// A second. Numbers are whole.
    Second,
    /// A tenth of a second. Numbers have one decimal.
    Tenth,
}

/// Puts a number of ticks in seconds.
pub fn put_ticks<O: Sink>(draft: &mut Draft, sink: &mut O, tick: Tick, n: u64)
    ensures { Puts O.taken O.faults draft.old draft.new sink.old sink.new (ticks_text tick n) }
{
    match tick {
        Tick::Second => draft.put_long_number(sink, n),
        Tick::Tenth => {
            draft.put_long_number(sink, n / 10);
            draft.put(sink, b".");
            draft.put_long_number(sink, n % 10);
        }
    }
}
