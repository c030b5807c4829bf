//! What a call of `junction` answers is settled by its words and its files.
ghost use Rattle.laws.specs.NetAndLive.{LiveHasOneEnd, LiveIsOneProgram, NetHasOneAnswer};
ghost use Rattle.laws.specs.OneAnswer.{CompiledIsOneProgram, JunctionHasOneAnswer};

use junction_net::laws::net_answers_are_right;
use junction_run::laws::answers_are_right;

/// The words and the files settle status, text and note of `run`, `exec`, `sample` and `audit`, where nothing fails and memory is
/// found; of `compile` status and note, and the program of which the text is a code.
pub fn junction_has_one_answer()
    ensures one { JunctionHasOneAnswer }
    ensures compiled { CompiledIsOneProgram }
{
    answers_are_right();
}

/// So they do of `net`.
pub fn net_has_one_answer()
    ensures { NetHasOneAnswer }
{
    net_answers_are_right();
}

/// Of `live` they settle status and note, and that nothing is written where it isn't done; else which program was played at which
/// site, and over which events.
pub fn live_has_one_end()
    ensures one { LiveHasOneEnd }
    ensures played { LiveIsOneProgram }
{
    answers_are_right();
}
