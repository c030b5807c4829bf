//! What follows from the definitions of a live run's answer: each law is a clause of a call that does nothing.
ghost use Rattle.junction_live.specs.Laws.{IsComplete, TextIsLog};

use junction_run::laws::answers_are_right;

/// Where neither count of faults rose, the status of a live run is that of what its files give, or memory was wanted.
pub fn live_answers_are_complete()
    ensures { IsComplete }
{
    answers_are_right();
}

/// Without watchers the text of a live run is its log.
pub fn without_watchers_there_is_the_log()
    ensures { TextIsLog }
{}
