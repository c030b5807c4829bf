//! What follows from the definition of what is said of a refused turn: each law is a function whose contract states it.
ghost use Rattle.refusal_text.specs.Laws.{AnyPastSaysTheSame, RunsAreBorneOut};

/// Of the pictures of a run of the guard each turn that it refuses is told as borne out.
pub fn runs_are_borne_out()
    ensures { RunsAreBorneOut }
{}

/// What is told of a refused turn of a log with an unknown past is so whatever was before the log.
pub fn any_past_says_the_same()
    ensures { AnyPastSaysTheSame }
{}
