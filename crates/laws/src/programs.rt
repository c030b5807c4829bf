//! The laws.
ghost use Rattle.laws.specs.OneProgram.{IsWhatRunPlays, OneProgram, OneText};
ghost use Rattle.laws.specs.OneTrace.{TraceHasOneAnswer};

use junction_run::laws::answers_are_right;
use vap_lex::one_answer;

/// Files give one program at one site: the tree of the program's text, with its names and its lines. It is what `junction run`
/// plays.
pub fn one_program()
    ensures one { OneProgram }
    ensures played { IsWhatRunPlays }
{
    answers_are_right();
}

/// The words and the files settle what a call of `junction_trace` writes that does all that is asked for: the names of the
/// columns, the numbers of the lines, and each count.
pub fn one_text()
    ensures { OneText }
{
    one_program();
    one_answer();
}

/// So they settle status, text and note of each of its calls in which nothing fails and memory is found: also of words that are no
/// form, of a name that the program doesn't have, of a file that is refused, and of a refused line of the detector file.
pub fn trace_has_one_answer()
    ensures { TraceHasOneAnswer }
{
    one_program();
    one_answer();
    answers_are_right();
}
