// The top call.
ghost use Rattle.std.specs.Prelude.{◌≡◌, true, false, map, string_bytes};
ghost use Rattle.sig_io.specs.Seen.{seen};
ghost use Rattle.junction_run.specs.Answers.{JunctionAnswers};
ghost use Rattle.junction_live.specs.Answers.{LiveAnswers};
ghost use Rattle.junction_live.specs.Form.{begins_live};
ghost use Rattle.junction_net.specs.Form.{begins_net};
ghost use Rattle.junction_net.specs.NetAnswers.{NetAnswers};

use junction_live::{begins_live, live};
use junction_net::{begins_net, net};
use junction_run::{Status, junction};
use sig_io::{Files, Gate, Sink};
use std::alloc::Global;
use std::thread::Threads;

/// Does what the words say: a live run where the first word is `live`, several junctions at once where it is `net`, and else
/// what `junction` does.
///
/// The words are those of the command line without the program's name.
pub fn program<R: Threads + Sync, F: Files, O: Sink + Send, N: Sink, G: Gate>(
    rt: &R,
    alloc: Global,
    words: &[String],
    files: &mut F,
    out: &mut O,
    notes: &mut N,
    gate: &G,
) -> Status
    ensures live { begins_live (map string_bytes words.now) ≡ true → LiveAnswers (map string_bytes words.now)
        (seen (F.told files.old) (F.told files.new) (F.faults files.old) (F.faults files.new))
        (seen (O.taken out.old) (O.taken out.new) (O.faults out.old) (O.faults out.new))
        (seen (N.taken notes.old) (N.taken notes.new) (N.faults notes.old) (N.faults notes.new))
        result }
    ensures net { begins_net (map string_bytes words.now) ≡ true → NetAnswers (map string_bytes words.now)
        (seen (F.told files.old) (F.told files.new) (F.faults files.old) (F.faults files.new))
        (seen (O.taken out.old) (O.taken out.new) (O.faults out.old) (O.faults out.new))
        (seen (N.taken notes.old) (N.taken notes.new) (N.faults notes.old) (N.faults notes.new))
        result }
    ensures others { begins_live (map string_bytes words.now) ≡ false → begins_net (map string_bytes words.now) ≡ false →
        JunctionAnswers (map string_bytes words.now)
        (seen (F.told files.old) (F.told files.new) (F.faults files.old) (F.faults files.new))
        (seen (O.taken out.old) (O.taken out.new) (O.faults out.old) (O.faults out.new))
        (seen (N.taken notes.old) (N.taken notes.new) (N.faults notes.old) (N.faults notes.new))
        result }
    ensures unread { result ≡ Status.Words → files.new ≡ files.old }
    ensures unwritten { result ≡ Status.Words → out.new ≡ out.old }
    ensures contents_stay { F.told files.new ≡ F.told files.old }
{
    if begins_live(words) {
        live(rt, alloc, words, files, out, notes, gate)
    } else if begins_net(words) {
        net(rt, alloc, words, files, out, notes, gate)
    } else {
        junction(alloc, words, files, out, notes)
    }
}
