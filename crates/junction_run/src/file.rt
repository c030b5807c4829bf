// Whole files.
ghost use Rattle.std.specs.Prelude.{◌≡◌, ◌≤◌, ◌<◌, ◌^◌, IfOk, IfErr, length};
ghost use Rattle.std.specs.Option.{ForSome};
ghost use Rattle.sig_io.specs.Outside.{Rose};
ghost use Rattle.junction_run.specs.Stop.{IsUnread, IsAt, StopsWith, load_status};
ghost use Rattle.junction_run.specs.declared.status.Status.TheVariants as status;

use crate::stop::LoadStop;
use sig_io::{Files, ReadRefusal, read_whole};
use std::alloc::Global;

/// The bytes that a code file may have.
pub(crate) const CODE_LIMIT: usize = 2097152;

/// Reads a file of at most so many bytes.
///
/// The error is `ReadFault` where it could not be read, `TooLong` where it has more bytes, or `Memory`.
pub fn read_file<'a, F: Files>(
    alloc: Global,
    files: &mut F,
    word: &'a str,
    limit: usize,
) -> Result<Vec<u8>, LoadStop<'a>>
    requires { limit < 2 ^ 62 }
    ensures bytes { ForSome (F.told files.old) (λ file. IfOk result (λ v. v.items ≡ file word.now)) }
    ensures within { IfOk result (λ v. length v.items ≤ limit) }
    ensures unread { ForSome (F.told files.old) (λ file. IfErr result (λ stop. IsUnread limit (file word.now) stop)) }
    ensures word { IfErr result (λ stop. IsAt word.now stop) }
    ensures contents_stay { F.told files.new ≡ F.told files.old }
    ensures later { F.faults files.old ≤ F.faults files.new }
    ensures cause { StopsWith load_status status.ReadFault result → Rose (F.faults files.old) (F.faults files.new) }
{
    match read_whole(alloc, files, word, limit) {
        Ok(bytes) => Ok(bytes),
        Err(ReadRefusal::Memory) => Err(LoadStop::Memory),
        Err(ReadRefusal::Fault) => Err(LoadStop::ReadFault(word)),
        Err(ReadRefusal::TooLong(_)) => Err(LoadStop::TooLong(word)),
    }
}
