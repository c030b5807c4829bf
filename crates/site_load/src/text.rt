// Whole texts.
ghost use Rattle.std.specs.Prelude.{◌≡◌, ◌≤◌, ◌<◌, IfOk, IfErr, length};
ghost use Rattle.std.specs.Option.{ForSome};
ghost use Rattle.sig_io.specs.Outside.{Rose};
ghost use Rattle.site_load.specs.Stop.{IsAt, IsReadFault, IsUnread};

use crate::stop::SiteStop;
use sig_io::{Files, ReadRefusal, TEXT_LIMIT, read_whole};
use std::alloc::Global;

/// Reads a text within its limit.
pub(crate) fn read_text<'a, F: Files>(
    alloc: Global,
    files: &mut F,
    word: &'a str,
) -> Result<Vec<u8>, SiteStop<'a>>
    ensures bytes { ForSome (F.told files.old) (λ file. IfOk result (λ v. v.items ≡ file word.now)) }
    ensures within { IfOk result (λ v. length v.items ≤ 1048576) }
    ensures unread { ForSome (F.told files.old) (λ file. IfErr result (λ stop. IsUnread (file word.now) stop)) }
    ensures word { IfErr result (λ stop. IsAt word.now stop) }
    ensures contents_stay { F.told files.new ≡ F.told files.old }
    ensures later { F.faults files.old ≤ F.faults files.new }
    ensures cause { IsReadFault result → Rose (F.faults files.old) (F.faults files.new) }
{
    match read_whole(alloc, files, word, TEXT_LIMIT) {
        Ok(bytes) => Ok(bytes),
        Err(ReadRefusal::Memory) => Err(SiteStop::Memory),
        Err(ReadRefusal::Fault) => Err(SiteStop::ReadFault(word)),
        Err(ReadRefusal::TooLong(_)) => Err(SiteStop::TooLong(word)),
    }
}
