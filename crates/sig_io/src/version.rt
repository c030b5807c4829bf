// The version of the programs.
ghost use Rattle.std.specs.Prelude.{◌≡◌, ◌≤◌, ◌++◌, length};
ghost use Rattle.sig_io.specs.Draft.{Puts};
ghost use Rattle.sig_io.specs.Version.{version_line};

use crate::{Draft, Sink};

// The version of all programs.
const VERSION: &[u8] = b"0.1.0";

/// Puts which version a program is at the end of a draft: its name, the version and LF. All programs have one version.
pub fn put_version<O: Sink>(name: &[u8], draft: &mut Draft, sink: &mut O)
    requires { length name.now ≤ 4096 }
    ensures { Puts O.taken O.faults draft.old draft.new sink.old sink.new (version_line name.now) }
{
    draft.put(sink, name);
    draft.put(sink, b" ");
    draft.put(sink, VERSION);
    draft.put(sink, b"\n");
}
