// The bytes of a log, as the one file that there is.
ghost use Rattle.std.specs.Prelude.{◌≡◌, ◌<◌, ◌≤◌, Some};

use sig_io::{Failed, Files};

/// The bytes of a log in memory. Each name is that of a file with these bytes, and no read fails.
#[derive(Clone, Copy, Drop)]
pub struct LogBytes<'a> {
    bytes: &'a [u8],
}

impl<'a> LogBytes<'a> {
    /// A file with these bytes.
    pub fn new(bytes: &'a [u8]) -> LogBytes<'a>
        ensures told { ⟦<LogBytes<'a> as Files>⟧.told result ≡ Some (λ name. bytes.now) }
        ensures faults { ⟦<LogBytes<'a> as Files>⟧.faults result ≡ 0 }
    {
        LogBytes { bytes }
    }
}

impl Files for LogBytes<'_> {
    ghost told = { λ l. Some (λ _. l.bytes.now) };

    ghost faults = { λ _. 0 };

    fn read_at(&mut self, _name: &str, place: u64, buf: &mut [u8]) -> Result<usize, Failed> {
        let bytes = self.bytes;
        if place >= bytes.len() as u64 {
            return Ok(0);
        }
        let (_, rest) = bytes.split_at(place as usize);
        let n = rest.len().min(buf.len());
        buf[..n].copy_from_slice(&rest[..n]);
        Ok(n)
    }
}
