// Files and a sink that never fail.
ghost use Rattle.std.specs.Prelude.{◌≡◌, ◌<◌, ◌≤◌, Some, None, IfOk, IsOk, length};
ghost use Rattle.sig_io.specs.Memory.{contents_of};
ghost use Rattle.sig_io.specs.Outside.{IsRead};

use crate::memory::{copy_from, find};
use crate::{Failed, Files, Sink};

/// Files in memory that never fail. A name given twice has its first bytes, and a name that isn't there is an empty file.
#[derive(Drop)]
pub struct SureFiles {
    files: Vec<(String, Vec<u8>)>,
}

impl SureFiles {
    /// Files of these names and bytes.
    pub fn new(files: Vec<(String, Vec<u8>)>) -> SureFiles
        ensures told { ⟦<SureFiles as Files>⟧.told result ≡ Some (contents_of files.items) }
        ensures faults { ⟦<SureFiles as Files>⟧.faults result ≡ 0 }
    {
        SureFiles { files }
    }
}

impl Files for SureFiles {
    ghost told = { λ m. Some (contents_of m.files.items) };

    ghost faults = { λ _. 0 };

    fn read_at(&mut self, name: &str, place: u64, buf: &mut [u8]) -> Result<usize, Failed>
        requires { 0 < length buf.old }
        ensures count { IfOk result (λ n. n ≤ length buf.new) }
        ensures bytes { IfOk result (λ n. IsRead (contents_of self.old.files.items name.now) place n buf.new) }
        ensures contents_stay { self.new.files ≡ self.old.files }
        ensures never_fails { IsOk result }
    {
        match find(&self.files, name) {
            Some(bytes) => {
                let most = buf.len();
                Ok(copy_from(bytes, place, most, buf))
            }
            None => Ok(0),
        }
    }
}

/// A sink that takes every piece whole, never fails, keeps nothing and doesn't tell what it took.
#[derive(Drop)]
pub struct SureSink;

impl Sink for SureSink {
    ghost taken = { λ _. None };

    ghost faults = { λ _. 0 };

    fn write_some(&mut self, piece: &[u8]) -> Result<usize, Failed>
        requires { 0 < length piece.now }
        ensures whole { result ≡ Ok (length piece.now) }
    {
        Ok(piece.len())
    }
}
