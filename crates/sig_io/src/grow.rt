// A sink in memory that grows.
ghost use Rattle.std.specs.Prelude.{◌≡◌, ◌<◌, ◌++◌, [], Some, false, length, IfOk, OnOk, OnErr};
ghost use Rattle.sig_io.specs.Outside.{HasCause};

use crate::{Failed, Sink};
use std::alloc::Global;

/// A sink in memory that takes each piece whole. Its one failure is want of memory.
#[derive(Drop)]
pub struct GrowSink {
    bytes: Vec<u8>,
    faults: u64,
}

impl GrowSink {
    /// An empty sink. It takes no memory.
    pub fn new(alloc: Global) -> GrowSink
        ensures empty { ⟦<GrowSink as Sink>⟧.taken result ≡ Some [] }
        ensures faults { ⟦<GrowSink as Sink>⟧.faults result ≡ 0 }
    {
        GrowSink {
            bytes: Vec::new(alloc),
            faults: 0,
        }
    }

    /// What was taken.
    pub fn bytes(&self) -> &[u8]
        ensures { ⟦<GrowSink as Sink>⟧.taken self.now ≡ Some result.now }
    {
        self.bytes.as_slice()
    }

    /// Whether a call has failed.
    pub fn has_failed(&self) -> bool
        ensures { result ≡ false → ⟦<GrowSink as Sink>⟧.faults self.now ≡ 0 }
    {
        self.faults > 0
    }
}

impl Sink for GrowSink {
    ghost taken = { λ s. Some s.bytes.items };

    ghost faults = { λ s. s.faults };

    fn write_some(&mut self, piece: &[u8]) -> Result<usize, Failed>
        requires { 0 < length piece.now }
        ensures whole { IfOk result (λ n. n ≡ length piece.now) }
        ensures bytes { OnOk result (self.new.bytes.items ≡ self.old.bytes.items ++ piece.now) }
        ensures none { OnErr result (self.new.bytes.items ≡ self.old.bytes.items) }
        ensures cause { HasCause self.old.faults self.new.faults result }
        ensures faults { OnOk result (self.new.faults ≡ self.old.faults) }
    {
        match self.bytes.extend_from_slice(piece) {
            Ok(()) => Ok(piece.len()),
            Err(_) => {
                self.faults = self.faults.saturating_add(1);
                Err(Failed)
            }
        }
    }
}
