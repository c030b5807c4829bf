// Gates in which the actors of a live run wait for one another.
use sig_io::Gate;
use std::alloc::{AllocError, Global};
use std::hint;
use std::sync::atomic::{AtomicU64, Ordering};

// How often a call looks for the other one before it gives up.
const TURNS: u32 = 100_000_000;

/// A call of a gate: who passes, and the number of its event.
pub type Call = (u8, u32);

// A call returns only once another one was made.
#[derive(Drop)]
struct Wait {
    call: Call,
    other: Call,
    was_made: AtomicU64,
}

/// A gate in which calls wait for others: of each pair the first one returns only once the second one was made.
#[derive(Drop)]
pub struct PairGate {
    waits: Vec<Wait>,
    gave_up: AtomicU64,
}

impl PairGate {
    /// The gate of these pairs, before any call.
    pub fn new(alloc: Global, pairs: &[(Call, Call)]) -> Result<PairGate, AllocError> {
        let mut waits = Vec::new(alloc);
        for (call, other) in pairs {
            waits.push(Wait {
                call: *call,
                other: *other,
                was_made: AtomicU64::new(0),
            })?;
        }
        Ok(PairGate {
            waits,
            gave_up: AtomicU64::new(0),
        })
    }

    /// How many calls gave up waiting.
    pub fn given_up(&self) -> u64 {
        self.gave_up.load(Ordering::SeqCst)
    }

    fn wait(&self, was_made: &AtomicU64) {
        for _turn in 0..TURNS {
            if was_made.load(Ordering::SeqCst) == 1 {
                return;
            }
            hint::spin_loop();
        }
        self.gave_up.fetch_add(1, Ordering::SeqCst);
    }
}

impl Gate for PairGate {
    fn pass(&self, who: u8, step: u32) {
        let own = (who, step);
        for wait in self.waits.iter() {
            if wait.other == own {
                wait.was_made.store(1, Ordering::SeqCst);
            }
        }
        for wait in self.waits.iter() {
            if wait.call == own {
                self.wait(&wait.was_made);
            }
        }
    }
}

/// A gate that counts how often the controller passes.
#[derive(Drop)]
pub struct CountGate {
    seconds: AtomicU64,
}

impl CountGate {
    /// The controller has not passed.
    pub fn new() -> CountGate {
        CountGate {
            seconds: AtomicU64::new(0),
        }
    }

    /// How often the controller has passed.
    pub fn seconds(&self) -> u64 {
        self.seconds.load(Ordering::SeqCst)
    }
}

impl Gate for CountGate {
    fn pass(&self, who: u8, _step: u32) {
        if who == 0 {
            self.seconds.fetch_add(1, Ordering::SeqCst);
        }
    }
}
