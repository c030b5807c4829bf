// The traits of the outside. Where an object tells its content, a contract can name it.
ghost use Rattle.std.specs.Prelude.{◌≡◌, ℕ, ◌<◌, ◌≤◌, List, length, take, Option, IfOk, OnErr};
ghost use Rattle.std.specs.Option.{ForSome};
ghost use Rattle.std.specs.Io.KnownBytes.{append_known};
ghost use Rattle.sig_io.specs.Outside.{Contents, HasCause, IsRead};

/// A call of the outside that failed. It has had no effect but for the count of faults.
#[derive(Clone, Copy, Debug, PartialEq, Eq)]
pub struct Failed;

/// Files that are read at a place. Reading changes no file. The count of faults never falls.
pub trait Files {
    /// What each file holds, by its name, where the object tells it. A name that is no file holds no bytes.
    ghost told: { Self → Option Contents };

    /// How often a call has failed.
    ghost faults: { Self → ℕ };

    /// Reads bytes of a file from a place on into the front of a buffer that isn't empty, and answers how many: at least
    /// one, but at or past the end of the file, where it answers 0.
    ///
    /// `Failed` comes only where the count of faults rose, or stands at its last value.
    fn read_at(&mut self, name: &str, place: u64, buf: &mut [u8]) -> Result<usize, Failed>
        requires { 0 < length buf.old }
        ensures count { IfOk result (λ n. n ≤ length buf.new) }
        ensures bytes { ForSome (told self.old) (λ file. IfOk result (λ n. IsRead (file name.now) place n buf.new)) }
        ensures contents_stay { told self.new ≡ told self.old }
        ensures cause { HasCause (faults self.old) (faults self.new) result };
}

/// What takes bytes. The count of faults never falls.
pub trait Sink {
    /// The bytes taken so far, where the object tells them.
    ghost taken: { Self → Option (List ℕ) };

    /// How often a call has failed.
    ghost faults: { Self → ℕ };

    /// Takes some of the first bytes of a piece that isn't empty, at least one, and answers how many.
    ///
    /// `Failed` takes none, and comes only where the count of faults rose, or stands at its last value.
    fn write_some(&mut self, piece: &[u8]) -> Result<usize, Failed>
        requires { 0 < length piece.now }
        ensures at_least { IfOk result (λ n. 1 ≤ n) }
        ensures count { IfOk result (λ n. n ≤ length piece.now) }
        ensures bytes { IfOk result (λ n. taken self.new ≡ append_known (taken self.old) (take n piece.now)) }
        ensures none { OnErr result (taken self.new ≡ taken self.old) }
        ensures cause { HasCause (faults self.old) (faults self.new) result };
}
