// Places in a file.
ghost use Rattle.std.specs.Prelude.{◌≡◌};

/// A place in a file: a line from 1, or 0 for the whole file, and the bytes of the line that are meant. Where `from` is not below
/// `to`, the whole line is.
#[derive(Clone, Copy)]
pub struct Spot {
    pub line: u32,
    pub from: usize,
    pub to: usize,
}

impl Spot {
    /// The whole line.
    pub fn line(line: u32) -> Spot
        ensures { result ≡ record { line = line; from = 0; to = 0 } }
    {
        Spot {
            line,
            from: 0,
            to: 0,
        }
    }
}
