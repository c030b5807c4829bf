// What the programs read at most.

/// The bytes that a program's source, a PUA file or a table may have.
pub const TEXT_LIMIT: usize = 1_048_576;
