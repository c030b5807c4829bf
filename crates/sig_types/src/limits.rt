// The most that a program and its code may have of each thing.

/// The most instructions of a code.
pub const MOST_INSTRS: u16 = 65_535;

/// The most routines of a code, the main one among them.
pub const MOST_ROUTINES: u16 = 65;

/// The most subroutines of a program.
pub const MOST_SUBROUTINES: u16 = 64;

/// The most variables of a program.
pub const MOST_VARIABLES: u16 = 256;

/// The most timers of a program.
pub const MOST_TIMERS: u16 = 64;

/// The most arrays of a program.
pub const MOST_ARRAYS: u16 = 32;

/// The most cells of one array.
pub const MOST_ARRAY_CELLS: u16 = 1024;

/// The most cells of all arrays together.
pub const MOST_CELLS: u16 = 4096;

/// The most labels of a program.
pub const MOST_LABELS: u16 = 4096;

/// The last line that a program can have.
pub const LAST_LINE: u32 = 1_048_577;
