// The two tables of a site.

/// Which table it is.
#[derive(Clone, Copy, PartialEq, Eq)]
pub enum Table {
    Times,
    Intergreens,
}
