// A detector, and when it is covered.
use crate::Span;

/// A detector up to some second.
#[derive(Drop)]
pub struct Cover {
    /// The fronts so far.
    pub fronts: u64,
    /// The rears so far.
    pub rears: u64,
    /// The spans of seconds, `true` where the detector is covered.
    pub spans: Vec<Span<bool>>,
}
