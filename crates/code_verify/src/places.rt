// Where the routines are.

ghost use Rattle.std.specs.Prelude.{◌≡◌, ℕ, slice_index, ◌<◌, ◌≤◌, ◌^◌, ◌+◌, length, IsTrue};
ghost use Rattle.vap_code.specs.Valid.{end_above as end_of, starts_upto as upto, routine_of as routine_at, begins as begins_at, has_next as next_there};

// The end of the routine in which a place lies.
fn end_above(starts: &[u16], all: usize, p: usize) -> usize
    requires { (k : ℕ) → k < length starts.now → slice_index starts.now k < all }
    ensures exact { result ≡ end_of starts.now all p }
    ensures within { result ≤ all }
{
    for start in starts {
        if p < *start as usize {
            return *start as usize;
        }
    }
    all
}

// How many routines begin up to a place.
fn starts_upto(starts: &[u16], p: usize) -> usize
    ensures { result ≡ upto starts.now p }
{
    let mut count = 0;
    for start in starts {
        if p >= *start as usize {
            count += 1;
        }
    }
    count
}

/// The routine in which a place lies.
pub fn routine_of(starts: &[u16], p: usize) -> usize
    ensures { result ≡ routine_at starts.now p }
{
    starts_upto(starts, p).saturating_sub(1)
}

/// Whether a routine begins at a place.
pub fn begins(starts: &[u16], p: usize) -> bool
    ensures { result ≡ begins_at starts.now p }
{
    for start in starts {
        if *start as usize == p {
            return true;
        }
    }
    false
}

/// Whether the next place lies in the same routine.
pub fn has_next(starts: &[u16], all: usize, p: usize) -> bool
    requires place { p < all }
    requires starts { (k : ℕ) → k < length starts.now → slice_index starts.now k < all }
    ensures exact { result ≡ next_there starts.now all p }
    ensures inside { IsTrue result → p + 1 < all }
{
    p + 1 < end_above(starts, all, p)
}
