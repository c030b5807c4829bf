// The wish of a group in an interstage.
ghost use Rattle.std.specs.Prelude.{◌≡◌, ◌≤ℤ◌, ◌<◌, ◌^◌, ◌≤◌, Option, pos};
ghost use Rattle.pua_model.specs.Wish.{wished_by, is_green_at, leads};

/// Whether a group with this row, a red end and a green end in seconds of the interstage, is wished green in second
/// `t`. Without a row it stays as it was `before`, in the from-stage.
pub fn wished(row: Option<(i8, i8)>, t: i16, before: bool) -> bool
    ensures { result ≡ wished_by row t before }
{
    match row {
        None => before,
        Some((red_end, green_end)) => is_green(i16::from(red_end), i16::from(green_end), t),
    }
}

/// Whether a group with this row is wished green in second `t`.
pub(crate) fn is_green_in(row: (i8, i8), t: u8) -> bool
    ensures { result ≡ is_green_at row.0 row.1 (pos t) }
{
    is_green(i16::from(row.0), i16::from(row.1), i16::from(t))
}

// Green from the red end up to the green end, or, where the green end comes first, before it and from the red end on: each
// end that is reached turns the wish, which begins green where the green end comes first.
fn is_green(red_end: i16, green_end: i16, t: i16) -> bool
    ensures { result ≡ is_green_at red_end green_end t }
{
    (green_end < red_end) ^ (red_end <= t) ^ (green_end <= t)
}

/// Whether a group's row leads from its place in the one stage (`from`: is it green there?) to that in the other (`to`)
/// in an interstage of `length` seconds: at second -1 the wish is that of the first, at second `length` that of the other.
pub fn leads(row: Option<(i8, i8)>, from: bool, to: bool, length: u8) -> bool
    ensures { result ≡ leads row from to length }
{
    wished(row, -1, from) == from && wished(row, i16::from(length), from) == to
}
