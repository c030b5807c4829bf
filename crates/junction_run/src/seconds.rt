// How many seconds a sample makes.
ghost use Rattle.std.specs.Prelude.{◌≤◌};

/// How many seconds a sample makes: at most 604,800.
#[derive(Clone, Copy)]
pub(crate) struct SampleSeconds {
    pub(crate) count: u32,
    ghost few: { count ≤ 604800 },
}
