// How many watchers look on.
ghost use Rattle.std.specs.Prelude.{◌≤◌};

/// How many watchers look on: none, or at most 8.
#[derive(Clone, Copy)]
pub(crate) struct WatcherCount {
    pub(crate) count: u8,
    ghost few: { count ≤ 8 },
}
