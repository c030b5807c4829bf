//! What `junction_check` finds in files, and what `run` loads.
ghost use Rattle.laws.specs.CheckAndRun.{CheckedIsLoaded};

/// Files in which `junction_check` finds no refusal are loaded by `run`, and no line of the detector file is refused.
pub fn checked_files_are_loaded()
    ensures { CheckedIsLoaded }
{}
