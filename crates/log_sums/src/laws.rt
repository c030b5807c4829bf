//! What follows from the definitions of sums: a law is a function whose contract states it.
ghost use Rattle.std.specs.Prelude.{ℕ, List};
ghost use Rattle.sig_types.specs.declared.record.Record.{Record};
ghost use Rattle.log_sums.specs.declared.sums.LogSums.{LogSums};
ghost use Rattle.log_sums.specs.Adding.{AddsUpTo};
ghost use Rattle.log_sums.specs.Summed.{AreSumsOf};

/// What stands for some records of a log, whatever follows them, is what they add up to where nothing does.
pub fn sums_are_of_records()
    ensures { (groups from to : ℕ) (records : List Record) (x : LogSums) → AddsUpTo groups from to records x →
        AreSumsOf groups from to records x }
{}
