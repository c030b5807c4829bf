//! How soon a run shows the stage to which its passes steer.
//!
//! `specs/Ways` says what a way over a plan's interstages is and which passes take it, and `specs/StagesShown` when the stage at its end is
//! the run's place, and when its groups show it. Each function states a law by its contract.
ghost use Rattle.laws.specs.SteeringPrograms.{ProgramsSteer, ProgramsShowTheirStage};
ghost use Rattle.laws.specs.StagesShown.{StageIsReached, StageIsShown};

/// A run whose passes steer to a stage reaches it in time and stays in it, whatever decides the passes.
pub fn steered_runs_reach_their_stage()
    ensures { StageIsReached }
{}

/// And its groups show that stage in time, and go on showing it.
pub fn steered_runs_show_their_stage()
    ensures { StageIsShown }
{}

/// A program that has a line for each stage on the way steers to the stage at its end from its first second on, and its groups show
/// that stage in time.
pub fn programs_steer()
    ensures steers { ProgramsSteer }
    ensures shows { ProgramsShowTheirStage }
{}
