//! The law.
ghost use Rattle.laws.specs.TracesStand.{TracesStandThere};

/// The statements of a program's code that are counted as `TRACE` statements are those that stand where its `TRACE` statements
/// are laid out, in their order and with their lines.
pub fn traces_stand_there()
    ensures { TracesStandThere }
{}
