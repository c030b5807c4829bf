// Laws of the commands of passes, over the definitions alone.
ghost use Rattle.trace_told.specs.EndLaws.{CommandsAreSeen, EndingsAreOrders};

/// The commands of a pass that is done are those that its sights give.
pub fn commands_are_seen()
    ensures { CommandsAreSeen }
{}

/// The only order of a second is that of the command that ends a stage in it.
pub fn endings_are_orders()
    ensures { EndingsAreOrders }
{}
