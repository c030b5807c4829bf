//! What follows from the definition of what came: the law is a function whose contract states it.
ghost use Rattle.log_protocol.specs.Laws.{ShortestIsFirst};

/// Of what came, the one that is told as the shortest is the first of the shortest.
pub fn shortest_is_first()
    ensures { ShortestIsFirst }
{}
