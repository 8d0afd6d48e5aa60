//! Worked turns.
ghost use Rattle.replica_node.specs.Rows.{WorkedTurns};

/// What each row of a replica's turns says, in one place.
pub fn worked_turns()
    ensures { WorkedTurns }
{}
