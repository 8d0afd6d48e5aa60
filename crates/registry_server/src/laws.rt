//! Worked turns.
ghost use Rattle.registry_server.specs.Rows.{WorkedTurns};

/// What each row of a server's turns says, on one insert.
pub fn worked_turns()
    ensures { WorkedTurns }
{}
