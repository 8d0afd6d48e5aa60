//! Worked turns.
ghost use Rattle.dispatch_core.specs.Rows.{WorkedTurns};

/// What each row of a dispatcher's turns says, on a log of one click.
pub fn worked_turns()
    ensures { WorkedTurns }
{}
