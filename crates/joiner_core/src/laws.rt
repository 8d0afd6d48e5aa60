//! Worked turns.
ghost use Rattle.joiner_core.specs.Rows.{WorkedTurns};

/// What each row of a joiner's turns says, on one click and its query.
pub fn worked_turns()
    ensures { WorkedTurns }
{}
