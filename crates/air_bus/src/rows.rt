//! Worked rows of the definitions.
ghost use Rattle.air_bus.specs.Rows.{CopiesAreTaken, PacketsWait, TurnsBegin};

/// Which copy is next, and what is left.
pub fn copies()
    ensures { CopiesAreTaken }
{}

/// What waits for some nodes.
pub fn packets()
    ensures { PacketsWait }
{}

/// What some turns begin with.
pub fn turns()
    ensures { TurnsBegin }
{}
