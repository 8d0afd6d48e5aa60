//! Worked rows of the definitions.
ghost use Rattle.lossy_link.specs.Rows.{PlansAreRead, FatesAreDecided};

/// Which plans some texts are.
pub fn plans()
    ensures { PlansAreRead }
{}

/// What some rules do to packets.
pub fn fates()
    ensures { FatesAreDecided }
{}
