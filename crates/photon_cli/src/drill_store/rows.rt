//! Worked rows of the definitions.
ghost use Rattle.photon_cli.specs.Rows.{DisksArePlaced, NodesAreSpared, StopsArePlanned};

/// Which numbers disks have among those of their kind.
pub fn places()
    ensures { DisksArePlaced }
{}

/// Which calls of a disk some stops name.
pub fn stops()
    ensures { StopsArePlanned }
{}

/// Which stops spare a node.
pub fn spared()
    ensures { NodesAreSpared }
{}
