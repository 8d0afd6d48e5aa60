//! Worked rows; how a node's own entries lead to its state, and how those of all nodes make a run.
ghost use Rattle.photon_model.specs.Local.{LocalIsOwn};
ghost use Rattle.photon_model.specs.Own.{ApartIsRun};
ghost use Rattle.photon_model.specs.Rows.{StoreRows};
ghost use Rattle.photon_model.specs.Wanting.{OwnIsWanted};

/// What the definitions compute on one click.
pub fn worked_rows()
    ensures { StoreRows }
{}

/// A node's state in the world is the one that its own entries lead to.
pub fn local_states()
    ensures { LocalIsOwn }
{}

/// Where each node's own entries are turns of its own states, what is delivered was sent, and each entry is of a node of
/// the setting, the history is a run.
pub fn runs_apart()
    ensures { ApartIsRun }
{}

/// A node that wants nothing does nothing by itself.
pub fn own_is_wanted()
    ensures { OwnIsWanted }
{}
