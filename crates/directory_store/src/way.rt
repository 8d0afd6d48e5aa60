// What a state directory is taken for.

/// What a state directory is taken for. It is locked in each way.
#[derive(Clone, Copy, Debug, PartialEq, Eq)]
pub enum Way {
    /// To run over it: the directory is made where it is missing, and so are the files of one that hasn't begun.
    Run,
    /// To change what it keeps: nothing is made. A file that a directory which hasn't begun lacks is an empty disk.
    Change,
    /// To look at it: as `Change`, and nothing is written. Others may look at the same time. Where the system gives no
    /// lock at all it goes without.
    Look,
}
