// What the system knows a file by.
use std::fs::Metadata;
use std::os::unix::fs::MetadataExt;

/// A file or a directory as the system knows it, whatever its names are.
#[derive(Clone, Copy, Debug, PartialEq, Eq)]
pub(crate) struct Node {
    device: u64,
    number: u64,
}

impl Node {
    pub(crate) fn of(found: &Metadata) -> Node {
        Node {
            device: found.dev(),
            number: found.ino(),
        }
    }
}
