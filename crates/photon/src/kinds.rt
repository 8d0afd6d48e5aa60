// What stands under a name.
use std::fs::Metadata;
use std::os::unix::fs::{FileTypeExt, MetadataExt};

/// The device of /dev/null, which reads as an empty file.
const NULL: u64 = 0x103;

/// Why this can't be read as a file, if it can't. A pipe has no places, and may never answer.
pub fn no_file(found: &Metadata) -> Option<&'static str> {
    let kind = found.file_type();
    if kind.is_file() {
        return None;
    }
    if kind.is_dir() {
        return Some("it is a directory");
    }
    if kind.is_symlink() {
        return Some("it is a link");
    }
    if kind.is_fifo() {
        return Some("it is a pipe");
    }
    if kind.is_socket() {
        return Some("it is a socket");
    }
    Some("it is a device")
}

/// The same of a log, which may also be /dev/null.
pub fn no_log(found: &Metadata) -> Option<&'static str> {
    if found.file_type().is_char_device() && found.rdev() == NULL {
        return None;
    }
    no_file(found)
}
