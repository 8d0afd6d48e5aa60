// Who has a directory.
use std::alloc::{AllocError, Global};
use std::fs::{Metadata, read_to_string};
use std::os::unix::fs::MetadataExt;

/// Who holds the lock of this directory, by the system's list of locks.
pub fn holder(rt: &HostRuntime, alloc: Global, found: &Metadata) -> Result<String, AllocError> {
    let locks = match read_to_string(rt, "/proc/locks") {
        Ok(locks) => locks,
        Err(_) => String::new(alloc),
    };
    let end = format!(in alloc; ":{}", found.ino())?;
    for line in locks.lines() {
        if let Some(process) = process_of(line, end.as_str()) {
            return format!(in alloc; "process {process} has it");
        }
    }
    String::from_str(alloc, "another process has it")
}

/// The process of a line, as `1: FLOCK ADVISORY WRITE 4711 08:01:3932 0 EOF`, that locks a file of this number.
fn process_of(line: &str, end: &str) -> Option<u32> {
    let mut words = line.split_whitespace();
    let _ = words.next()?;
    let kind = words.next()?;
    let _ = words.next()?;
    let _ = words.next()?;
    let process = words.next()?;
    let file = words.next()?;
    if kind != "FLOCK" || !file.ends_with(end) {
        return None;
    }
    match process.parse::<u32>() {
        Ok(process) if process > 0 => Some(process),
        _ => None,
    }
}
