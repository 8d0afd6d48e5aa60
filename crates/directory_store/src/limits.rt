// How long a file may get.
use crate::doubt::END;
use std::fs::{File, Files};
use std::io;
use std::os::unix::fs::FileExt;

/// The line of the system's limits that says how long a file may get.
const LIMIT: &str = "Max file size";

/// How many bytes of the limits are read; there are some 1,300.
const LIMITS: usize = 4096;

/// Where a write of this process may end at most. Past the system's limit a write wouldn't fail: a signal would end the process.
/// Where there is no limit, or none is told, it is 2^63.
pub(crate) fn file_limit<R: Files<File = File>>(rt: &R) -> u64 {
    let mut bytes = [0; LIMITS];
    let read = match read_limits(rt, &mut bytes) {
        Ok(n) => n,
        Err(_) => return END,
    };
    limit_of(&bytes[..read.min(LIMITS)])
}

fn read_limits<R: Files<File = File>>(rt: &R, bytes: &mut [u8]) -> io::Result<usize> {
    File::open(rt, "/proc/self/limits")?.read_at(bytes, 0)
}

/// The soft limit, in bytes.
fn limit_of(limits: &[u8]) -> u64 {
    let Ok(text) = str::from_utf8(limits) else {
        return END;
    };
    let Some((_, rest)) = text.split_once(LIMIT) else {
        return END;
    };
    match rest.trim_start().split_once(' ') {
        Some((soft, _)) => soft.parse::<u64>().unwrap_or(END),
        None => END,
    }
}
