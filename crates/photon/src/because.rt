// Why a run ended as it did: one line behind that of the program, by another look at the file that its text names.
use crate::kinds::{no_file, no_log};
use crate::lines::line_reason;
use crate::locks::holder;
use crate::words::{value_of, way_of};
use directory_store::Way;
use std::alloc::{AllocError, Global};
use std::fs::{File, OpenOptions, metadata, symlink_metadata};
use std::io;
use std::io::ErrorKind;
use std::path::Path;

/// What is the matter, and of which file.
#[derive(Drop)]
pub struct Reason {
    pub path: String,
    pub why: String,
}

fn make_reason(alloc: Global, path: &str, why: &str) -> Result<Option<Reason>, AllocError> {
    Ok(Some(Reason {
        path: String::from_str(alloc, path)?,
        why: String::from_str(alloc, why)?,
    }))
}

fn some_reason(alloc: Global, path: &str, why: Option<&str>) -> Result<Option<Reason>, AllocError> {
    match why {
        Some(why) => make_reason(alloc, path, why),
        None => Ok(None),
    }
}

/// The reason behind a text that the program has told, if another look tells one.
pub fn because(
    rt: &HostRuntime,
    alloc: Global,
    words: &[String],
    said: &str,
) -> Result<Option<Reason>, AllocError> {
    let Some(told) = said.trim_end().strip_prefix("photon: ") else {
        return Ok(None);
    };
    match told.split_once(": ") {
        Some(("store", "directory")) => of_directory(rt, alloc, words),
        Some(("store", disk)) if !disk.starts_with("node ") => of_disk(rt, alloc, words, disk),
        Some(("read", "queries")) => of_log(rt, alloc, value_of(words, "--queries")),
        Some(("read", "clicks")) => of_log(rt, alloc, value_of(words, "--clicks")),
        Some(("read", "plan")) => of_log(rt, alloc, value_of(words, "--plan")),
        Some((place, _)) => of_line(rt, alloc, words, place),
        None => Ok(None),
    }
}

fn of_directory(
    rt: &HostRuntime,
    alloc: Global,
    words: &[String],
) -> Result<Option<Reason>, AllocError> {
    let Some(path) = value_of(words, "--state") else {
        return Ok(None);
    };
    let found = match metadata(rt, path) {
        Ok(found) => found,
        Err(failure) => {
            let why = no_directory(rt, path, failure.kind(), way_of(words));
            return some_reason(alloc, path, why);
        }
    };
    if !found.is_dir() {
        return make_reason(alloc, path, "it isn't a directory");
    }
    match File::open(rt, path) {
        Ok(dir) if dir.try_lock().is_err() => Ok(Some(Reason {
            path: String::from_str(alloc, path)?,
            why: holder(rt, alloc, &found)?,
        })),
        Ok(_) => some_reason(alloc, path, unread_above(rt, path)),
        Err(failure) => some_reason(alloc, path, not_permitted(failure.kind())),
    }
}

/// Why there is no directory.
fn no_directory(rt: &HostRuntime, path: &str, kind: ErrorKind, way: Way) -> Option<&'static str> {
    match kind {
        ErrorKind::NotFound if symlink_metadata(rt, path).is_ok() => {
            Some("it is a link that leads nowhere")
        }
        ErrorKind::NotFound => match metadata(rt, above(path)) {
            Err(failure) if failure.kind() == ErrorKind::NotFound => {
                Some("the directory above it isn't there")
            }
            _ if way == Way::Run => Some("it can't be made"),
            _ => Some("it isn't there"),
        },
        ErrorKind::NotADirectory => Some("the directory above it isn't one"),
        _ => not_permitted(kind),
    }
}

fn not_permitted(kind: ErrorKind) -> Option<&'static str> {
    match kind {
        ErrorKind::PermissionDenied => Some("it isn't permitted"),
        ErrorKind::ReadOnlyFilesystem => Some("its file system is read-only"),
        _ => None,
    }
}

fn unread_above(rt: &HostRuntime, path: &str) -> Option<&'static str> {
    match File::open(rt, above(path)) {
        Err(failure) if failure.kind() == ErrorKind::PermissionDenied => {
            Some("the directory above it isn't permitted")
        }
        _ => None,
    }
}

/// The directory in which this path has its name.
fn above(path: &str) -> &str {
    match Path::new(path).parent() {
        Some(parent) if !parent.as_str().is_empty() => parent.as_str(),
        Some(_) => ".",
        None => path,
    }
}

fn of_disk(
    rt: &HostRuntime,
    alloc: Global,
    words: &[String],
    disk: &str,
) -> Result<Option<Reason>, AllocError> {
    let Some(state) = value_of(words, "--state") else {
        return Ok(None);
    };
    let path = format!(in alloc; "{state}/{disk}")?;
    let why = match symlink_metadata(rt, path.as_str()) {
        Err(failure) if failure.kind() == ErrorKind::NotFound => Some("it is missing"),
        Err(failure) => not_permitted(failure.kind()),
        Ok(found) => match no_file(&found) {
            None => unopened(rt, path.as_str(), way_of(words) != Way::Look),
            why => why,
        },
    };
    some_reason(alloc, path.as_str(), why)
}

/// Why a file can't be opened, if it can't.
fn unopened(rt: &HostRuntime, path: &str, write: bool) -> Option<&'static str> {
    let mut how = OpenOptions::new();
    how.read(true).write(write);
    let opened: io::Result<File> = how.open(rt, path);
    match opened {
        Ok(_) => None,
        Err(failure) => not_permitted(failure.kind()),
    }
}

fn of_log(
    rt: &HostRuntime,
    alloc: Global,
    path: Option<&str>,
) -> Result<Option<Reason>, AllocError> {
    let Some(path) = path else {
        return Ok(None);
    };
    let why = match metadata(rt, path) {
        Err(failure) if failure.kind() == ErrorKind::NotFound => Some("it isn't there"),
        Err(failure) => not_permitted(failure.kind()),
        Ok(found) => match no_log(&found) {
            None => unopened(rt, path, false),
            why => why,
        },
    };
    some_reason(alloc, path, why)
}

/// Of a log's line, told as LOG:LINE.
fn of_line(
    rt: &HostRuntime,
    alloc: Global,
    words: &[String],
    place: &str,
) -> Result<Option<Reason>, AllocError> {
    let Some((log, number)) = place.split_once(':') else {
        return Ok(None);
    };
    let path = match log {
        "queries" => value_of(words, "--queries"),
        "clicks" => value_of(words, "--clicks"),
        _ => None,
    };
    let (Some(path), Ok(number)) = (path, number.parse::<u64>()) else {
        return Ok(None);
    };
    line_reason(rt, alloc, path, number, log == "clicks")
}
