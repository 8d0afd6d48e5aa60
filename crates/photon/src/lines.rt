// Why a line of a log is refused, in more words.
use crate::because::Reason;
use std::alloc::{AllocError, Global};
use std::fs::File;
use std::io;
use std::os::unix::fs::FileExt;

/// The limits of the logs.
const LONGEST_LINE: u64 = 296;

const LONGEST_TEXT: usize = 200;

const LONGEST_LOG: u64 = 1 << 40;

/// How much is read at once, and how many reads there may be.
const BLOCK: usize = 1 << 14;

const BLOCKS: u64 = LONGEST_LOG / BLOCK as u64 + 1;

/// How much of a line is kept.
const HELD: usize = 300;

/// What compressed files begin with.
const PACKED: [&[u8]; 4] = [b"\x1f\x8b", b"\xfd7zXZ", b"\x28\xb5\x2f\xfd", b"BZh"];

/// A line of a log: its number from 1, its first bytes and its length.
#[derive(Drop)]
struct Line {
    number: u64,
    head: Vec<u8>,
    len: u64,
}

impl Line {
    fn text(&self) -> &[u8] {
        self.head.as_slice()
    }

    fn add(&mut self, byte: u8) -> Result<(), AllocError> {
        if self.head.len() < HELD {
            self.head.push(byte)?;
        }
        self.len = self.len.saturating_add(1);
        Ok(())
    }

    fn next(&mut self) {
        self.number = self.number.saturating_add(1);
        self.head.clear();
        self.len = 0;
    }
}

/// What a log's line is looked for by.
#[derive(Clone, Copy)]
enum Wanted<'a> {
    Number(u64),
    Id(&'a [u8]),
}

impl Wanted<'_> {
    fn is(&self, line: &Line) -> bool {
        match self {
            Wanted::Number(number) => line.number == *number,
            Wanted::Id(id) => first_word(line.text()) == Some(*id),
        }
    }
}

/// What stands before the first space.
fn first_word(line: &[u8]) -> Option<&[u8]> {
    let at = line.iter().position(|byte| *byte == b' ')?;
    line.get(..at)
}

/// The first whole line that is wanted.
fn find_line(file: &File, alloc: Global, wanted: Wanted<'_>) -> io::Result<Option<Line>> {
    let mut line = Line {
        number: 1,
        head: Vec::new(alloc),
        len: 0,
    };
    let mut block = [0; BLOCK];
    let mut at = 0;
    for _ in 0..BLOCKS {
        let n = file.read_at(&mut block, at)?;
        if n == 0 {
            return Ok(None);
        }
        if take_bytes(&mut line, &block[..n.min(BLOCK)], wanted)? {
            return Ok(Some(line));
        }
        at = at.saturating_add(n as u64);
    }
    Ok(None)
}

/// Takes bytes of the log, up to the end of the line that is wanted; whether that was there.
fn take_bytes(line: &mut Line, bytes: &[u8], wanted: Wanted<'_>) -> Result<bool, AllocError> {
    for byte in bytes {
        if *byte != b'\n' {
            line.add(*byte)?;
        } else if wanted.is(line) {
            return Ok(true);
        } else {
            line.next();
        }
    }
    Ok(false)
}

/// Why the line of this number is refused.
pub fn line_reason(
    rt: &HostRuntime,
    alloc: Global,
    path: &str,
    number: u64,
    is_click: bool,
) -> Result<Option<Reason>, AllocError> {
    let file: File = match File::open(rt, path) {
        Ok(file) => file,
        Err(_) => return Ok(None),
    };
    if is_packed(&file) {
        return Ok(Some(Reason {
            path: String::from_str(alloc, path)?,
            why: String::from_str(alloc, "it is compressed")?,
        }));
    }
    let Ok(Some(line)) = find_line(&file, alloc, Wanted::Number(number)) else {
        return Ok(None);
    };
    match why(&file, alloc, &line, is_click)? {
        Some(why) => Ok(Some(Reason {
            path: format!(in alloc; "{path}:{number}")?,
            why,
        })),
        None => Ok(None),
    }
}

fn is_packed(file: &File) -> bool {
    let mut start = [0; 8];
    if file.read_at(&mut start, 0).is_err() {
        return false;
    }
    PACKED
        .iter()
        .any(|begin| start.as_slice().starts_with(begin))
}

fn why(
    file: &File,
    alloc: Global,
    line: &Line,
    is_click: bool,
) -> Result<Option<String>, AllocError> {
    if line.len > LONGEST_LINE {
        return text(alloc, "over 296 bytes");
    }
    let Some(id) = first_word(line.text()) else {
        return text(alloc, "no space");
    };
    let mut start = id.len().saturating_add(1);
    let mut of_query = None;
    if is_click {
        let rest = line.text().get(start..).unwrap_or(&[]);
        let Some(query) = first_word(rest) else {
            return text(alloc, "no second space");
        };
        of_query = Some(query);
        start = start.saturating_add(query.len()).saturating_add(1);
    }
    if !is_id(id) {
        return text(alloc, "no id before the first space");
    }
    match of_query {
        Some(query) if !is_id(query) => return text(alloc, "no id before the second space"),
        _ => {}
    }
    of_text(file, alloc, line, start)
}

fn text(alloc: Global, text: &str) -> Result<Option<String>, AllocError> {
    Ok(Some(String::from_str(alloc, text)?))
}

/// What is wrong with the text of a line, which starts there, or the earlier line with its id.
fn of_text(
    file: &File,
    alloc: Global,
    line: &Line,
    start: usize,
) -> Result<Option<String>, AllocError> {
    let rest = line.text().get(start..).unwrap_or(&[]);
    if rest.len() > LONGEST_TEXT {
        return text(alloc, "over 200 bytes of text");
    }
    if let Some(at) = rest.iter().position(|byte| !(0x20..=0x7e).contains(byte)) {
        let place = start.saturating_add(at).saturating_add(1);
        return match rest.get(at) {
            Some(byte) if *byte == b'\r' => {
                Ok(Some(format!(in alloc; "a carriage return at byte {place}")?))
            }
            Some(byte) => Ok(Some(format!(in alloc; "byte {byte:#04x} at byte {place}")?)),
            None => Ok(None),
        };
    }
    let id = first_word(line.text()).unwrap_or(&[]);
    match find_line(file, alloc, Wanted::Id(id)) {
        Ok(Some(earlier)) if earlier.number < line.number => {
            Ok(Some(format!(in alloc; "the id of line {}", earlier.number)?))
        }
        _ => Ok(None),
    }
}

/// Whether this is an id: `a.b.c.d:process:timestamp`.
fn is_id(word: &[u8]) -> bool {
    let Ok(word) = str::from_utf8(word) else {
        return false;
    };
    let Some((address, rest)) = word.split_once(':') else {
        return false;
    };
    let Some((process, time)) = rest.split_once(':') else {
        return false;
    };
    is_number(process, u64::from(u32::MAX)) && is_number(time, u64::MAX) && is_address(address)
}

fn is_address(text: &str) -> bool {
    let parts = text.split('.');
    let mut count = 0_u32;
    for part in parts {
        if !is_number(part, 255) {
            return false;
        }
        count = count.saturating_add(1);
    }
    count == 4
}

/// Whether this is a number up to the greatest, without a sign or leading zeros.
fn is_number(text: &str, most: u64) -> bool {
    let digits = text.as_bytes();
    if digits.iter().any(|digit| !digit.is_ascii_digit()) {
        return false;
    }
    if digits.len() > 1 && digits.first() == Some(&b'0') {
        return false;
    }
    match text.parse::<u64>() {
        Ok(number) => number <= most,
        Err(_) => false,
    }
}
