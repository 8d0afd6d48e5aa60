// Lines, written.
ghost use Rattle.std.specs.Prelude.{◌≡◌, ◌+◌, ◌<◌, ◌≤◌, ◌++◌, [], ◌∷◌, length, take, IfOk};
ghost use Rattle.event_id.specs.EventId.{spell, IsId};
ghost use Rattle.log_records.specs.Line.{query_line, click_line, IsQuery, IsClick, space};

use crate::lines::MAX_LINE;
use crate::{ClickRec, QueryRec};
use event_id::{EventId, MAX_TEXT};
use std::alloc::{AllocError, Global};
use wire_core::Bytes;

/// The record's line in a query log, without its line feed. Made in one allocation of its length.
pub fn query_line(alloc: Global, rec: &QueryRec) -> Result<Bytes, AllocError>
    requires { IsQuery rec.now }
    ensures { IfOk result (λ line. line ≡ query_line rec.now) }
{
    let mut line = [0; MAX_LINE];
    let at = put_id(&mut line, 0, rec.id);
    let end = put(&mut line, at, rec.text.as_bytes());
    Bytes::from_slice(alloc, &line[..end])
}

/// The record's line in a click log, without its line feed. Made in one allocation of its length.
pub fn click_line(alloc: Global, rec: &ClickRec) -> Result<Bytes, AllocError>
    requires { IsClick rec.now }
    ensures { IfOk result (λ line. line ≡ click_line rec.now) }
{
    let mut line = [0; MAX_LINE];
    let at = put_id(&mut line, 0, rec.id);
    let at = put_id(&mut line, at, rec.query);
    let end = put(&mut line, at, rec.text.as_bytes());
    Bytes::from_slice(alloc, &line[..end])
}

// Writes the id's text from `at` on, and a space. Answers the place behind them.
fn put_id(line: &mut [u8], at: usize, id: EventId) -> usize
    requires { at + length (spell id) < length line.old }
    ensures end { result ≡ at + length (spell id) + 1 }
    ensures text { take result line.new ≡ take at line.old ++ (spell id ++ space ∷ []) }
{
    let mut text = [0; MAX_TEXT];
    let len = id.text_into(&mut text);
    let end = put(line, at, &text[..len]);
    line[end] = b' ';
    end + 1
}

// Writes the bytes from `at` on, and answers the place behind them.
fn put(line: &mut [u8], at: usize, bytes: &[u8]) -> usize
    requires { at + length bytes.now ≤ length line.old }
    ensures end { result ≡ at + length bytes.now }
    ensures text { take result line.new ≡ take at line.old ++ bytes.now }
{
    let end = at + bytes.len();
    line[at..end].copy_from_slice(bytes);
    end
}
