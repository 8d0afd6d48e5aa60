// Texts, and the records of lines.
ghost use Rattle.std.specs.Prelude.{◌≡◌, ◌+◌, ◌≤◌, ◌++◌, length, take};
ghost use Rattle.event_id.specs.EventId.{packed};
ghost use Rattle.log_records.specs.Text.{IsText};
ghost use Rattle.log_records.specs.Line.{IsQuery, IsClick};
ghost use Rattle.turn_defs.specs.Spellings.{text, query, click};

use crate::fields::Stop;
use crate::fields::field::Field;
use crate::fields::parts::{run, write};
use crate::fields::several::{read_tag, read_three, read_two};
use event_id::EventId;
use log_records::{ClickRec, MAX_TEXT, QueryRec, Text};
use std::alloc::AllocError;
use wire_core::{Bytes, Origin};

// The longest spelling, a click's.
const LONGEST: usize = 33 + MAX_TEXT;

/// The length in a byte, up to `MAX_TEXT`, and so many printable bytes. What is read is a part of the origin's
/// shared bytes, and a copy where it has none.
#[tactic(auto, using(crate::proofs::Counts::text_apart, crate::proofs::Counts::some_text))]
impl Field for Text {
    ghost spelled = { text };

    ghost has_spelling = { IsText };

    fn put(&self, to: &mut Bytes) -> Result<(), AllocError> {
        let mut bytes = [0; LONGEST];
        let end = write_text(self, &mut bytes, 0);
        to.put_bytes(&bytes[..end])
    }

    fn read<'a>(origin: Origin, bytes: &'a [u8]) -> Result<(Text, &'a [u8]), Stop> {
        let (len, rest) = read_tag(bytes, 0, MAX_TEXT as u8)?;
        let (spelled, rest) = run(rest, usize::from(len), b' ', b'~')?;
        let text = Text::of_bytes(origin, spelled, rest.len())?;
        Ok((text, rest))
    }

    fn told_apart() {}

    fn some_value() {}
}

/// The id and the text.
#[tactic(auto, using(crate::proofs::Made::query_bad, crate::proofs::Made::query_apart, crate::proofs::Made::some_query))]
impl Field for QueryRec {
    ghost spelled = { query };

    ghost has_spelling = { IsQuery };

    fn put(&self, to: &mut Bytes) -> Result<(), AllocError> {
        let mut bytes = [0; LONGEST];
        let at = write(&mut bytes, 0, &self.id.to_bytes());
        let end = write_text(&self.text, &mut bytes, at);
        to.put_bytes(&bytes[..end])
    }

    fn read<'a>(origin: Origin, bytes: &'a [u8]) -> Result<(QueryRec, &'a [u8]), Stop> {
        let (id, text, rest) = read_two::<EventId, Text>(origin, bytes)?;
        Ok((QueryRec { id, text }, rest))
    }

    fn told_apart() {}

    fn some_value() {}
}

/// The click's id, its query's, and the text.
#[tactic(auto, using(crate::proofs::Made::click_bad, crate::proofs::Made::click_apart, crate::proofs::Made::some_click))]
impl Field for ClickRec {
    ghost spelled = { click };

    ghost has_spelling = { IsClick };

    fn put(&self, to: &mut Bytes) -> Result<(), AllocError> {
        let mut bytes = [0; LONGEST];
        let at = write_ids(self.id, self.query, &mut bytes);
        let end = write_text(&self.text, &mut bytes, at);
        to.put_bytes(&bytes[..end])
    }

    fn read<'a>(origin: Origin, bytes: &'a [u8]) -> Result<(ClickRec, &'a [u8]), Stop> {
        let (id, query, text, rest) = read_three::<EventId, EventId, Text>(origin, bytes)?;
        Ok((ClickRec { id, query, text }, rest))
    }

    fn told_apart() {}

    fn some_value() {}
}

// Writes the spelling from `at` on, and answers the place behind it.
fn write_text(t: &Text, buf: &mut [u8], at: usize) -> usize
    requires is_text { IsText t.now }
    requires room { at + length (text t.now) ≤ length buf.old }
    ensures end { result ≡ at + length (text t.now) }
    ensures text { take result buf.new ≡ take at buf.old ++ text t.now }
{
    let bytes = t.as_bytes();
    let at = write(buf, at, &[bytes.len() as u8]);
    write(buf, at, bytes)
}

fn write_ids(id: EventId, of: EventId, buf: &mut [u8; LONGEST]) -> usize
    ensures end { result ≡ 32 }
    ensures text { take 32 buf.new ≡ packed id ++ packed of }
{
    let at = write(buf, 0, &id.to_bytes());
    write(buf, at, &of.to_bytes())
}
