// Lines and totals in bytes.
ghost use Rattle.std.specs.Prelude.{◌≡◌, ◌++◌, OnOk, OnErr, IsErr, IsTrue, [], ◌∷◌};
ghost use Rattle.std.specs.List.{flat_map};
ghost use Rattle.event_id.specs.EventId.{spell};
ghost use Rattle.log_records.specs.Log.{line_feed};
ghost use Rattle.log_records.specs.Report.{line_text, text_of, totals};
ghost use Rattle.log_records.specs.declared.report.ReportLine.TheVariants.{J};
ghost use Rattle.outside.specs.Faults.{Counts};
ghost use Rattle.report_text.specs.Stream.{Passed, TookPrefix};

use crate::stream::{Buffer, flush, put_all};
use crate::totals::Totals;
use event_id::{EventId, MAX_TEXT};
use log_records::{ClickRec, QueryRec, ReportLine};
use outside::{Sink, WriteFault};

/// Writes each line, and then the totals line. At a fault a prefix of the bytes went out.
///
/// It takes no memory, counts in one pass, and calls the sink about once for each 8 KiB.
pub fn write_report<K: Sink>(sink: &mut K, lines: &[ReportLine]) -> Result<(), WriteFault>
    ensures all { IsTrue K.tells → OnOk result (K.held sink.new ≡ K.held sink.old ++ text_of lines.now) }
    ensures prefix { IsTrue K.tells → OnErr result (TookPrefix (K.held sink.old) (text_of lines.now) (K.held sink.new)) }
    ensures count { Counts (K.faults sink.old) (K.faults sink.new) (IsErr result) }
{
    let mut buffer = Buffer::new();
    put_lines(sink, &mut buffer, lines)?;
    put_totals(sink, &mut buffer, lines)?;
    flush(sink, &mut buffer)
}

/// Writes the totals line of these lines alone. At a fault a prefix of the bytes went out.
///
/// It takes no memory, counts in one pass, and calls the sink once, and once more for each short write.
pub fn write_totals<K: Sink>(sink: &mut K, lines: &[ReportLine]) -> Result<(), WriteFault>
    ensures all { IsTrue K.tells → OnOk result (K.held sink.new ≡ K.held sink.old ++ totals lines.now) }
    ensures prefix { IsTrue K.tells → OnErr result (TookPrefix (K.held sink.old) (totals lines.now) (K.held sink.new)) }
    ensures count { Counts (K.faults sink.old) (K.faults sink.new) (IsErr result) }
{
    let mut buffer = Buffer::new();
    put_totals(sink, &mut buffer, lines)?;
    flush(sink, &mut buffer)
}

fn put_lines<K: Sink>(
    sink: &mut K,
    buffer: &mut Buffer,
    lines: &[ReportLine],
) -> Result<(), WriteFault>
    ensures passed { IsTrue K.tells → OnOk result (Passed (K.held sink.old) (buffer.old.items ++ flat_map line_text lines.now) (K.held sink.new) buffer.new.items) }
    ensures prefix { IsTrue K.tells → OnErr result (TookPrefix (K.held sink.old) (buffer.old.items ++ flat_map line_text lines.now) (K.held sink.new)) }
    ensures count { Counts (K.faults sink.old) (K.faults sink.new) (IsErr result) }
{
    for line in lines {
        put_line(sink, buffer, line)?;
    }
    Ok(())
}

fn put_line<K: Sink>(sink: &mut K, buffer: &mut Buffer, line: &ReportLine) -> Result<(), WriteFault>
    ensures passed { IsTrue K.tells → OnOk result (Passed (K.held sink.old) (buffer.old.items ++ line_text line.now) (K.held sink.new) buffer.new.items) }
    ensures prefix { IsTrue K.tells → OnErr result (TookPrefix (K.held sink.old) (buffer.old.items ++ line_text line.now) (K.held sink.new)) }
    ensures count { Counts (K.faults sink.old) (K.faults sink.new) (IsErr result) }
{
    match line {
        ReportLine::J { click, query } => put_joined(sink, buffer, click, query),
        ReportLine::M(id) => put_short(sink, buffer, b"M ", *id),
        ReportLine::X(id) => put_short(sink, buffer, b"X ", *id),
        ReportLine::U(id) => put_short(sink, buffer, b"U ", *id),
    }
}

fn put_joined<K: Sink>(
    sink: &mut K,
    buffer: &mut Buffer,
    click: &ClickRec,
    query: &QueryRec,
) -> Result<(), WriteFault>
    ensures passed { IsTrue K.tells → OnOk result (Passed (K.held sink.old) (buffer.old.items ++ line_text (J click.now query.now)) (K.held sink.new) buffer.new.items) }
    ensures prefix { IsTrue K.tells → OnErr result (TookPrefix (K.held sink.old) (buffer.old.items ++ line_text (J click.now query.now)) (K.held sink.new)) }
    ensures count { Counts (K.faults sink.old) (K.faults sink.new) (IsErr result) }
{
    let mut id = [0; MAX_TEXT];
    let id_len = click.id.text_into(&mut id);
    let mut query_id = [0; MAX_TEXT];
    let query_id_len = click.query.text_into(&mut query_id);
    let parts = [
        b"J ".as_slice(),
        &id[..id_len],
        b" ",
        &query_id[..query_id_len],
        b" ",
        click.text.as_bytes(),
        b"\t",
        query.text.as_bytes(),
        b"\n",
    ];
    put_all(sink, buffer, &parts)
}

fn put_short<K: Sink>(
    sink: &mut K,
    buffer: &mut Buffer,
    letter: &[u8],
    id: EventId,
) -> Result<(), WriteFault>
    ensures passed { IsTrue K.tells → OnOk result (Passed (K.held sink.old) (buffer.old.items ++ (letter.now ++ spell id ++ line_feed ∷ [])) (K.held sink.new) buffer.new.items) }
    ensures prefix { IsTrue K.tells → OnErr result (TookPrefix (K.held sink.old) (buffer.old.items ++ (letter.now ++ spell id ++ line_feed ∷ [])) (K.held sink.new)) }
    ensures count { Counts (K.faults sink.old) (K.faults sink.new) (IsErr result) }
{
    let mut text = [0; MAX_TEXT];
    let len = id.text_into(&mut text);
    put_all(sink, buffer, &[letter, &text[..len], b"\n"])
}

fn put_totals<K: Sink>(
    sink: &mut K,
    buffer: &mut Buffer,
    lines: &[ReportLine],
) -> Result<(), WriteFault>
    ensures passed { IsTrue K.tells → OnOk result (Passed (K.held sink.old) (buffer.old.items ++ totals lines.now) (K.held sink.new) buffer.new.items) }
    ensures prefix { IsTrue K.tells → OnErr result (TookPrefix (K.held sink.old) (buffer.old.items ++ totals lines.now) (K.held sink.new)) }
    ensures count { Counts (K.faults sink.old) (K.faults sink.new) (IsErr result) }
{
    let totals = Totals::of(lines);
    let (mut joined, mut missing) = (itoa::Buffer::new(), itoa::Buffer::new());
    let (mut expired, mut unmatched) = (itoa::Buffer::new(), itoa::Buffer::new());
    let parts = [
        b"= ".as_slice(),
        joined.format(totals.joined).as_bytes(),
        b" ",
        missing.format(totals.missing).as_bytes(),
        b" ",
        expired.format(totals.expired).as_bytes(),
        b" ",
        unmatched.format(totals.unmatched).as_bytes(),
        b"\n",
    ];
    put_all(sink, buffer, &parts)
}
