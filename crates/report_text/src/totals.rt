// How many lines there are of each kind.
ghost use Rattle.std.specs.Prelude.{◌≡◌, ◌<◌, ◌^◌};

use log_records::ReportLine;

#[derive(Clone, Copy, Debug, PartialEq, Eq, Default)]
pub struct Totals {
    pub joined: usize,
    pub missing: usize,
    pub expired: usize,
    pub unmatched: usize,
}

impl Totals {
    ghost use Rattle.report_text.specs.Totals.{totals_of};

    /// Counts the lines, in one pass.
    pub fn of(lines: &[ReportLine]) -> Totals
        ensures { result ≡ totals_of lines.now }
    {
        let mut totals = Totals::default();
        for line in lines {
            match line {
                ReportLine::J { .. } => totals.joined += 1,
                ReportLine::M(_) => totals.missing += 1,
                ReportLine::X(_) => totals.expired += 1,
                ReportLine::U(_) => totals.unmatched += 1,
            }
        }
        totals
    }
}
