//! The report's bytes, written to a sink without memory.
#![tactic(auto)]

mod report;
mod stream;
mod totals;

pub use log_records::ReportLine;
pub use report::{write_report, write_totals};
pub use stream::write_all;
