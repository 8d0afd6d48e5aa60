//! The lines of the two logs.
#![tactic(auto)]

mod check;
mod kind;
pub mod laws;
mod lines;
mod records;
pub mod report;
pub mod rows;
mod seen;
mod stream;
mod text;
mod why;
mod write;

pub use check::{BadLine, MAX_LOG, check_clicks, check_queries};
pub use kind::Record;
pub use lines::{MAX_LINE, read_click, read_query};
pub use records::{ClickRec, QueryRec};
pub use report::ReportLine;
pub use stream::{LogCheck, Seen};
pub use text::{MAX_TEXT, Text};
pub use why::Why;
pub use write::{click_line, query_line};
