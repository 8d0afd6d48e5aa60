//! The inserts that wait to be put into a batch of the registry.
#![tactic(auto)]

ghost use Rattle.batch_queue.specs.Rows.{LastRow, AnsweredRow, LeftRow};

mod ahead;
mod answered;
mod group;
mod queue;
mod settled;

pub use answered::Answered;
pub use queue::{BatchQueue, Put};

/// Worked rows: what waits once more, what is answered and what goes on waiting.
pub fn worked_rows()
    ensures last { LastRow }
    ensures answered { AnsweredRow }
    ensures left { LeftRow }
{}
