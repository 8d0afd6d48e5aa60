//! The log of the pairs that a site joined, each a click, its query, and the token under which they were joined; and the
//! journal of a replica's votes.
#![tactic(auto)]

pub mod laws;
mod outputs;
mod pair;
pub mod rows;
mod votes;

pub use outputs::{OutputLog, Outputs};
pub use pair::{LONGEST, pair_frame, read_pair};
pub use turn_defs::PairRec;
pub use votes::{VoteJournal, Votes};
