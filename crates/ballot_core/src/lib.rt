//! Ballots, and majorities of a group.
#![tactic(auto)]

ghost use Rattle.std.specs.Prelude.{◌≡◌, ◌*◌, ◌<◌, ◌≤◌, ◌↔◌, IsTrue};
ghost use Rattle.ballot_core.specs.declared.Ballot.{Ballot as Number};
ghost use Rattle.ballot_core.specs.Ballots.{ballot_cmp};
ghost use Rattle.ballot_core.specs.Majority.{MajoritiesMeet};
ghost use Rattle.ballot_core.specs.Rows.{RowsHold};

/// The number of an attempt to have a value chosen: a higher ballot overrides a lower one. Ballots are ordered by
/// round, then epoch, then site, so two servers never draw the same one, nor does a server in two of its epochs.
#[derive(Clone, Copy, Debug, PartialEq, Eq, PartialOrd, Ord)]
pub struct Ballot {
    /// Counts the attempts of all servers. It rises above every round that the server has heard of.
    pub round: u64,
    /// How often the server that drew the ballot has started.
    pub epoch: u32,
    /// Where the server stands that drew the ballot: 0 or 1.
    pub site: u8,
}

/// The last epoch: a server or a joiner that has kept it starts no more.
pub const LAST_EPOCH: u32 = u32::MAX - 1;

/// Whether `count` members are more than half of a group of `of`. Constant time, no memory.
pub fn is_majority(count: u32, of: u32) -> bool
    requires { count ≤ of }
    ensures { IsTrue result ↔ (of < 2 * count) }
{
    count > of - count
}

/// Any two majorities of a group have a member in common.
pub fn majorities_meet()
    ensures { MajoritiesMeet }
{}

/// Ballots are compared by round, then epoch, then site.
pub fn order_of_ballots()
    ensures { (a b : Number) → ⟦<Ballot as Ord>⟧.cmp a b ≡ ballot_cmp a b }
{}

/// Worked rows: which of two ballots is lower, and how many marks there are.
pub fn rows()
    ensures { RowsHold }
{}
