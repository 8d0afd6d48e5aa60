//! What a value of the registry is made of, and what a list of values answers when one looks back over it.
#![tactic(auto)]

ghost use Rattle.std.specs.Prelude.{◌≡◌, ◌++◌, ◌∷◌, [], IfOk, OnOk, OnErr};
ghost use Rattle.registry_state.specs.Same.{same_batch};
ghost use Rattle.registry_state.specs.LookBack.{first_in};
ghost use Rattle.registry_state.specs.Laws.{OneGranted, GrantedStays, SettledStays};
ghost use Rattle.registry_state.specs.Rows.{ContestRow, ReplayRow, BoundRow, DroppedRow};

mod answers;
mod registry;
mod replays;

pub use answers::Answers;
use event_id::EventId;
pub use registry::{Registry, against};
pub use replays::{Replays, answer_each};
use std::alloc::{AllocError, Global};
use std::marker::Model;

/// Drawn by a joiner (its node number) in one of its epochs, for one insert.
#[derive(Clone, Copy, Debug, PartialEq, Eq, Hash)]
pub struct Token {
    pub joiner: u16,
    pub epoch: u32,
    pub number: u64,
}

/// The claim of a click's id by a token.
#[derive(Clone, Copy, Debug, PartialEq, Eq)]
pub struct Insert {
    pub id: EventId,
    pub token: Token,
}

/// What an insert is answered.
#[derive(Clone, Copy, Debug, PartialEq, Eq)]
pub enum Answer {
    /// The token holds the id.
    Granted,
    /// This other token holds the id.
    Duplicate(Token),
    /// The id's time lies below this bound.
    TooOld(u64),
}

/// A batch has at most so many inserts.
pub const MOST_INSERTS: usize = 64;

/// So many inserts wait for one shard at most.
pub const MOST_WAITING: usize = 4096;

/// Inserts, in order.
#[derive(Debug, Drop)]
pub struct Inserts {
    items: Vec<Insert>,
}

impl Model for Inserts {
    ghost use Rattle.std.specs.Prelude.{List};
    ghost use Rattle.registry_state.specs.declared.Insert.{Insert};

    ghost Value = { List Insert };

    ghost view = { λ a. a.items.items };
}

impl Inserts {
    /// None. It takes no memory.
    pub fn new(alloc: Global) -> Inserts
        ensures { result ≡ [] }
    {
        Inserts {
            items: Vec::new(alloc),
        }
    }

    /// None, with room for so many, by one allocation.
    pub fn with_capacity(alloc: Global, count: usize) -> Result<Inserts, AllocError>
        ensures { IfOk result (λ inserts. inserts ≡ []) }
    {
        Ok(Inserts {
            items: Vec::with_capacity(alloc, count)?,
        })
    }

    /// Puts one more behind the others, in amortized constant time.
    pub fn push(&mut self, insert: Insert) -> Result<(), AllocError>
        ensures ok { OnOk result (self.new ≡ self.old ++ insert ∷ []) }
        ensures err { OnErr result (self.new ≡ self.old) }
    {
        self.items.push(insert)?;
        Ok(())
    }

    /// The token of the earliest insert of the id, none where there is none. Linear.
    pub fn claimant(&self, id: EventId) -> Option<Token>
        ensures { result ≡ first_in self.now id }
    {
        for insert in self.items.as_slice() {
            if insert.id == id {
                return Some(insert.token);
            }
        }
        None
    }

    /// The inserts, borrowed.
    pub fn as_slice(&self) -> &[Insert]
        ensures { result.now ≡ self.now }
    {
        &self.items
    }

    /// The same inserts, by one allocation.
    pub fn copy(&self) -> Result<Inserts, AllocError>
        ensures { IfOk result (λ copy. copy ≡ self.now) }
    {
        Ok(Inserts {
            items: Vec::from_slice(*self.items.allocator(), &self.items)?,
        })
    }
}

/// One value of the registry: a bound in microseconds below which ids are too old, and inserts under it.
#[derive(Debug, Drop)]
pub struct Batch {
    pub bound: u64,
    pub inserts: Inserts,
}

impl Batch {
    /// The same batch, by one allocation.
    pub fn copy(&self) -> Result<Batch, AllocError>
        ensures { IfOk result (λ copy. copy ≡ self.now) }
    {
        Ok(Batch {
            bound: self.bound,
            inserts: self.inserts.copy()?,
        })
    }

    /// Whether both are one value, in time linear in the shorter.
    pub fn is_same(&self, other: &Batch) -> bool
        ensures { result ≡ same_batch self.now other.now }
    {
        self.bound == other.bound && self.inserts.as_slice() == other.inserts.as_slice()
    }
}

/// At most one token is granted for an id, a longer list keeps what was granted, and keeps an id
/// registered or expired.
pub fn looking_back()
    ensures one { OneGranted }
    ensures granted { GrantedStays }
    ensures settled { SettledStays }
{}

/// Worked rows of looking back: a contest in one batch, asking again, the bound, and that it never falls.
pub fn worked_rows()
    ensures contest { ContestRow }
    ensures replay { ReplayRow }
    ensures bound { BoundRow }
    ensures dropped { DroppedRow }
{}
