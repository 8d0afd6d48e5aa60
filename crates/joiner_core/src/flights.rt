// The joins in flight, by their clicks' ids.
ghost use Rattle.std.specs.Prelude.{◌≤◌, ◌≡◌, ◌++◌, ◌∷◌, [], ◌<◌, ◌==◌, false, length, map, find, IfOk, OnOk, IfSome};
ghost use Rattle.joiner_core.specs.Terms.{MOST_FLIGHTS, IsUnique, index_map_len, same_id, AllByRecursion, AllByRecursion-prop, in_flight, landed, is_for};
ghost use Rattle.std.proofs.Props.{props};
ghost use Rattle.joiner_core.specs.Held.{IsHeld};

use event_id::EventId;
use indexmap::IndexMap;
use log_records::{QueryRec, Text};
use registry_state::{Insert, Token};
use std::alloc::{AllocError, Global};
use turn_defs::{Node, Packet};

/// A join that waits for the registry, but for its click's id.
#[derive(Debug, Drop)]
pub struct Waiting {
    pub position: u64,
    // the id of the click's query, and the click's text
    pub asked: EventId,
    pub text: Text,
    pub query: QueryRec,
    pub token: Token,
}

/// The joins in flight, in the order in which they began. No two have one click's id, and at most 32 are in flight.
#[derive(Debug, Drop)]
pub struct Flights {
    waiting: IndexMap<EventId, Waiting>,
    alloc: Global,
    ghost unique: { IsUnique same_id waiting } by { Prim.hlevel props },
    ghost few: { index_map_len waiting ≤ MOST_FLIGHTS } by { Prim.hlevel props },
    // Their parts have spellings.
    ghost held: { AllByRecursion IsHeld waiting.entries } by { AllByRecursion-prop IsHeld (λ e. Prim.hlevel props) waiting.entries },
}

impl Flights {
    ghost use Rattle.std.specs.Option.{option_map};
    ghost use Rattle.joiner_core.specs.Flying.{flights, flight_of, room, claim_to};
    ghost use Rattle.joiner_core.specs.Spelled.{ArePackets};

    /// None. It takes no memory.
    pub fn new(alloc: Global) -> Flights
        ensures { flights result ≡ [] }
    {
        Flights {
            waiting: IndexMap::new(alloc),
            alloc,
        }
    }

    pub fn len(&self) -> usize
        ensures { result ≡ length (flights self.now) }
    {
        self.waiting.len()
    }

    /// Whether a join of the click is in flight, in constant expected time.
    #[tactic(auto, using(crate::proofs::Flying::in_flight_lookup))]
    pub fn has(&self, id: EventId) -> bool
        ensures { result ≡ in_flight (flights self.now) id }
    {
        self.waiting.contains_key(&id)
    }

    /// The join that registers this id under this token, in constant expected time.
    #[tactic(auto, using(crate::proofs::Flying::find_lookup))]
    pub fn find(&self, insert: Insert) -> Option<&Waiting>
        ensures found { option_map (λ w. flight_of insert.id w.now) result ≡ find (is_for insert) (flights self.now) }
        ensures held { IfSome result (λ w. IsHeld (insert.id, w.now)) }
    {
        let Some(waiting) = self.waiting.get(&insert.id) else {
            return None;
        };
        if waiting.token == insert.token {
            Some(waiting)
        } else {
            None
        }
    }

    /// Makes room for one more.
    pub fn make_room(&mut self) -> Result<(), AllocError>
        ensures room { OnOk result (0 < room self.new) }
        ensures same { flights self.new ≡ flights self.old }
    {
        self.waiting.reserve(1)
    }

    /// Adds one, last. It takes no memory, and constant expected time.
    pub fn add(&mut self, id: EventId, waiting: Waiting)
        requires room { 0 < room self.old }
        requires few { length (flights self.old) < MOST_FLIGHTS }
        requires new { in_flight (flights self.old) id ≡ false }
        requires held { IsHeld (id, waiting) }
        ensures { flights self.new ≡ flights self.old ++ flight_of id waiting ∷ [] }
    {
        let _ = self.waiting.insert(id, waiting);
    }

    /// Takes out the one that registers this id under this token, if any. It takes no memory, and moves up those behind
    /// it, at most 31.
    #[tactic(auto, using(crate::proofs::Flying::landed_some, crate::proofs::Flying::landed_none, crate::proofs::Flying::is_some_mapped, crate::proofs::Flying::held_removed))]
    pub fn land(&mut self, insert: Insert)
        ensures { flights self.new ≡ landed (flights self.old) insert }
    {
        if self.find(insert).is_some() {
            let _ = self.waiting.shift_remove(&insert.id);
        }
    }

    /// Takes all out, and takes no memory.
    pub fn clear(&mut self)
        ensures { flights self.new ≡ [] }
    {
        self.waiting.clear();
    }

    /// The insert of each, with its own token, to the server of the site. Linear in their number, with one allocation.
    pub fn claims(&self, site: u8) -> Result<Vec<(Node, Packet)>, AllocError>
        ensures claims { IfOk result (λ all. all.items ≡ map (claim_to site) (flights self.now)) }
        ensures spelled { IfOk result (λ all. ArePackets all.items) }
    {
        let mut all = Vec::with_capacity(self.alloc, self.waiting.len())?;
        for (id, waiting) in self.waiting.iter() {
            let insert = Insert {
                id: *id,
                token: waiting.token,
            };
            all.push((Node::Server(site), Packet::Insert(insert)))?;
        }
        Ok(all)
    }
}
