ghost use Rattle.std.specs.Prelude.{◌≡◌, ◌++◌, ◌∷◌, [], ◌+◌, ◌≤◌, ◌<◌, length, IfOk, OnOk, OnErr, if◌then◌else◌};
ghost use Rattle.registry_state.specs.Same.{same_token};
ghost use Rattle.registry_state.specs.LookBack.{bound_of, first_in, holder, or_else, replay};

use crate::{Answer, Answers, Batch, Insert, Replays, Token, answer_each};
use event_id::EventId;
use std::alloc::{AllocError, Global};
use std::collections::HashMap;

/// Which token holds each id, and the bound in microseconds below which ids are too old.
///
/// It answers by looking back over the batches that it applied, and keeps of them the bound and the holders
/// of the ids that aren't below it.
#[derive(Debug, Drop)]
pub struct Registry {
    bound: u64,
    held: HashMap<EventId, Token>,
    alloc: Global,
}

impl Registry {
    ghost use Rattle.registry_state.specs.Registry.{Knows, IsUnchanged, room, token_of, answers_to, batch_of};

    /// Without ids, the bound 0. It takes no memory.
    pub fn new(alloc: Global) -> Registry
        ensures { Knows result [] }
    {
        Registry {
            bound: 0,
            held: HashMap::new(alloc),
            alloc,
        }
    }

    /// Applies a batch, all of it or, where memory runs out, nothing: the bound rises to the batch's, ids below
    /// it are dropped, and the inserts are answered in order.
    ///
    /// Constant expected time an insert, and one pass over the ids where the bound rises. It allocates the
    /// answers, and room for ids where there is none.
    pub fn apply(&mut self, batch: &Batch) -> Result<Answers, AllocError>
        ensures answers { IfOk result (λ answers. (applied : _) → Knows self.old applied → answers ≡ answers_to applied batch.now) }
        ensures known { OnOk result ((applied : _) → Knows self.old applied → Knows self.new (applied ++ batch.now ∷ [])) }
        ensures err { OnErr result (IsUnchanged self.old self.new) }
    {
        let inserts = batch.inserts.as_slice();
        let blank = vec![in self.alloc; Answer::Granted; inserts.len()]?;
        self.make_room(batch)?;
        self.learn(batch);
        Ok(answer_each(self, inserts, blank))
    }

    /// Makes room for the ids of a batch, so that it can be learned. It changes nothing else.
    ///
    /// It allocates where there isn't room for as many ids more as the batch has inserts.
    pub fn make_room(&mut self, batch: &Batch) -> Result<(), AllocError>
        ensures room { OnOk result (length batch.now.inserts ≤ room self.new) }
        ensures kept { room self.old ≤ room self.new }
        ensures known { (applied : _) → Knows self.old applied → Knows self.new applied }
        ensures same { IsUnchanged self.old self.new }
    {
        self.held.reserve(batch.inserts.as_slice().len())
    }

    /// Applies a batch for whose inserts room was made. It takes no memory.
    ///
    /// Constant expected time an insert, and one pass over the ids where the bound rises.
    pub fn learn(&mut self, batch: &Batch)
        requires { length batch.now.inserts ≤ room self.old }
        ensures known { (applied : _) → Knows self.old applied → Knows self.new (applied ++ batch.now ∷ []) }
        ensures room { room self.old ≤ room self.new + length batch.now.inserts }
    {
        self.raise(batch.bound);
        for insert in batch.inserts.as_slice() {
            self.claim(*insert);
        }
    }

    /// What the insert of the id by the token is answered now: none where the id is neither held nor below the
    /// bound. Constant expected time.
    pub fn replay(&self, id: EventId, token: Token) -> Option<Answer>
        ensures { (applied : _) → Knows self.now applied → result ≡ replay applied id token }
    {
        if id.micros < self.bound {
            return Some(Answer::TooOld(self.bound));
        }
        let holder = self.held.get(&id)?;
        Some(against(token, *holder))
    }

    /// What it would be answered had the batch been applied. It takes no memory, and time linear in the batch.
    pub fn replay_after(&self, batch: &Batch, id: EventId, token: Token) -> Option<Answer>
        ensures { (applied : _) → Knows self.now applied → result ≡ replay (applied ++ batch.now ∷ []) id token }
    {
        let bound = self.bound.max(batch.bound);
        if id.micros < bound {
            return Some(Answer::TooOld(bound));
        }
        let holder = self.holder_after(batch, id)?;
        Some(against(token, holder))
    }

    /// The token that holds the id, none where none does or the id is below the bound. Constant expected time.
    pub fn holder(&self, id: EventId) -> Option<Token>
        ensures { (applied : _) → Knows self.now applied → result ≡ holder applied id }
    {
        self.held.get(&id).copied()
    }

    /// The greatest bound of the batches applied, 0 where there was none.
    pub fn bound(&self) -> u64
        ensures { (applied : _) → Knows self.now applied → result ≡ bound_of applied }
    {
        self.bound
    }

    // The token that has the id, or else that of the batch's earliest insert of it.
    fn holder_after(&self, batch: &Batch, id: EventId) -> Option<Token>
        ensures { result ≡ or_else (token_of self.now id) (first_in batch.now.inserts id) }
    {
        match self.held.get(&id) {
            Some(holder) => Some(*holder),
            None => batch.inserts.claimant(id),
        }
    }

    // Raises the bound, and drops the ids below it.
    fn raise(&mut self, bound: u64)
        ensures known { (applied : _) → Knows self.old applied → Knows self.new (applied ++ batch_of bound [] ∷ []) }
        ensures room { room self.old ≤ room self.new }
    {
        if bound > self.bound {
            self.bound = bound;
            self.held.retain(|id, _| id.micros >= bound);
        }
    }

    // Gives the id to the token, unless another has it or it is below the bound.
    fn claim(&mut self, insert: Insert)
        requires { 0 < room self.old }
        ensures known { (applied : _) (bound : _) (inserts : _) → Knows self.old (applied ++ batch_of bound inserts ∷ []) → Knows self.new (applied ++ batch_of bound (inserts ++ insert ∷ []) ∷ []) }
        ensures room { room self.old ≤ room self.new + 1 }
    {
        if insert.id.micros >= self.bound && !self.held.contains_key(&insert.id) {
            let _ = self.held.insert(insert.id, insert.token);
        }
    }
}

impl Replays for Registry {
    ghost use Rattle.registry_state.specs.Registry.{Knows};

    ghost knows = { Knows };

    fn replay(&self, id: EventId, token: Token) -> Option<Answer> {
        self.replay(id, token)
    }

    fn replay_after(&self, batch: &Batch, id: EventId, token: Token) -> Option<Answer> {
        self.replay_after(batch, id, token)
    }
}

/// What a token is answered whose id that holder has.
pub fn against(token: Token, holder: Token) -> Answer
    ensures { result ≡ (if same_token holder token then Answer.Granted else Answer.Duplicate holder) }
{
    if holder == token {
        Answer::Granted
    } else {
        Answer::Duplicate(holder)
    }
}
