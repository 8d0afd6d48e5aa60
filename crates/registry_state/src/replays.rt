ghost use Rattle.std.specs.Prelude.{◌≡◌, ◌++◌, ◌∷◌, [], List, length, map, unwrap_or, vec_len};
ghost use Rattle.registry_state.specs.declared.Batch.{Batch};
ghost use Rattle.registry_state.specs.LookBack.{replay};

use crate::{Answer, Answers, Batch, Insert, Token};
use event_id::EventId;

/// What answers inserts by looking back over batches.
pub trait Replays {
    /// Whether it looks back over these batches.
    ghost knows: { Self → List Batch → Type 0 };

    /// What the insert of the id by the token is answered now: none where the id is neither held nor below the
    /// bound.
    fn replay(&self, id: EventId, token: Token) -> Option<Answer>
        ensures { (applied : _) → knows self.now applied → result ≡ replay applied id token };

    /// What it would be answered had the batch been applied.
    fn replay_after(&self, batch: &Batch, id: EventId, token: Token) -> Option<Answer>
        ensures { (applied : _) → knows self.now applied → result ≡ replay (applied ++ batch.now ∷ []) id token };
}

/// The answer to each insert of a batch that was applied, written over as many blank ones, so that it takes no memory.
pub fn answer_each<R: Replays>(registry: &R, inserts: &[Insert], mut blank: Vec<Answer>) -> Answers
    requires { vec_len blank ≡ length inserts.now }
    ensures { (applied : _) → R.knows registry.now applied → result ≡ map (λ x. unwrap_or (replay applied x.id x.token) Answer.Granted) inserts.now }
{
    for (k, insert) in inserts.iter().enumerate() {
        let answer = registry.replay(insert.id, insert.token);
        blank[k] = answer.unwrap_or(Answer::Granted);
    }
    Answers::from(blank)
}
