//! Paxos alone, as a protocol over lists of events, and its law of agreement.
#![tactic(auto)]

pub mod servers;

ghost use Rattle.std.specs.Prelude.{◌≡◌, ℕ, [], ◌∷◌, Bool, replicate};
ghost use Rattle.paxos_world.specs.Terms.{Begins, IsChosen, IsExact, JournalsAgree, OneChosen, Place, decided};
ghost use Rattle.paxos_world.specs.World.{run, opened, EveryRun, AllChosen};
ghost use Rattle.paxos_world.specs.Example.{two_proposals, first_place};

/// Whatever is proposed, lost, repeated or reordered, and whenever replicas and proposers restart: journals that
/// agree, as those without notes do, still agree, at most one value is chosen in each place, what was chosen stays
/// so, what was decided begins what is decided, and what a proposer has learned is chosen.
pub fn agreement<V>()
    ensures begins { (replicas : ℕ) → JournalsAgree {V = V} (replicate replicas []) }
    ensures agree { EveryRun {V = V} (λ first world. JournalsAgree world.replicas.journals) }
    ensures one_chosen { EveryRun {V = V} (λ first world. OneChosen world.replicas.journals) }
    ensures kept { EveryRun {V = V} (λ first world. (p : Place) (v : V) → IsChosen first p v → IsChosen world.replicas.journals p v) }
    ensures decided { EveryRun {V = V} (λ first world. (same : V → V → Bool) (shard : ℕ) → IsExact same → Begins (decided same first shard) (decided same world.replicas.journals shard)) }
    ensures learned { EveryRun {V = V} (λ first world. AllChosen world) }
{}

/// The law speaks of runs in which values are chosen: here two proposers learn one value, that of the first.
pub fn example<V>()
    ensures { (same : V → V → Bool) (v w : V) → (run same (two_proposals v w) (opened (replicate 3 []))).learned ≡ (first_place, v) ∷ (first_place, v) ∷ [] }
{}
