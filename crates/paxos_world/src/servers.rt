// Paxos with servers that draw ballots by their epochs and rounds, learn each shard's values in order and tell each
// other, as a protocol over lists of events.
ghost use Rattle.std.specs.Prelude.{◌≡◌, ◌⊎◌, ℕ, [], ◌∷◌, Bool, replicate};
ghost use Rattle.paxos_world.specs.Terms.{Begins, IsExact, JournalsAgree, decided};
ghost use Rattle.paxos_world.specs.ServersWorld.{run, opened, EveryRun, learned_of};
ghost use Rattle.paxos_world.specs.ServersExample.{first_slot};

/// Whatever is proposed, lost, repeated or reordered, and whenever replicas and servers stop: journals that agree still
/// do, what was decided begins what is decided, and what each server has learned begins the decided list.
pub fn learning<V>()
    ensures agree { EveryRun {V = V} (λ first world. JournalsAgree world.replicas.journals) }
    ensures decided { EveryRun {V = V} (λ first world. (same : V → V → Bool) (shard : ℕ) → IsExact same → Begins (decided same first shard) (decided same world.replicas.journals shard)) }
    ensures learned { EveryRun {V = V} (λ first world. (same : V → V → Bool) (shard server : ℕ) → IsExact same → Begins (learned_of (world.servers server).live shard) (decided same world.replicas.journals shard)) }
{}

/// The law speaks of runs in which values are learned: here both servers learn one.
pub fn example<V>()
    ensures { (same : V → V → Bool) (v : V) (s : ℕ) → (s ≡ 0) ⊎ (s ≡ 1) → learned_of ((run same (first_slot v) (opened (replicate 3 []) (λ k. 0))).servers s).live 0 ≡ v ∷ [] }
{}
