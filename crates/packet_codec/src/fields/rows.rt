//! Worked rows of spellings.
ghost use Rattle.std.specs.Prelude.{◌≡◌, [], ◌∷◌};
ghost use Rattle.turn_defs.specs.Spellings.{token, ballot, place, batch, answer, text};
ghost use Rattle.packet_codec.specs.Notes.{note};
ghost use Rattle.registry_state.specs.declared.Answer.TheVariants.{Granted, TooOld};
ghost use Rattle.paxos_acceptor.specs.declared.notes.ReplicaNote.TheVariants.{Promised};

/// Numbers stand high byte first, one field behind the other.
pub fn worked_rows()
    ensures token { token (record { joiner = 7; epoch = 258; number = 36 }) ≡ 0 ∷ 7 ∷ 0 ∷ 0 ∷ 1 ∷ 2 ∷ 0 ∷ 0 ∷ 0 ∷ 0 ∷ 0 ∷ 0 ∷ 0 ∷ 36 ∷ [] }
    ensures ballot { ballot (record { round = 515; epoch = 4; site = 1 }) ≡ 0 ∷ 0 ∷ 0 ∷ 0 ∷ 0 ∷ 0 ∷ 2 ∷ 3 ∷ 0 ∷ 0 ∷ 0 ∷ 4 ∷ 1 ∷ [] }
    ensures place { place (record { shard = 15; slot = 9 }) ≡ 15 ∷ 0 ∷ 0 ∷ 0 ∷ 0 ∷ 0 ∷ 0 ∷ 0 ∷ 9 ∷ [] }
    ensures batch { batch (record { bound = 5; inserts = [] }) ≡ 0 ∷ 0 ∷ 0 ∷ 0 ∷ 0 ∷ 0 ∷ 0 ∷ 5 ∷ 0 ∷ [] }
    ensures note { note (Promised 1 2 (record { round = 3; epoch = 4; site = 0 })) ≡ 7 ∷ 1 ∷ 0 ∷ 0 ∷ 0 ∷ 0 ∷ 0 ∷ 0 ∷ 0 ∷ 2 ∷ 0 ∷ 0 ∷ 0 ∷ 0 ∷ 0 ∷ 0 ∷ 0 ∷ 3 ∷ 0 ∷ 0 ∷ 0 ∷ 4 ∷ 0 ∷ [] }
    ensures granted { answer Granted ≡ 0 ∷ [] }
    ensures too_old { answer (TooOld 1) ≡ 2 ∷ 0 ∷ 0 ∷ 0 ∷ 0 ∷ 0 ∷ 0 ∷ 0 ∷ 1 ∷ [] }
    ensures text { text (104 ∷ 105 ∷ []) ≡ 2 ∷ 104 ∷ 105 ∷ [] }
{}
