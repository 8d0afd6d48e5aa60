//! Laws of agreement, and worked rows. Each is the contract of a function without parameters.
ghost use Rattle.paxos_defs.specs.Rows.{TurnRows, ProposerRows, DecidedRows};
ghost use Rattle.paxos_defs.specs.Laws.{PromiseKeeps, AcceptanceKeeps, PickedIsSafe, PromiseStays, SafeStays, ChosenStays, AgreedChooseOne, DecidedIs, DecidedGrows};

/// Votes that agree still do after one vote more: after a promise whatever the ballot, so long as it isn't below what
/// that replica promised; and after an acceptance where its value is safe at its ballot and the only one there.
pub fn votes_keep_agreement<V>()
    ensures promise { PromiseKeeps V }
    ensures acceptance { AcceptanceKeeps V }
{}

/// What a proposer sends is safe: the value of the highest prior among a majority's promises, or any value where they
/// have no prior.
pub fn picked_value_is_safe<V>()
    ensures { PickedIsSafe V }
{}

/// As votes grow, what a promise says stays true, what is safe stays safe, and what is chosen stays chosen.
pub fn facts_stay<V>()
    ensures promise { PromiseStays V }
    ensures safe { SafeStays V }
    ensures chosen { ChosenStays V }
{}

/// Journals that agree have at most one value chosen in each place.
pub fn one_value_is_chosen<V>()
    ensures { AgreedChooseOne V }
{}

/// The list computed from journals that agree is the decided list, and begins the one computed later.
pub fn decided_list<V>()
    ensures is { DecidedIs V }
    ensures grows { DecidedGrows V }
{}

/// Worked rows.
pub fn rows()
    ensures replica { TurnRows }
    ensures proposer { ProposerRows }
    ensures decided { DecidedRows }
{}
