//! From each node's own entries to the run of the whole system: what the bus kept is a history of the model, and which
//! stores are sound, by what a stop may leave of their disks.
#![tactic(auto)]

pub mod stores;

ghost use Rattle.std.specs.Prelude.{◌≡◌, ◌≤◌, ℕ, None};
ghost use Rattle.site_laws.specs.Terms.{Setting, node_count, node_of};
ghost use Rattle.site_laws.specs.Example.{DispatcherComesUp, DownIsStrict};
ghost use Rattle.site_laws.specs.Laws.{AiredIsRun, LeftIsImage, LeftIsRun, LeftIsWhole};
ghost use Rattle.site_laws.specs.Rest.{StatesAreQuiet, StatesRest};

/// Where each entry of a history may follow on the bus, and each node's own entries lead through states of its own disks,
/// the history is a run, whose packets and notes are those that the bytes spell, and each node stands where its own
/// entries have led it.
#[tactic(auto, using(crate::proofs::Following::aired_run))]
pub fn aired_is_run()
    ensures { AiredIsRun }
{
    turn_defs::laws::node_numbers();
    packet_codec::rows::one_spelling();
    air_bus::laws::delivered_was_sent();
}

/// Whichever records the disks may then hold, each node's or those with its open turn's note, some run leaves them: this
/// one, with stops at its end. So a sound store stays sound.
#[tactic(auto, using(crate::proofs::Leaving::left_image, crate::proofs::Leaving::left_run))]
pub fn left_on_disks()
    ensures image { LeftIsImage }
    ensures run { LeftIsRun }
    ensures whole { LeftIsWhole }
{
    packet_codec::rows::one_spelling();
    photon_model::every_run();
    photon_model::whole_stores();
}

/// Where each node rests by its own state, the world is at rest, and where each that takes part is quiet and no other has an open
/// turn, the world is quiet.
pub fn rest_of_states()
    ensures rest { StatesRest }
    ensures quiet { StatesAreQuiet }
{}

/// A number that no node has is none of those below the count of nodes.
#[tactic(auto, using(crate::proofs::Lifting::beyond))]
pub fn numbers_end()
    ensures { (g : Setting) (m : ℕ) → node_of g m ≡ None → node_count g ≤ m }
{
    turn_defs::laws::node_numbers();
}

/// The law speaks of histories that there are: here a dispatcher comes up. And no node does anything before its start.
#[tactic(auto, using(crate::proofs::Starting::comes_up, crate::proofs::Starting::strict))]
pub fn example()
    ensures comes_up { DispatcherComesUp }
    ensures strict { DownIsStrict }
{}
