// A replica's answers as packets.
ghost use Rattle.std.specs.Prelude.{◌≡◌};
ghost use Rattle.replica_node.specs.Terms.{prepared_as, taken_as, Batch as Value};
ghost use Rattle.paxos_defs.specs.Turns as turns;
ghost use Rattle.turn_defs.specs.Replica as rows;

use ballot_core::Ballot;
use paxos_acceptor::{Prepared, Taken};
use paxos_defs::Place;
use turn_defs::Packet;

// A promise tells what was accepted before; a refusal tells the higher ballot that was promised.
pub(crate) fn prepared(place: Place, ballot: Ballot, answer: Prepared) -> Packet
    ensures { (turn : turns.Prepared Value) → answer ≡ prepared_as turn → result ≡ rows.prepared place ballot turn }
{
    match answer {
        Prepared::Promise(prior) => Packet::Promise {
            place,
            ballot,
            prior,
        },
        Prepared::Nack(promised) => Packet::Nack {
            place,
            ballot,
            promised,
        },
    }
}

// That the batch is accepted, or the higher ballot that was promised.
pub(crate) fn taken(place: Place, ballot: Ballot, answer: Taken) -> Packet
    ensures { (turn : turns.Taken) → answer ≡ taken_as turn → result ≡ rows.taken place ballot turn }
{
    match answer {
        Taken::Accepted => Packet::Accepted { place, ballot },
        Taken::Nack(promised) => Packet::Nack {
            place,
            ballot,
            promised,
        },
    }
}
