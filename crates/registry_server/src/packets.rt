// What a server sends, behind what it sends already.
ghost use Rattle.std.specs.Prelude.{◌≡◌, ◌++◌, ◌∷◌, [], IfOk, OnOk};
ghost use Rattle.registry_server.specs.Terms.{Setting, reply, to_replicas};
ghost use Rattle.turn_defs.specs.declared.packet.Packet.TheVariants as packet;
ghost use Rattle.registry_server.specs.Stations.{setting, sent, request};
ghost use Rattle.registry_server.specs.Replies.{each_reply};

use crate::station::{Station, is_joiner_of};
use ballot_core::Ballot;
use paxos_defs::Place;
use registry_state::{Answer, Batch, Insert};
use std::alloc::AllocError;
use turn_defs::{Node, Packet};

// A Prepare, or an Accept of the value where there is one, to each replica. One allocation each for the value.
pub(crate) fn ask_all(
    station: &Station,
    packets: &mut Vec<(Node, Packet)>,
    place: Place,
    ballot: Ballot,
    value: Option<&Batch>,
) -> Result<(), AllocError>
    ensures { OnOk result (sent packets.new.items ≡ sent packets.old.items ++ to_replicas station.now.config.replicas (request place ballot value.entry)) }
{
    for replica in 0..station.config.replicas {
        let asked = ask(place, ballot, value)?;
        packets.push((Node::Replica(replica), asked))?;
    }
    Ok(())
}

fn ask(place: Place, ballot: Ballot, value: Option<&Batch>) -> Result<Packet, AllocError>
    ensures { IfOk result (λ p. p ≡ request place ballot value.entry) }
{
    match value {
        Some(value) => Ok(Packet::Accept {
            place,
            ballot,
            batch: value.copy()?,
        }),
        None => Ok(Packet::Prepare { place, ballot }),
    }
}

// The answer goes to the joiner that the insert's token names, where that is one of this site.
pub(crate) fn push_reply(
    station: &Station,
    packets: &mut Vec<(Node, Packet)>,
    insert: Insert,
    answer: Answer,
) -> Result<(), AllocError>
    ensures { OnOk result ((g : Setting) → sent packets.new.items ≡ sent packets.old.items ++ reply (setting station.now g) station.now.site insert answer) }
{
    if !is_joiner_of(station.config, station.site, insert.token.joiner) {
        return Ok(());
    }
    let to = Node::Joiner(insert.token.joiner);
    packets.push((to, Packet::Reply { insert, answer }))?;
    Ok(())
}

// The same for each of these, in their order.
pub(crate) fn push_replies(
    station: &Station,
    packets: &mut Vec<(Node, Packet)>,
    answered: &[(Insert, Answer)],
) -> Result<(), AllocError>
    ensures { OnOk result ((g : Setting) → sent packets.new.items ≡ sent packets.old.items ++ each_reply (setting station.now g) station.now.site answered.now) }
{
    for (insert, answer) in answered {
        push_reply(station, packets, *insert, *answer)?;
    }
    Ok(())
}
