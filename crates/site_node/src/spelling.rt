// What a turn sends, as bytes.
ghost use Rattle.std.specs.Prelude.{◌≡◌, All, IfOk};
ghost use Rattle.turn_defs.specs.Nodes.{node_number};
ghost use Rattle.turn_defs.specs.declared.packet.Packet.{Packet};
ghost use Rattle.turn_defs.specs.declared.node.Node.{Node};
ghost use Rattle.turn_defs.specs.Packets.{packet, IsPacket};
ghost use Rattle.site_node.specs.Bytes.{AreSpelled};

use air_bus::{Packets, Payload};
use packet_codec::encode;
use std::alloc::{AllocError, Global};
use turn_defs::{Node, Packet};

/// The number of a node, by which the bus and packets name it.
pub fn number_of(node: Node) -> u16
    ensures { result ≡ node_number node }
{
    match node {
        Node::Dispatcher(site) => u16::from(site),
        Node::Server(site) => 2 + u16::from(site),
        Node::Replica(replica) => 4 + u16::from(replica),
        Node::Joiner(number) => number,
    }
}

/// The packets as the bus takes them. Linear in their spellings, by two allocations for each: each text is copied once.
pub fn spell(alloc: Global, packets: &[(Node, Packet)]) -> Result<Packets, AllocError>
    requires { All (λ (p : Node × Packet). IsPacket p.1) packets.now }
    ensures { IfOk result (λ spelled. AreSpelled packets.now spelled) }
{
    let mut spelled = Packets::new(alloc);
    for sent in packets {
        let bytes = encode(alloc, &sent.1)?;
        spelled.push(number_of(sent.0), Payload::new(bytes.into_vec())?)?;
    }
    Ok(spelled)
}
