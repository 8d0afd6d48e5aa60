// Packets from bytes.
ghost use Rattle.std.specs.Prelude.{◌≡◌, ◌≤◌, ◌∷◌, ◌++◌, ℕ, IfOk, IfErr, MatchResult};
ghost use Rattle.packet_codec.specs.Bad.{After};
ghost use Rattle.packet_codec.specs.Stops.{Stops};
ghost use Rattle.turn_defs.specs.Packets.{packet, IsPacket};
ghost use Rattle.packet_codec.specs.Spelled.{Packets};
ghost use Rattle.packet_codec.specs.Refused.{IsBadPacket, IsFault, Tells, IsMemory};
ghost use Rattle.turn_defs.specs.declared.packet.Packet.{Packet};

use crate::fields::{Stop, read_tag, read_three, read_two};
use crate::tags::{ACCEPTED, CHOSEN, INSERT, JOIN, JOINED, NACK, PREPARE, PROMISE, REPLY};
use crate::{DecodeFault, Field};
use ballot_core::Ballot;
use log_records::ClickRec;
use paxos_defs::Place;
use registry_state::{Answer, Batch, Insert};
use turn_defs::{Outcome, Packet};
use wire_core::Origin;

/// The packet that the bytes spell, all of them. Linear in the bytes. A batch's list of inserts is allocated, and a text
/// where the origin has no shared bytes, and nothing else.
#[tactic(auto, using(crate::proofs::BadPackets::bad_whole))]
pub fn decode(origin: Origin, bytes: &[u8]) -> Result<Packet, DecodeFault>
    // What is decoded is spelled so.
    ensures found { IfOk result (λ p. IsPacket p × (bytes.now ≡ packet p)) }
    // What is spelled so is decoded, unless memory runs out: a packet that was encoded comes back.
    ensures only { (p : Packet) → IsPacket p → bytes.now ≡ packet p → MatchResult result (λ q. q ≡ p) IsMemory }
    // Where the bytes stop being the front of a packet's spelling.
    ensures bad { IfErr result (IsFault bytes.now) }
    // Bytes that spell no packet are refused there, unless memory runs out.
    ensures refused { (at : ℕ) → IsBadPacket bytes.now at → MatchResult result (λ p. ⊥) (Tells at) }
{
    match read_packet(origin, bytes) {
        Ok((packet, rest)) => {
            if rest.is_empty() {
                return Ok(packet);
            }
            Err(DecodeFault::BadPacket {
                at: (bytes.len() - rest.len()) as u64,
            })
        }
        Err(Stop::Bad { left }) => Err(DecodeFault::BadPacket {
            at: (bytes.len() - left) as u64,
        }),
        Err(Stop::Memory) => Err(DecodeFault::Memory),
    }
}

// The packet whose spelling the bytes begin with, and the bytes behind it.
#[tactic(auto, using(crate::proofs::BadPlaces::stops_through, crate::proofs::PartLaws::after_whole, crate::proofs::PacketParts::packet_sum))]
fn read_packet<'a>(origin: Origin, bytes: &'a [u8]) -> Result<(Packet, &'a [u8]), Stop>
    ensures is { IfOk result (λ p. IsPacket p.0) }
    ensures found { IfOk result (λ p. bytes.now ≡ packet p.0 ++ p.1.now) }
    ensures bad { IfErr result (Stops Packets bytes.now) }
{
    let (tag, rest) = read_tag(bytes, JOIN, CHOSEN)?;
    read_fields(origin, tag, rest)
}

// The packet of this tag whose fields the bytes begin with, and the bytes behind them.
fn read_fields<'a>(origin: Origin, tag: u8, bytes: &'a [u8]) -> Result<(Packet, &'a [u8]), Stop>
    requires low { 0x11 ≤ tag }
    requires high { tag ≤ 0x1A }
    ensures is { IfOk result (λ p. IsPacket p.0) }
    ensures found { IfOk result (λ p. tag ∷ bytes.now ≡ packet p.0 ++ p.1.now) }
    ensures bad { IfErr result (Stops (After tag Packets) bytes.now) }
{
    match tag {
        JOIN => {
            let (position, click, rest) = read_two::<u64, ClickRec>(origin, bytes)?;
            Ok((Packet::Join { position, click }, rest))
        }
        JOINED => {
            let (position, outcome, rest) = read_two::<u64, Outcome>(origin, bytes)?;
            Ok((Packet::Joined { position, outcome }, rest))
        }
        INSERT => {
            let (insert, rest) = Insert::read(origin, bytes)?;
            Ok((Packet::Insert(insert), rest))
        }
        REPLY => {
            let (insert, answer, rest) = read_two::<Insert, Answer>(origin, bytes)?;
            Ok((Packet::Reply { insert, answer }, rest))
        }
        PREPARE => {
            let (place, ballot, rest) = read_two::<Place, Ballot>(origin, bytes)?;
            Ok((Packet::Prepare { place, ballot }, rest))
        }
        ACCEPTED => {
            let (place, ballot, rest) = read_two::<Place, Ballot>(origin, bytes)?;
            Ok((Packet::Accepted { place, ballot }, rest))
        }
        CHOSEN => {
            let (place, batch, rest) = read_two::<Place, Batch>(origin, bytes)?;
            Ok((Packet::Chosen { place, batch }, rest))
        }
        _ => read_more(origin, tag, bytes),
    }
}

// The packet of this tag, for a tag whose packets have three fields.
fn read_more<'a>(origin: Origin, tag: u8, bytes: &'a [u8]) -> Result<(Packet, &'a [u8]), Stop>
    requires low { 0x16 ≤ tag }
    requires high { tag ≤ 0x18 }
    ensures is { IfOk result (λ p. IsPacket p.0) }
    ensures found { IfOk result (λ p. tag ∷ bytes.now ≡ packet p.0 ++ p.1.now) }
    ensures bad { IfErr result (Stops (After tag Packets) bytes.now) }
{
    match tag {
        PROMISE => {
            let (place, ballot, prior, rest) = read_three::<Place, Ballot, Option<(Ballot, Batch)>>(
                origin, bytes,
            )?;
            let packet = Packet::Promise {
                place,
                ballot,
                prior,
            };
            Ok((packet, rest))
        }
        NACK => {
            let (place, ballot, promised, rest) = read_three::<Place, Ballot, Ballot>(
                origin, bytes,
            )?;
            let packet = Packet::Nack {
                place,
                ballot,
                promised,
            };
            Ok((packet, rest))
        }
        _ => {
            let (place, ballot, batch, rest) = read_three::<Place, Ballot, Batch>(origin, bytes)?;
            let packet = Packet::Accept {
                place,
                ballot,
                batch,
            };
            Ok((packet, rest))
        }
    }
}
