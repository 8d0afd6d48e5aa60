// Packets to bytes.
ghost use Rattle.std.specs.Prelude.{◌≡◌, ◌∷◌, ◌++◌, IfOk, OnOk};
ghost use Rattle.turn_defs.specs.Packets.{packet, IsPacket};

use crate::Field;
use crate::fields::{put_three, put_two};
use crate::tags::{ACCEPT, ACCEPTED, CHOSEN, INSERT, JOIN, JOINED, NACK, PREPARE, PROMISE, REPLY};
use std::alloc::{AllocError, Global};
use turn_defs::Packet;
use wire_core::Bytes;

/// The one spelling of a packet that has one: its numbers are in the ranges of its fields, its text has at most `MAX_TEXT`
/// printable bytes, its batch at most `MOST_INSERTS` inserts. Linear in the spelling, by one allocation.
///
/// A packet is a byte that tells its kind, and its fields in order.
pub fn encode(alloc: Global, sent: &Packet) -> Result<Bytes, AllocError>
    requires { IsPacket sent.now }
    ensures { IfOk result (λ bytes. bytes ≡ packet sent.now) }
{
    let mut to = Bytes::with_capacity(alloc, room(sent))?;
    put_packet(sent, &mut to)?;
    Ok(to)
}

// No fewer bytes than the spelling has.
fn room(sent: &Packet) -> usize
    requires { IsPacket sent.now }
{
    match sent {
        Packet::Join { click, .. } => 42 + click.text.as_bytes().len(),
        Packet::Promise {
            prior: Some((_, batch)),
            ..
        } => 46 + 30 * batch.inserts.as_slice().len(),
        Packet::Accept { batch, .. } => 32 + 30 * batch.inserts.as_slice().len(),
        Packet::Chosen { batch, .. } => 19 + 30 * batch.inserts.as_slice().len(),
        _ => 46,
    }
}

// Puts the spelling behind the other bytes. After an error a front of it may stand there.
fn put_packet(sent: &Packet, to: &mut Bytes) -> Result<(), AllocError>
    requires { IsPacket sent.now }
    ensures { OnOk result (to.new ≡ to.old ++ packet sent.now) }
{
    match sent {
        Packet::Join { position, click } => tag_two(JOIN, position, click, to),
        Packet::Joined { position, outcome } => tag_two(JOINED, position, outcome, to),
        Packet::Insert(insert) => tag_one(INSERT, insert, to),
        Packet::Reply { insert, answer } => tag_two(REPLY, insert, answer, to),
        Packet::Prepare { place, ballot } => tag_two(PREPARE, place, ballot, to),
        Packet::Promise {
            place,
            ballot,
            prior,
        } => tag_three(PROMISE, place, ballot, prior, to),
        Packet::Nack {
            place,
            ballot,
            promised,
        } => tag_three(NACK, place, ballot, promised, to),
        Packet::Accept {
            place,
            ballot,
            batch,
        } => tag_three(ACCEPT, place, ballot, batch, to),
        Packet::Accepted { place, ballot } => tag_two(ACCEPTED, place, ballot, to),
        Packet::Chosen { place, batch } => tag_two(CHOSEN, place, batch, to),
    }
}

// Puts a tag, and a field behind it.
fn tag_one<A: Field>(tag: u8, first: &A, to: &mut Bytes) -> Result<(), AllocError>
    requires { A.has_spelling first.now }
    ensures { OnOk result (to.new ≡ to.old ++ tag ∷ A.spelled first.now) }
{
    to.put_u8(tag)?;
    first.put(to)
}

// Puts a tag, and two fields behind it.
fn tag_two<A: Field, B: Field>(
    tag: u8,
    first: &A,
    second: &B,
    to: &mut Bytes,
) -> Result<(), AllocError>
    requires first { A.has_spelling first.now }
    requires second { B.has_spelling second.now }
    ensures { OnOk result (to.new ≡ to.old ++ tag ∷ (A.spelled first.now ++ B.spelled second.now)) }
{
    to.put_u8(tag)?;
    put_two(first, second, to)
}

// Puts a tag, and three fields behind it.
fn tag_three<A: Field, B: Field, C: Field>(
    tag: u8,
    first: &A,
    second: &B,
    third: &C,
    to: &mut Bytes,
) -> Result<(), AllocError>
    requires first { A.has_spelling first.now }
    requires second { B.has_spelling second.now }
    requires third { C.has_spelling third.now }
    ensures { OnOk result (to.new ≡ to.old ++ tag ∷ (A.spelled first.now ++ (B.spelled second.now ++ C.spelled third.now))) }
{
    to.put_u8(tag)?;
    put_three(first, second, third, to)
}
