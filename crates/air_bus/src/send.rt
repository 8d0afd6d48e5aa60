//! Packets on their way into inboxes.
ghost use Rattle.std.specs.Prelude.{◌≡◌, ◌<◌, ◌≤◌, ℕ, length, fold, take, true, false, OnOk, OnErr};
ghost use Rattle.lossy_link.specs.declared.plan.Kind.{Kind};
ghost use Rattle.lossy_link.specs.Fates.{PlanView};
ghost use Rattle.air_bus.specs.Inboxes.{AllTurn, AreWide};
ghost use Rattle.air_bus.specs.Waiting.{one_packet, puts};
ghost use Rattle.std.specs.Prelude.{List};

use crate::inbox::Inbox;
use crate::links::Links;
use crate::payload::Payload;
use std::alloc::AllocError;

// Puts the packets into their receivers' inboxes, in order, up to the first that finds no room: it and all after it are
// lost. Gives the number of those before it. A packet to a number that no node has goes nowhere.
pub(crate) fn send(
    inboxes: &mut Vec<Inbox>,
    links: &Links,
    from: u16,
    packets: &[(u16, Payload)],
) -> u32
    requires from { from < length links.now.kinds.items }
    requires nodes { length inboxes.old.items ≡ length links.now.kinds.items }
    requires wide { AreWide (length links.now.kinds.items) inboxes.old.items }
    ensures kept { result ≤ length packets.now }
    ensures nodes { length inboxes.new.items ≡ length inboxes.old.items }
    ensures wide { AreWide (length links.now.kinds.items) inboxes.new.items }
    ensures sent { AllTurn inboxes.old.items inboxes.new.items (λ n. puts links.now.plan links.now.kinds.items n from packets.now result) }
{
    let kept = put_first(inboxes, links, from, packets);
    lose_all(inboxes, from, &packets[kept as usize..]);
    kept
}

fn put_first(inboxes: &mut Vec<Inbox>, links: &Links, from: u16, packets: &[(u16, Payload)]) -> u32
    requires from { from < length links.now.kinds.items }
    requires nodes { length inboxes.old.items ≡ length links.now.kinds.items }
    requires wide { AreWide (length links.now.kinds.items) inboxes.old.items }
    ensures kept { result ≤ length packets.now }
    ensures nodes { length inboxes.new.items ≡ length inboxes.old.items }
    ensures wide { AreWide (length links.now.kinds.items) inboxes.new.items }
    ensures sent { AllTurn inboxes.old.items inboxes.new.items (λ n r. fold (one_packet links.now.plan links.now.kinds.items n from true) r (take result packets.now)) }
{
    let mut kept = 0;
    for packet in packets {
        if kept == u32::MAX {
            return kept;
        }
        match put(inboxes, links, from, packet) {
            Ok(()) => kept += 1,
            Err(AllocError) => return kept,
        }
    }
    kept
}

// Puts one packet into its receiver's inbox, if some node is its receiver.
fn put(
    inboxes: &mut Vec<Inbox>,
    links: &Links,
    from: u16,
    packet: &(u16, Payload),
) -> Result<(), AllocError>
    requires from { from < length links.now.kinds.items }
    requires nodes { length inboxes.old.items ≡ length links.now.kinds.items }
    requires wide { AreWide (length links.now.kinds.items) inboxes.old.items }
    ensures nodes { length inboxes.new.items ≡ length inboxes.old.items }
    ensures wide { AreWide (length links.now.kinds.items) inboxes.new.items }
    ensures ok { OnOk result (AllTurn inboxes.old.items inboxes.new.items (λ n r. one_packet links.now.plan links.now.kinds.items n from true r packet.now)) }
    ensures err { OnErr result (AllTurn inboxes.old.items inboxes.new.items (λ n r. r)) }
{
    let to = packet.0;
    let at = usize::from(to);
    if at >= inboxes.len() {
        return Ok(());
    }
    inboxes[at].receive(links, from, to, &packet.1)
}

fn lose_all(inboxes: &mut Vec<Inbox>, from: u16, packets: &[(u16, Payload)])
    requires from { from < length inboxes.old.items }
    requires wide { AreWide (length inboxes.old.items) inboxes.old.items }
    ensures nodes { length inboxes.new.items ≡ length inboxes.old.items }
    ensures wide { AreWide (length inboxes.old.items) inboxes.new.items }
    ensures lost { (plan : PlanView) (kinds : List Kind) → AllTurn inboxes.old.items inboxes.new.items (λ n r. fold (one_packet plan kinds n from false) r packets.now) }
{
    for packet in packets {
        lose(inboxes, from, packet.0);
    }
}

// Counts one packet as lost, if some node is its receiver.
fn lose(inboxes: &mut Vec<Inbox>, from: u16, to: u16)
    requires from { from < length inboxes.old.items }
    requires wide { AreWide (length inboxes.old.items) inboxes.old.items }
    ensures nodes { length inboxes.new.items ≡ length inboxes.old.items }
    ensures wide { AreWide (length inboxes.old.items) inboxes.new.items }
    ensures lost { (plan : PlanView) (kinds : List Kind) (bytes : List ℕ) → AllTurn inboxes.old.items inboxes.new.items (λ n r. one_packet plan kinds n from false r (to, bytes)) }
{
    let at = usize::from(to);
    if at >= inboxes.len() {
        return;
    }
    inboxes[at].lose(from);
}
