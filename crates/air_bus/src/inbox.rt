//! What one node was sent.
ghost use Rattle.std.specs.Prelude.{◌≡◌, ◌<◌, ℕ, IfOk, OnOk, OnErr, length, true, false, List, []};
ghost use Rattle.air_bus.specs.Inputs.{or_other as packet_or_other};

use crate::entry::{Input, Phase};
use crate::links::Links;
use crate::payload::Payload;
use crate::queue::Queue;
use std::alloc::{AllocError, Global};

#[derive(Drop)]
pub(crate) struct Inbox {
    // How many packets each node has sent here, lost ones too. A count stands still at its type's end.
    pub(crate) sent: Vec<u64>,
    pub(crate) queue: Queue,
}

impl Inbox {
    ghost use Rattle.lossy_link.specs.declared.plan.Kind.{Kind};
    ghost use Rattle.lossy_link.specs.Fates.{PlanView};
    ghost use Rattle.air_bus.specs.Copies.{next_copy};
    ghost use Rattle.air_bus.specs.History.{next_input};
    ghost use Rattle.air_bus.specs.Inboxes.{Keeps, Turns};
    ghost use Rattle.air_bus.specs.Waiting.{Received, nothing, puts_one, taken_by};

    pub(crate) fn new(alloc: Global, nodes: usize) -> Result<Inbox, AllocError>
        ensures { IfOk result (λ i. Keeps nodes i nothing) }
    {
        let sent = vec![in alloc; 0u64; nodes]?;
        let queue = Queue::new(alloc);
        Ok(Inbox { sent, queue })
    }

    pub(crate) fn is_empty(&self) -> bool
        ensures { (nodes : ℕ) (r : Received) → Keeps nodes self.now r → (result ≡ true → r.copies ≡ []) × (r.copies ≡ [] → result ≡ true) }
    {
        self.queue.is_empty()
    }

    // A packet from that node. With an error it hasn't come.
    pub(crate) fn receive(
        &mut self,
        links: &Links,
        from: u16,
        to: u16,
        bytes: &Payload,
    ) -> Result<(), AllocError>
        requires counted { from < length self.old.sent.items }
        requires from { from < length links.now.kinds.items }
        requires to { to < length links.now.kinds.items }
        ensures ok { OnOk result (Turns self.old self.new (puts_one links.now.plan links.now.kinds.items to from bytes.now true)) }
        ensures err { OnErr result (Turns self.old self.new (λ r. r)) }
        ensures width { length self.new.sent.items ≡ length self.old.sent.items }
    {
        let sender = usize::from(from);
        let ordinal = self.sent[sender];
        if ordinal == u64::MAX {
            return Err(AllocError);
        }
        let fate = links.fate(from, to, ordinal);
        self.queue.receive(fate, from, bytes)?;
        self.sent[sender] = ordinal + 1;
        Ok(())
    }

    // A packet from that node is lost, and counts.
    pub(crate) fn lose(&mut self, from: u16)
        requires { from < length self.old.sent.items }
        ensures lost { (plan : PlanView) (kinds : List Kind) (to : ℕ) (bytes : List ℕ) → Turns self.old self.new (puts_one plan kinds to from bytes false) }
        ensures width { length self.new.sent.items ≡ length self.old.sent.items }
    {
        let sender = usize::from(from);
        self.sent[sender] = self.sent[sender].saturating_add(1);
    }

    // What a turn begins with.
    pub(crate) fn choose(
        &mut self,
        phase: Phase,
        wants: bool,
        tick: bool,
    ) -> Result<Option<Input>, AllocError>
        ensures answer { IfOk result (λ i. (nodes : ℕ) (r : Received) → Keeps nodes self.old r → i ≡ next_input phase (next_copy r.copies) tick wants) }
        ensures same { Turns self.old self.new (λ r. r) }
        ensures width { length self.new.sent.items ≡ length self.old.sent.items }
    {
        if let Phase::Down = phase {
            return Ok(Some(Input::Start));
        }
        let first = self.queue.first()?;
        Ok(or_other(first, wants, tick))
    }

    // Takes the packet out that the input is.
    pub(crate) fn leave(&mut self, input: &Input)
        ensures taken { Turns self.old self.new (taken_by input.now) }
        ensures width { length self.new.sent.items ≡ length self.old.sent.items }
    {
        if let Input::Packet { .. } = input {
            self.queue.take();
        }
    }
}

fn or_other(first: Option<Input>, wants: bool, tick: bool) -> Option<Input>
    ensures { result ≡ packet_or_other first tick wants }
{
    match first {
        Some(input) => Some(input),
        None if tick => Some(Input::Tick),
        None if wants => Some(Input::Own),
        None => None,
    }
}
