//! What the calls on the Air do at one node, or at all.
ghost use Rattle.std.specs.Prelude.{◌≡◌, ◌<◌, ℕ, IfOk, length, slice_index_or, sum_by, true, false, [], ◌==◌, if◌then◌else◌};
ghost use Rattle.air_bus.specs.declared.entry.Phase.TheVariants.{Down, Idle};
ghost use Rattle.air_bus.specs.declared.inbox.Inbox.{Inbox};
ghost use Rattle.air_bus.specs.Airs.{open_of};
ghost use Rattle.air_bus.specs.Copies.{next_copy};
ghost use Rattle.air_bus.specs.History.{next_input};
ghost use Rattle.air_bus.specs.Inboxes.{Keeps, AllTurn};
ghost use Rattle.air_bus.specs.Waiting.{Received, nothing, is_dead, taken_by};

use crate::entry::{Input, Phase};
use crate::inbox::Inbox;
use crate::links::Links;
use std::alloc::{AllocError, Global};

pub(crate) fn all_down(alloc: Global, nodes: usize) -> Result<Vec<Phase>, AllocError>
    ensures many { IfOk result (λ v. length v.items ≡ nodes) }
    ensures down { IfOk result (λ v. (n : ℕ) → slice_index_or v.items n Down ≡ Down) }
    ensures none_open { IfOk result (λ v. sum_by open_of v.items ≡ 0) }
{
    let mut phases = Vec::new(alloc);
    for _ in 0..nodes {
        phases.push(Phase::Down)?;
    }
    Ok(phases)
}

pub(crate) fn empty_inboxes(alloc: Global, nodes: usize) -> Result<Vec<Inbox>, AllocError>
    ensures many { IfOk result (λ v. length v.items ≡ nodes) }
    ensures empty { IfOk result (λ v. (n : ℕ) (d : Inbox) → n < nodes → Keeps nodes (slice_index_or v.items n d) nothing) }
{
    let mut inboxes = Vec::new(alloc);
    for _ in 0..nodes {
        inboxes.push(Inbox::new(alloc, nodes)?)?;
    }
    Ok(inboxes)
}

// What a turn of the node begins with.
pub(crate) fn choose(
    inboxes: &mut Vec<Inbox>,
    at: usize,
    phase: Phase,
    wants: bool,
    tick: bool,
) -> Result<Option<Input>, AllocError>
    requires { at < length inboxes.old.items }
    ensures answer { IfOk result (λ i. (nodes : ℕ) (r : Received) → ((d : Inbox) → Keeps nodes (slice_index_or inboxes.old.items at d) r) → i ≡ next_input phase (next_copy r.copies) tick wants) }
    ensures same { AllTurn inboxes.old.items inboxes.new.items (λ n r. r) }
    ensures many { length inboxes.new.items ≡ length inboxes.old.items }
{
    let inbox = &mut inboxes[at];
    inbox.choose(phase, wants, tick)
}

// Takes the packet out that the node's input is.
pub(crate) fn leave(inboxes: &mut Vec<Inbox>, at: usize, input: &Input)
    requires { at < length inboxes.old.items }
    ensures taken { AllTurn inboxes.old.items inboxes.new.items (λ n r. if at == n then taken_by input.now r else r) }
    ensures many { length inboxes.new.items ≡ length inboxes.old.items }
{
    let inbox = &mut inboxes[at];
    inbox.leave(input);
}

// Whether each node but a dead replica is up with no open turn.
pub(crate) fn all_idle(phases: &[Phase], links: &Links) -> bool
    requires { length phases.now ≡ length links.now.kinds.items }
    ensures yes { result ≡ true → (n : ℕ) → n < length phases.now → is_dead links.now.plan.dead links.now.kinds.items n ≡ false → slice_index_or phases.now n Down ≡ Idle }
    ensures no { ((n : ℕ) → n < length phases.now → is_dead links.now.plan.dead links.now.kinds.items n ≡ false → slice_index_or phases.now n Down ≡ Idle) → result ≡ true }
{
    for i in 0..phases.len() {
        if !links.is_dead(i) && phases[i] != Phase::Idle {
            return false;
        }
    }
    true
}

// Whether nothing waits for any node.
pub(crate) fn all_empty(inboxes: &[Inbox]) -> bool
    ensures { (nodes : ℕ) (copies : ℕ → Received) → ((n : ℕ) (d : Inbox) → n < length inboxes.now → Keeps nodes (slice_index_or inboxes.now n d) (copies n))
        → (result ≡ true → (n : ℕ) → n < length inboxes.now → (copies n).copies ≡ []) × (((n : ℕ) → n < length inboxes.now → (copies n).copies ≡ []) → result ≡ true) }
{
    for inbox in inboxes {
        if !inbox.is_empty() {
            return false;
        }
    }
    true
}
