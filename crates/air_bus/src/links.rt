//! What a plan does to the links between the nodes.
ghost use Rattle.std.specs.Prelude.{◌≡◌, ℕ, ◌<◌, ◌^◌, IfOk, length, slice_index_or, false, ◌==◌};
ghost use Rattle.std.specs.Option.{option_map_or};
ghost use Rattle.air_bus.specs.Waiting.{LeftOut, is_dead, is_replica as kind_is_replica, link_fate};

use lossy_link::{Fate, Kind, Plan};
use std::alloc::{AllocError, Global};

#[derive(Drop)]
pub(crate) struct Links {
    pub(crate) plan: Plan,
    pub(crate) kinds: Vec<Kind>,
    // Whether each node is the dead replica.
    dead: Vec<bool>,
    ghost wide: { length dead.items ≡ length kinds.items },
    ghost known: { (n : ℕ) → n < length kinds.items → slice_index_or dead.items n false ≡ is_dead plan.dead kinds.items n },
}

impl Links {
    pub(crate) fn new(alloc: Global, nodes: &[Kind], plan: Plan) -> Result<Links, AllocError>
        ensures kinds { IfOk result (λ l. l.kinds.items ≡ nodes.now) }
        ensures plan { IfOk result (λ l. l.plan ≡ plan) }
    {
        let kinds = Vec::from_slice(alloc, nodes)?;
        let dead = dead_nodes(alloc, &kinds, plan.dead())?;
        Ok(Links { plan, kinds, dead })
    }

    // What becomes of the packet of this ordinal.
    pub(crate) fn fate(&self, from: u16, to: u16, ordinal: u64) -> Fate
        requires from { from < length self.now.kinds.items }
        requires to { to < length self.now.kinds.items }
        ensures { result ≡ link_fate self.now.plan self.now.kinds.items from to ordinal }
    {
        let sender = usize::from(from);
        let receiver = usize::from(to);
        if self.dead[receiver] {
            return Fate::Drop;
        }
        self.plan
            .fate(self.kinds[sender], self.kinds[receiver], ordinal)
    }

    // The numbers of the dead nodes.
    pub(crate) fn left_out(&self, alloc: Global) -> Result<Vec<u16>, AllocError>
        requires { length self.now.kinds.items < 2 ^ 16 }
        ensures { IfOk result (λ numbers. LeftOut self.now.plan self.now.kinds.items numbers.items) }
    {
        let mut numbers = Vec::new(alloc);
        for node in 0..self.dead.len() as u16 {
            if self.is_dead(usize::from(node)) {
                numbers.push(node)?;
            }
        }
        Ok(numbers)
    }

    pub(crate) fn is_dead(&self, node: usize) -> bool
        requires { node < length self.now.kinds.items }
        ensures { result ≡ is_dead self.now.plan.dead self.now.kinds.items node }
    {
        self.dead[node]
    }
}

fn dead_nodes(alloc: Global, kinds: &[Kind], dead: Option<u8>) -> Result<Vec<bool>, AllocError>
    ensures wide { IfOk result (λ v. length v.items ≡ length kinds.now) }
    ensures known { IfOk result (λ v. (n : ℕ) → n < length kinds.now → slice_index_or v.items n false ≡ is_dead dead kinds.now n) }
{
    let mut list = Vec::new(alloc);
    let mut replicas = 0;
    for kind in kinds {
        let is_replica = is_replica(*kind);
        list.push(is_number(dead, replicas) && is_replica)?;
        replicas += usize::from(is_replica);
    }
    Ok(list)
}

fn is_replica(kind: Kind) -> bool
    ensures { result ≡ kind_is_replica kind }
{
    kind == Kind::Replica
}

fn is_number(dead: Option<u8>, replica: usize) -> bool
    ensures { result ≡ option_map_or (λ d. replica == d) dead false }
{
    match dead {
        Some(number) => replica == usize::from(number),
        None => false,
    }
}
