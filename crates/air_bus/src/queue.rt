//! The copies that wait for one node.
ghost use Rattle.std.specs.Prelude.{◌≡◌, ◌+◌, ◌<◌, ◌≤◌, ◌↔◌, ◌^◌, [], ◌∷◌, ◌++◌, IsTrue, OnOk, OnErr, IfOk, option_map, false, slice_index_or, IsPermutation};
ghost use Rattle.std.specs.List.{All};
ghost use Rattle.std.specs.BinaryHeap.{IsHeap, KeepsHeap, heap_capacity, heap_items, heap_len};
ghost use Rattle.std.specs.Cmp.{partial_order_from_own_ties};
ghost use Rattle.std.specs.Cmp.Rules.{comparing};
ghost use Rattle.std.specs.Ordering.{nat_cmp, on, flip_args, then_cmp, as_partial_cmp};
ghost use Rattle.std.proofs.Common.{rules};
ghost use Rattle.std.proofs.Props.{props};

use crate::entry::Input;
use crate::payload::Payload;
use lossy_link::Fate;
use std::alloc::{AllocError, Global};
use std::cmp::Ordering;
use std::collections::BinaryHeap;

// No queue has more copies in a run.
const MOST_PLACES: u64 = (1 << 63) - (1 << 32) - 2;

// A copy that waits. The least of two is the one that comes later.
#[derive_where(PartialEq, Eq)]
#[derive(Drop)]
pub(crate) struct Parcel {
    // The number of packets taken when it has no delay left.
    pub(crate) due: u64,
    // Its number among all copies, in the order of arrival.
    pub(crate) place: u64,
    #[derive_where(skip(EqHashOrd))]
    pub(crate) from: u16,
    #[derive_where(skip(EqHashOrd))]
    pub(crate) bytes: Payload,
}

impl Ord for Parcel {
    ghost cmp = { then_cmp (flip_args (on (λ p. p.due) nat_cmp)) (flip_args (on (λ p. p.place) nat_cmp)) };

    ghost total = { Prim.search (comparing, rules) };

    ghost matches_partial_cmp = { Prim.search (comparing, rules) };

    ghost matches_eq = { Prim.search (comparing, rules) };

    fn cmp(&self, other: &Parcel) -> Ordering {
        other.due.cmp(&self.due).then(other.place.cmp(&self.place))
    }
}

impl PartialOrd for Parcel {
    ghost partial_cmp = { as_partial_cmp (then_cmp (flip_args (on (λ p. p.due) nat_cmp)) (flip_args (on (λ p. p.place) nat_cmp))) };

    ghost laws = { partial_order_from_own_ties (Prim.search (comparing, rules)) (Prim.search (comparing, rules)) };

    fn partial_cmp(&self, other: &Parcel) -> Option<Ordering> {
        Some(self.cmp(other))
    }
}

#[derive(Drop)]
pub(crate) struct Queue {
    // How many packets were taken.
    pub(crate) taken: u64,
    // The place of the next copy.
    pub(crate) next: u64,
    // The copies without delay. Their due moment is 0, so that they stand by their places alone.
    pub(crate) ready: BinaryHeap<Parcel>,
    // The copies that had a delay when they were put here. It may be over.
    pub(crate) late: BinaryHeap<Parcel>,
    ghost ready_ordered: { IsHeap (then_cmp (flip_args (on (λ p. p.due) nat_cmp)) (flip_args (on (λ p. p.place) nat_cmp))) (heap_items ready) } by { Prim.hlevel props },
    ghost late_ordered: { IsHeap (then_cmp (flip_args (on (λ p. p.due) nat_cmp)) (flip_args (on (λ p. p.place) nat_cmp))) (heap_items late) } by { Prim.hlevel props },
    ghost ready_due: { All (λ p. p.due ≡ 0) (heap_items ready) } by { Prim.hlevel props },
    ghost room: { heap_len ready + heap_len late ≤ heap_capacity ready },
    ghost counted: { taken + (heap_len ready + heap_len late) ≡ next },
}

impl Queue {
    ghost use Rattle.std.specs.Prelude.{List};
    ghost use Rattle.air_bus.specs.Copies.{Copy, copy, copies_of, next_copy, left_by};
    ghost use Rattle.air_bus.specs.Inputs.{packet_input};
    ghost use Rattle.air_bus.specs.Queues.{Holds, HoldsOn, HasRoom, IsSettled, copy_at};

    pub(crate) fn new(alloc: Global) -> Queue
        ensures { Holds result [] }
    {
        Queue {
            taken: 0,
            next: 0,
            ready: BinaryHeap::new(alloc),
            late: BinaryHeap::new(alloc),
        }
    }

    pub(crate) fn is_empty(&self) -> bool
        ensures { (copies : List Copy) → Holds self.now copies → (IsTrue result ↔ (copies ≡ [])) }
    {
        self.ready.is_empty() && self.late.is_empty()
    }

    // The copies of one packet more, the last.
    pub(crate) fn receive(
        &mut self,
        fate: Fate,
        from: u16,
        bytes: &Payload,
    ) -> Result<(), AllocError>
        ensures ok { OnOk result ((copies : List Copy) → Holds self.old copies → Holds self.new (copies ++ copies_of fate from bytes.now)) }
        ensures err { OnErr result (HoldsOn self.old self.new) }
    {
        match fate {
            Fate::Deliver => self.once(0, from, bytes),
            Fate::Drop => Ok(()),
            Fate::Twice(by) => self.twice(by, from, bytes),
            Fate::Late(by) => self.once(by, from, bytes),
        }
    }

    fn once(&mut self, delay: u32, from: u16, bytes: &Payload) -> Result<(), AllocError>
        ensures ok { OnOk result ((copies : List Copy) → Holds self.old copies → Holds self.new (copies ++ copy delay from bytes.now ∷ [])) }
        ensures err { OnErr result (HoldsOn self.old self.new) }
    {
        self.make_room()?;
        let bytes = bytes.share()?;
        self.add(delay, from, bytes);
        Ok(())
    }

    fn twice(&mut self, by: u32, from: u16, bytes: &Payload) -> Result<(), AllocError>
        ensures ok { OnOk result ((copies : List Copy) → Holds self.old copies → Holds self.new (copies ++ copy 0 from bytes.now ∷ copy by from bytes.now ∷ [])) }
        ensures err { OnErr result (HoldsOn self.old self.new) }
    {
        self.make_room()?;
        let first = bytes.share()?;
        let again = bytes.share()?;
        self.add(0, from, first);
        self.add(by, from, again);
        Ok(())
    }

    // Room for two copies.
    fn make_room(&mut self) -> Result<(), AllocError>
        ensures ok { OnOk result (HasRoom self.new 2) }
        ensures same { HoldsOn self.old self.new }
    {
        if self.next > MOST_PLACES {
            return Err(AllocError);
        }
        self.ready.reserve(self.late.len() + 2)?;
        self.late.reserve(2)
    }

    // One copy more, the last.
    fn add(&mut self, delay: u32, from: u16, bytes: Payload)
        requires { HasRoom self.old 1 }
        ensures holds { (copies : List Copy) → Holds self.old copies → Holds self.new (copies ++ copy delay from bytes ∷ []) }
        ensures room { HasRoom self.old 2 → HasRoom self.new 1 }
    {
        let place = self.next;
        self.next += 1;
        if delay == 0 {
            let parcel = Parcel {
                due: 0,
                place,
                from,
                bytes,
            };
            put(&mut self.ready, parcel);
        } else {
            let parcel = Parcel {
                due: self.taken + u64::from(delay),
                place,
                from,
                bytes,
            };
            put(&mut self.late, parcel);
        }
    }

    // The copy that is next, as an input.
    pub(crate) fn first(&mut self) -> Result<Option<Input>, AllocError>
        ensures ok { IfOk result (λ i. (copies : List Copy) → Holds self.old copies → i ≡ option_map packet_input (next_copy copies)) }
        ensures same { HoldsOn self.old self.new }
    {
        self.settle();
        match self.least() {
            Some(parcel) => {
                let bytes = parcel.bytes.share()?;
                let from = parcel.from;
                Ok(Some(Input::Packet { from, bytes }))
            }
            None => Ok(None),
        }
    }

    // Takes the copy that is next.
    pub(crate) fn take(&mut self)
        ensures { (copies : List Copy) → Holds self.old copies → Holds self.new (left_by copies) }
    {
        self.settle();
        self.take_least();
    }

    // Afterwards all copies that are due stand by their places. Each copy gets there once.
    fn settle(&mut self)
        ensures same { HoldsOn self.old self.new }
        ensures settled { IsSettled self.new }
    {
        while self.ripen() {}
    }

    // A copy that is due goes to those without delay, if there is one.
    fn ripen(&mut self) -> bool
        ensures same { HoldsOn self.old self.new }
        ensures moved { IsTrue result → heap_len self.new.late < heap_len self.old.late }
        ensures settled { result ≡ false → IsSettled self.new }
    {
        if !self.has_due() {
            return false;
        }
        let Some(parcel) = self.late.pop() else {
            return false;
        };
        let Parcel {
            place,
            from,
            bytes,
            ..
        } = parcel;
        let parcel = Parcel {
            due: 0,
            place,
            from,
            bytes,
        };
        put(&mut self.ready, parcel);
        true
    }

    // Whether the first of the late copies is due.
    fn has_due(&self) -> bool
        ensures due { IsTrue result → (d : Parcel) → (slice_index_or (heap_items self.now.late) 0 d).due ≤ self.now.taken }
        ensures settled { result ≡ false → IsSettled self.now }
    {
        match self.late.peek() {
            Some(first) => first.due <= self.taken,
            None => false,
        }
    }

    fn least(&self) -> Option<&Parcel>
        requires { IsSettled self.now }
        ensures { (copies : List Copy) → Holds self.now copies → option_map (λ p. copy_at self.now.taken p.now) result ≡ next_copy copies }
    {
        match self.ready.peek() {
            Some(parcel) => Some(parcel),
            None => self.late.peek(),
        }
    }

    fn take_least(&mut self)
        requires { IsSettled self.old }
        ensures { (copies : List Copy) → Holds self.old copies → Holds self.new (left_by copies) }
    {
        if let Some(_parcel) = self.ready.pop() {
            self.taken += 1;
        } else {
            self.take_late();
        }
    }

    fn take_late(&mut self)
        requires settled { IsSettled self.old }
        requires none { heap_len self.old.ready ≡ 0 }
        ensures { (copies : List Copy) → Holds self.old copies → Holds self.new (left_by copies) }
    {
        match self.late.pop() {
            Some(_parcel) => self.taken += 1,
            None => return,
        }
    }
}

fn put(heap: &mut BinaryHeap<Parcel>, parcel: Parcel)
    requires { heap_len heap.old < heap_capacity heap.old }
    ensures len { heap_len heap.new ≡ heap_len heap.old + 1 }
    ensures capacity { heap_capacity heap.old ≤ heap_capacity heap.new }
    ensures items { IsPermutation (parcel ∷ heap_items heap.old) (heap_items heap.new) }
    ensures order { KeepsHeap (then_cmp (flip_args (on (λ p. p.due) nat_cmp)) (flip_args (on (λ p. p.place) nat_cmp))) (heap_items heap.old) (heap_items heap.new) }
{
    let _ = heap.push(parcel);
}
