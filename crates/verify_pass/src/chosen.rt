// Which batch is chosen in each place.
ghost use Rattle.std.specs.Prelude.{◌≡◌, ◌++◌, ◌∷◌, [], map, IfOk, OnOk, option_map, if◌then◌else◌};
ghost use Rattle.paxos_defs.specs.declared.Place.{Place as Spot};
ghost use Rattle.verify_pass.specs.Terms.{is_place, note_view, same_batch};
ghost use Rattle.paxos_defs.specs.Decided as paxos;
ghost use Rattle.verify_pass.specs.Groups.{casts};
ghost use Rattle.verify_pass.specs.Chosen.{batch_at, casts_at, group_at, group_in, EndsBy};

use crate::NoteList;
use crate::group::{Acceptance, pick};
use paxos_acceptor::ReplicaNote;
use paxos_defs::Place;
use registry_state::Batch;
use std::alloc::{AllocError, Global};
use std::collections::HashMap;

/// What the replicas accepted in each place, in the order of the journals, from which a place's batch is chosen.
#[derive(Drop)]
pub struct Chosen<'a> {
    groups: HashMap<Place, Vec<Acceptance<'a>>>,
    replicas: usize,
    /// The greatest slot of such a place.
    last: u64,
}

impl<'a> Chosen<'a> {
    /// By the replicas' notes, in one pass. It takes memory for each acceptance, and copies no batch.
    pub fn of(alloc: Global, journals: &'a [NoteList]) -> Result<Chosen<'a>, AllocError>
        ensures batches { IfOk result (λ chosen. (p : Spot) → batch_at chosen p ≡ paxos.chosen same_batch (map (map note_view) journals.now) p) }
        ensures last { IfOk result (λ chosen. EndsBy chosen) }
    {
        let mut chosen = Chosen {
            groups: HashMap::new(alloc),
            replicas: journals.len(),
            last: 0,
        };
        for replica in 0..journals.len() {
            chosen.take_all(alloc, replica, journals[replica].as_slice())?;
        }
        Ok(chosen)
    }

    /// The batch that is chosen in the place: of the batches that more than half of the replicas accepted at one ballot,
    /// the one at the least ballot, and of those the first.
    ///
    /// Constant expected time to find what was accepted in the place, and then quadratic in that, as `pick` is.
    pub fn get(&self, place: Place) -> Option<&'a Batch>
        ensures { option_map (λ b. b.now) result ≡ batch_at self.now place }
    {
        let group = self.groups.get(&place)?;
        let picked = pick(group, self.replicas)?;
        Some(picked.batch)
    }

    /// The last slot, in any shard, of a place in which something was accepted; 0 where nothing was.
    pub fn last(&self) -> u64
        ensures { result ≡ self.now.last }
    {
        self.last
    }

    fn take_all(
        &mut self,
        alloc: Global,
        replica: usize,
        notes: &'a [ReplicaNote],
    ) -> Result<(), AllocError>
        ensures casts { OnOk result ((p : Spot) → casts_at self.new p ≡ casts_at self.old p ++ casts replica notes.now p) }
        ensures last { OnOk result (EndsBy self.old → EndsBy self.new) }
        ensures replicas { self.new.replicas ≡ self.old.replicas }
    {
        for note in notes {
            self.take_note(alloc, replica, note)?;
        }
        Ok(())
    }

    fn take_note(
        &mut self,
        alloc: Global,
        replica: usize,
        note: &'a ReplicaNote,
    ) -> Result<(), AllocError>
        ensures casts { OnOk result ((p : Spot) → casts_at self.new p ≡ casts_at self.old p ++ casts replica (note.now ∷ []) p) }
        ensures last { OnOk result (EndsBy self.old → EndsBy self.new) }
        ensures replicas { self.new.replicas ≡ self.old.replicas }
    {
        match note {
            ReplicaNote::Promised { .. } => Ok(()),
            ReplicaNote::Accepted {
                shard,
                slot,
                ballot,
                batch,
            } => {
                let place = Place {
                    shard: *shard,
                    slot: *slot,
                };
                let one = Acceptance {
                    replica,
                    ballot: *ballot,
                    batch,
                };
                self.keep(alloc, place, one)
            }
        }
    }

    // Puts the acceptance last among those of its place.
    fn keep(&mut self, alloc: Global, place: Place, one: Acceptance<'a>) -> Result<(), AllocError>
        ensures group { OnOk result ((p : Spot) → group_at self.new p ≡ group_at self.old p ++ (if is_place place p then one.entry ∷ [] else [])) }
        ensures last { OnOk result (EndsBy self.old → EndsBy self.new) }
        ensures replicas { self.new.replicas ≡ self.old.replicas }
    {
        join(&mut self.groups, alloc, place, one)?;
        self.last = self.last.max(place.slot);
        Ok(())
    }
}

fn join<'a>(
    groups: &mut HashMap<Place, Vec<Acceptance<'a>>>,
    alloc: Global,
    place: Place,
    one: Acceptance<'a>,
) -> Result<(), AllocError>
    ensures { OnOk result ((p : Spot) → group_in groups.new p ≡ group_in groups.old p ++ (if is_place place p then one.entry ∷ [] else [])) }
{
    let group = groups.entry(place)?.or_insert(Vec::new(alloc));
    group.push(one)?;
    Ok(())
}
