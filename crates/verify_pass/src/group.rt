// Which batch of those that were accepted in a place is chosen there.
ghost use Rattle.std.specs.Prelude.{◌≡◌, ◌==◌, ◌&&◌, ◌≤◌, Some, option_map, if◌then◌else◌};
ghost use Rattle.ballot_core.specs.Ballots.{is_same};
ghost use Rattle.verify_pass.specs.Terms.{same_batch};
ghost use Rattle.paxos_defs.specs.Decided as paxos;
ghost use Rattle.verify_pass.specs.Groups.{did_replica, is_cast_by, is_most, picked, value_of};

use ballot_core::Ballot;
use registry_state::Batch;

/// That a replica, by its place among the journals, accepted a batch at a ballot.
#[derive(Clone, Copy, Debug)]
pub struct Acceptance<'a> {
    pub replica: usize,
    pub ballot: Ballot,
    pub batch: &'a Batch,
}

/// Of those whose batch more than half of so many replicas accepted at their ballot, the first one at the least ballot.
///
/// Quadratic in the group: it compares each batch with those that were accepted at the same ballot, and for each of the
/// group it goes through the group once a replica. It takes no memory.
pub fn pick<'a>(group: &[Acceptance<'a>], replicas: usize) -> Option<Acceptance<'a>>
    ensures { option_map value_of result ≡ picked replicas group.now }
{
    let mut least = None;
    for taken in 0..group.len() {
        let one = group[group.len() - 1 - taken];
        if is_most(group, replicas, &one) {
            least = Some(lower(one, least));
        }
    }
    least
}

// The one at the lower ballot, and the first one where both ballots are one.
fn lower<'a>(one: Acceptance<'a>, least: Option<Acceptance<'a>>) -> Acceptance<'a>
    ensures { Some (value_of result) ≡ paxos.lower same_batch (value_of one.entry) (option_map value_of least.entry) }
{
    match least {
        Some(least) if least.ballot < one.ballot => least,
        _ => one,
    }
}

// Whether more than half of so many replicas accepted this batch at this ballot.
fn is_most(group: &[Acceptance], replicas: usize, one: &Acceptance) -> bool
    ensures { result ≡ is_most replicas group.now (value_of one.now) }
{
    let mut count: usize = 0;
    for replica in 0..replicas {
        count += mark(group, replica, one);
    }
    count > replicas - count
}

// 1 where the replica accepted this batch at this ballot, else 0.
fn mark(group: &[Acceptance], replica: usize, one: &Acceptance) -> usize
    ensures mark { result ≡ (if did_replica group.now (value_of one.now) replica then 1 else 0) }
    ensures few { result ≤ 1 }
{
    if did_accept(group, replica, one) {
        1
    } else {
        0
    }
}

fn did_accept(group: &[Acceptance], replica: usize, one: &Acceptance) -> bool
    ensures { result ≡ did_replica group.now (value_of one.now) replica }
{
    group.iter().any(|other| is_same(other, replica, one))
}

fn is_same(other: &Acceptance, replica: usize, one: &Acceptance) -> bool
    ensures { result ≡ is_cast_by replica (value_of one.now) other.now }
{
    other.replica == replica && other.ballot == one.ballot && other.batch.is_same(one.batch)
}
