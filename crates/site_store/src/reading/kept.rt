use topology_journal::Topology;
use verify_pass::Journals;

/// What a store keeps: its topology, if it keeps one, and the records of its replicas and outputs. The outputs of site A come
/// before those of site B; there are none where no topology is kept.
#[derive(Debug, Drop)]
pub struct KeptStore {
    pub topology: Option<Topology>,
    pub journals: Journals,
}
