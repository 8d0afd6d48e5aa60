// The logs of a run.
/// The logs, opened once for each node that reads one: the click log for each site, and the query log for each joiner.
#[derive(Drop)]
pub struct Logs<L> {
    pub clicks: Vec<L>,
    pub queries: Vec<L>,
}
