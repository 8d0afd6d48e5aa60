// What all nodes of a run are built for.
use crate::node::Node;
use time_shards::Table;

/// The numbers of a run, the same for all of its nodes.
#[derive(Clone, Copy, Debug)]
pub struct Config {
    /// In microseconds: ids below it are too old.
    pub horizon: u64,
    /// How many joiners a site has.
    pub joiners: u8,
    pub table: Table,
    /// The most inserts of a batch.
    pub batch: u8,
    /// How many replicas there are.
    pub replicas: u8,
}

impl Config {
    ghost use Rattle.std.specs.Prelude.{◌≡◌};
    ghost use Rattle.turn_defs.specs.Setting.{Setting};
    ghost use Rattle.turn_defs.specs.Nodes.{node_of};

    /// The node of a number, in constant time.
    pub fn node(self, number: u16) -> Option<Node>
        ensures { (g : Setting) → g.config ≡ self → result ≡ node_of g number }
    {
        let first_joiner = 4 + u16::from(self.replicas);
        let end = first_joiner + 2 * u16::from(self.joiners);
        if number < 2 {
            Some(Node::Dispatcher(number as u8))
        } else if number < 4 {
            Some(Node::Server((number - 2) as u8))
        } else if number < first_joiner {
            Some(Node::Replica((number - 4) as u8))
        } else if number < end {
            Some(Node::Joiner(number))
        } else {
            None
        }
    }
}
