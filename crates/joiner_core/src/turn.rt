// A turn that was decided.
ghost use Rattle.std.specs.Prelude.{◌≡◌, IfOk};

use crate::flights::Waiting;
use event_id::EventId;
use registry_state::Insert;
use std::alloc::AllocError;
use turn_defs::PairRec;

/// A record to be written on one of the joiner's disks.
#[derive(Debug, Drop)]
pub enum JoinerNote {
    /// On its epoch disk: the epoch that begins.
    Epoch(u32),
    /// On its output disk: a click and its query, under the token that holds the click's id.
    Pair(PairRec),
}

impl JoinerNote {
    /// The same note once more, in constant time.
    pub fn share(&self) -> Result<JoinerNote, AllocError>
        ensures { IfOk result (λ shared. shared ≡ self.now) }
    {
        match self {
            JoinerNote::Epoch(epoch) => Ok(JoinerNote::Epoch(*epoch)),
            JoinerNote::Pair(pair) => Ok(JoinerNote::Pair(PairRec {
                click: pair.click.share()?,
                query: pair.query.share()?,
                token: pair.token,
            })),
        }
    }
}

/// What keeping a turn does.
#[derive(Debug, Drop)]
pub enum Change {
    /// Nothing.
    Stay,
    /// This epoch begins.
    Begin(u32),
    /// A join of the click with this id is in flight.
    Fly(EventId, Waiting),
    /// The join that registers this is answered.
    Land(Insert),
}

/// A turn that was decided: the note to be written before anything else, the packets to be sent after that, and what
/// keeping it does.
pub type Turn = site_node::Turn<JoinerNote, Change>;
