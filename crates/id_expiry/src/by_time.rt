ghost use Rattle.std.specs.Prelude.{◌≡◌};
ghost use Rattle.id_expiry.specs.Times.{of_id};

use event_id::EventId;

/// An id, ordered by its time first.
#[derive(Clone, Copy, Debug, PartialEq, Eq, PartialOrd, Ord)]
pub struct ByTime {
    pub micros: u64,
    pub ip: u32,
    pub pid: u32,
}

/// An id as it is ordered by time.
pub fn by_time(id: EventId) -> ByTime
    ensures { result ≡ of_id id }
{
    ByTime {
        micros: id.micros,
        ip: id.ip,
        pid: id.pid,
    }
}
