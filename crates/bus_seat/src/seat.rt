// Seats, and what was seen and made with them.
ghost use Rattle.std.specs.Prelude.{◌≡◌};
ghost use Rattle.bus_seat.specs.Seats.{sight, IsAtRest};

use super::view::View;
use air_bus::Air;
use std::marker::Model;
use std::snapshot::Snapshot;

pub type Place = atomic_table::Seat<Air, View>;

/// The right to make the entries of one node, or of none. Contracts see what was seen and made with it. It holds two
/// bytes and the option's.
#[derive(Drop)]
pub struct Seat {
    // Its number, or none for the run's seat.
    pub(crate) node: Option<u16>,
    pub(crate) place: Place,
}

impl Model for Seat {
    ghost use Rattle.std.specs.Prelude.{◌≡◌};
    ghost use Rattle.bus_seat.specs.Seats.{Sight, sight, IsAtRest};

    ghost Value = { Sight };

    ghost view = { λ s. sight s.place.table_id s.place.me.0 };

    ghost invariant = { λ s. IsAtRest s.place.me.0.base s.place.me × (s.place.me.0.number ≡ s.node) };
}

impl Seat {
    pub(crate) fn into_place(self) -> Place
        ensures seat { sight result.table_id result.me.0 ≡ self }
        ensures rest { IsAtRest result.me.0.base result.me }
    {
        let Seat { node: _, place } = self;
        place
    }
}

/// What was seen and made with a seat. It has no bytes.
#[derive(Drop)]
pub struct Seen {
    of: Snapshot<Seat>,
}

impl Model for Seen {
    ghost use Rattle.bus_seat.specs.Seats.{Sight};

    ghost Value = { Sight };

    ghost view = { λ s. s.of.value };
}

impl Seen {
    /// What was seen and made with the seat so far.
    pub fn of(seat: &Seat) -> Seen
        ensures { result ≡ seat.now }
    {
        Seen {
            of: Snapshot::of(seat),
        }
    }
}
