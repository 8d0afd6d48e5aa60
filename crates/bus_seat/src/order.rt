// The rule of the table, and the names of its steps.
ghost use Rattle.bus_seat.specs.Views.{runner, blank, dealt, newcomer, joined, taken, same, added, given};
ghost use Rattle.bus_seat.specs.Rule.{Orderly};

use super::view::{Base, View};
use air_bus::Air;
use atomic_table::{Join, Play, Split, TableRule};

/// What holds of the table and of all seats between any two steps.
pub struct Order;

impl TableRule<Air, View, Base> for Order {
    ghost holds = { Orderly };

    ghost first = { runner };
}

/// Takes the turn where it is free, and the Air with it.
pub struct Take;

impl Play<Air, View> for Take {
    ghost then = { taken };
}

/// Counts a waiting thread in or out, which no view shows.
pub struct Wait;

impl Play<Air, View> for Wait {
    ghost then = { same };
}

/// Counts the entry that the Air in the seat's hand has more than was seen.
pub struct Add;

impl Play<Air, View> for Add {
    ghost then = { added };
}

/// Gives the turn back, with the Air.
pub struct Give;

impl Play<Air, View> for Give {
    ghost then = { given };
}

/// Splits off the seat of the next number.
pub struct Deal;

impl Split<View> for Deal {
    ghost left = { dealt };

    ghost right = { newcomer };
}

/// Joins a seat into the run's.
pub struct Gather;

impl Join<View> for Gather {
    ghost both = { joined };

    ghost spent = { blank };
}
