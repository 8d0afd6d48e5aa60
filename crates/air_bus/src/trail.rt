//! A list that contracts alone see.
ghost use Rattle.std.specs.Prelude.{◌≡◌, [], ◌∷◌, ◌++◌};

use std::marker::Model;
use std::snapshot::Snapshot;

/// What was told so far, of which contracts see the list. It has no bytes.
#[derive(Drop)]
#[cycle(trail)]
pub struct Trail<T> {
    of: Snapshot<Way<T>>,
}

// How a trail came to be. No value of it outlasts a call.
#[derive(Drop)]
#[cycle(trail)]
enum Way<T> {
    Start,
    More(Trail<T>, Snapshot<T>),
}

const _: () = prove!(size_of::<Trail<u64>>() == 0);

impl<T> Model for Trail<T> {
    ghost use Rattle.std.specs.Prelude.{List, length};
    ghost use Rattle.std.specs.Coded.{coded_list};

    ghost Value = { List T };

    ghost coded = { coded_list T.code };

    ghost use Rattle.air_bus.specs.Trails.{told};

    ghost view = { λ t. told t.of.value };

    ghost size = { length };

    ghost use Rattle.std.proofs.Common.{arith, length-append};

    ghost size_decreases = { λ a h. Prim.grind (arith, length-append) };
}

impl<T> Trail<T> {
    /// Nothing told yet.
    pub fn new() -> Trail<T>
        ensures { result ≡ [] }
    {
        Trail {
            of: Snapshot::of(&Way::Start),
        }
    }

    /// Tells one thing more, the last, as it is now. Nothing of it is kept.
    pub fn tell(&mut self, thing: &T)
        ensures { self.new ≡ self.old ++ thing.now ∷ [] }
    {
        let before = std::mem::replace(self, Trail::new());
        let way = Way::More(before, Snapshot::of(thing));
        *self = Trail {
            of: Snapshot::of(&way),
        };
    }
}
