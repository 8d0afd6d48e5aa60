//! Work moves on: of more intervals in a row than replicas take part, in which nothing is lost, one gets on, or the run was at
//! rest before them.
#![tactic(auto)]

ghost use Rattle.photon_model.specs.EveryRun.{AfterEveryRun};
ghost use Rattle.progress_laws.specs.Moves.{HeldIsRefused, LeftIsRefused, RestOrRefused, WorkMovesOn, WorkMovesOnBy};
ghost use Rattle.progress_laws.specs.Rows.{CarriesOnce, ThreeAreIdle};

/// After every run work moves on. An interval in which nothing is done leaves a server held, by a promise that is older than
/// it; and the next leaves one held at the same slot, by a promise not below the round drawn since. So no promise counts twice,
/// and at most as many such intervals follow one another as replicas take part.
pub fn progress()
    ensures moves_on { AfterEveryRun WorkMovesOn }
    ensures by_replicas { AfterEveryRun WorkMovesOnBy }
    ensures first { AfterEveryRun RestOrRefused }
    ensures each { AfterEveryRun LeftIsRefused }
    ensures second { AfterEveryRun HeldIsRefused }
{
    photon_model::every_run();
}

/// A packet is carried once, after it was sent. With three replicas a run leads from nothing to a world from which three idle
/// intervals follow one another, so the count is exact; a fourth one leads to rest.
pub fn examples()
    ensures carries { CarriesOnce }
    ensures idle { ThreeAreIdle }
{}
