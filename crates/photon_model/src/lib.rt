//! The whole system as definitions (what nodes keep and know, which histories are runs, which stores are sound, what holds of
//! each packet and node), and the law over every run: what holds at every moment, whatever is lost, repeated, reordered or
//! stopped, and what follows from it in plain words.
#![tactic(auto)]

pub mod laws;

ghost use Rattle.photon_model.specs.EveryRun.{AfterEveryRun, AllFactsHold, RestIsDone};
ghost use Rattle.photon_model.specs.Headline.{DecidesOnce, ForgetsNothing, HasOwnQueries, IsOutputOnce, LearnsTheDecided, LosesNoPair, TellsTheMissing};
ghost use Rattle.photon_model.specs.Terms.{Setting};
ghost use Rattle.photon_model.specs.Topology.{WholeSound};
ghost use Rattle.photon_model.specs.Stores.{LongerKeepsStores, LongerKeepsWhole, ReadIsChecked, ReadIsOver, RecordsStay, RunsKeepStores, RunsKeepWhole, SoundCloses, TopologyComesFirst, empty_store};
ghost use Rattle.photon_model.specs.Adding.{MovesUnsettled, RowKeepsReport, RowKeepsStores, RowKeepsWhole};
ghost use Rattle.photon_model.specs.Exact.{AtRestFromEmpty, ClicksAreExact, ReportIsExact};
ghost use Rattle.photon_model.specs.Example.{ClickIsJoined, RunsAreStrict, StoresAreStrict};
ghost use Rattle.photon_model.specs.Claims.{EveryClaimSent};
ghost use Rattle.photon_model.specs.Images.{ImagesAreRuns, LeavesSound};
ghost use Rattle.photon_model.specs.Alone.{EveryBallotAlone};
ghost use Rattle.photon_model.specs.Verification.{CountsTheMissing, FindsThePair, FindsTheWritten, SoundAgrees, TellsTheLine, TellsTheReport};
ghost use Rattle.photon_model.specs.Keeping.{DispatcherRowsKeep, DispatcherStartKeeps, JoinerRowsKeep, JoinerStartKeeps, ReplicaRowsKeep, ServerRowsKeep};

/// After every run from a sound store, with stops whose note landed or not: a click is output at most once, each pair is
/// a click with its own query, replicas never decide differently, and what a dispatcher has drained is not forgotten. No
/// pair is ever lost, and the report names exactly the missing ids.
pub fn headline()
    ensures once { AfterEveryRun IsOutputOnce }
    ensures own_query { AfterEveryRun HasOwnQueries }
    ensures decided { AfterEveryRun DecidesOnce }
    ensures learned { AfterEveryRun LearnsTheDecided }
    ensures drained { AfterEveryRun ForgetsNothing }
    ensures kept { LosesNoPair }
    ensures missing { TellsTheMissing }
{}

/// After every run from a sound store all facts hold, and whichever open turns' notes have landed, the disks that stops
/// now leave are sound, and are those of a run with stops at its end. At rest both dispatchers have drained, each decided
/// bound is the horizon or an earlier one, and where no joiner stopped each missing id is an earlier run's.
pub fn every_run()
    ensures facts { AfterEveryRun AllFactsHold }
    ensures left { AfterEveryRun LeavesSound }
    ensures stops { ImagesAreRuns }
    ensures rest { RestIsDone }
{}

/// From the empty store, at rest: each click's line is that of the two logs, or the click is missing; and where none is
/// missing, the report is that of the two logs.
pub fn exact_report()
    ensures clicks { AtRestFromEmpty ClicksAreExact }
    ensures report { AtRestFromEmpty ReportIsExact }
{}

/// Each row of the turn table keeps what holds of its node, and sends only packets whose facts hold.
pub fn rows_keep()
    ensures dispatcher { DispatcherRowsKeep }
    ensures dispatcher_start { DispatcherStartKeeps }
    ensures joiner { JoinerRowsKeep }
    ensures joiner_start { JoinerStartKeeps }
    ensures server { ServerRowsKeep }
    ensures replica { ReplicaRowsKeep }
{}

/// A store whose records are sound is so after every run, and where both logs grow by bytes at their ends and stay valid;
/// two valid logs make a setting that has what the law asks of it; no pair and no replica's record is ever lost.
pub fn stores()
    ensures runs { RunsKeepStores }
    ensures longer { LongerKeepsStores }
    ensures over { ReadIsOver }
    ensures checked { ReadIsChecked }
    ensures stay { RecordsStay }
    ensures closes { SoundCloses }
{}

/// The same of a whole store with its topology: the empty store is sound, its first record may be the topology's, and
/// from then on it stays sound through runs that stop at any moment, and over longer logs.
pub fn whole_stores()
    ensures empty { (g : Setting) → WholeSound g empty_store }
    ensures topology { TopologyComesFirst }
    ensures runs { RunsKeepWhole }
    ensures longer { LongerKeepsWhole }
{}

/// A row may be put behind a table's rows where nothing that any replica accepted forbids its start: the ids that it moves to
/// other shards aren't settled, a sound store stays sound, and its report the same.
pub fn added_rows()
    ensures moved { MovesUnsettled }
    ensures stores { RowKeepsStores }
    ensures report { RowKeepsReport }
    ensures whole { RowKeepsWhole }
{}

/// Each join in flight has sent its insert.
pub fn claims()
    ensures { EveryClaimSent }
{}

/// A ballot is drawn for one place alone.
pub fn ballots()
    ensures { EveryBallotAlone }
{}

/// Of the records of one store verification says of each id what the report says: its line, whether it is written, whether
/// it is missing. A sound store has what verification asks of the records.
pub fn verification()
    ensures pair { FindsThePair }
    ensures written { FindsTheWritten }
    ensures line { TellsTheLine }
    ensures report { TellsTheReport }
    ensures missing { CountsTheMissing }
    ensures agrees { SoundAgrees }
{}

/// A run that joins a click, from the empty store; and what is no run, and no sound store.
pub fn examples()
    ensures joined { ClickIsJoined }
    ensures runs { RunsAreStrict }
    ensures stores { StoresAreStrict }
{}
