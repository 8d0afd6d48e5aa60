// What follows from how calls end.
ghost use Rattle.std.specs.Prelude.{◌≡◌, ◌<◌, ◌+◌, ℕ, List, [], IsTrue, Some};
ghost use Rattle.photon_cli.specs.Terms.{AreAllLeft, Bytes, Checked, DiskName, Disks, GoesOn, HasRun, HoldsRecords, IsSoundStore, PlanView, Rose, RunLog, Setting, Text, Wish};
ghost use Rattle.site_laws.specs.Laws.{made_by};
ghost use Rattle.photon_cli.specs.Join.{IsHeardOf};
ghost use Rattle.site_run.specs.declared.ran.Ran.{Ran};
ghost use Rattle.photon_cli.specs.Again.{AreCalls, AreOutputOnce, Call, KeepsBy, setting_after, store_after};
ghost use Rattle.photon_cli.specs.Causes.{IsOverLog};
ghost use Rattle.photon_cli.specs.Ends.{Ends};
ghost use Rattle.photon_cli.specs.Join.{IsHistory};
ghost use Rattle.photon_cli.specs.SameReport.{AreInTurn, Ended, HasReported, LeavesOnly, SameReport};
ghost use Rattle.photon_cli.specs.declared.engine.run.TheConstants.{REPLICAS};

use outside::{Sink, Source, Store};

/// Where `photon` is called again and again over one store, whatever stopped the calls, and each join is of the logs of the one
/// before or of longer ones, with the rows that were added between, no click is output twice over all calls, and no record is lost. Of
/// reshardings only those are such calls whose row was added, or wasn't: where the topology's disk failed, either may be.
pub fn again<F: Source, S: Store, K: Sink>()
    // What each call keeps.
    ensures keeps { (files later : F) (before after : S) (out out_later err err_later : K) (ran ran_later : Ran) (status : ℕ) (w : Wish) → IsTrue S.Disk.tells
        → Ends F.Log.tells K.tells S.Disk.tells (F.bytes files) (Rose (F.faults files) (F.faults later)) (Rose (K.faults out) (K.faults out_later)) (Rose (K.faults err) (K.faults err_later)) (Rose (S.faults before) (S.faults after))
        (S.image before) (S.image after) (after ≡ before) (ran_later ≡ ran) ran_later.log (K.held out) (K.held out_later) (K.held err) (K.held err_later) status w
        → KeepsBy F.Log.tells (F.bytes files) (S.image before) (S.image after) status w }

    // And what they all keep.
    ensures once { (g : Setting) (s : S) (calls : List (Call S)) → Checked g → IsSoundStore g (S.image s) → AreCalls S.image g s calls → AreOutputOnce (setting_after S.image g calls) (S.image (store_after S.image s calls)) }
    ensures grown { (g : Setting) (s : S) (calls : List (Call S)) → AreCalls S.image g s calls → (disk : DiskName) → GoesOn (S.image s disk) (S.image (store_after S.image s calls) disk) }
{
    site_laws::stores::once();
    site_laws::stores::same();
    site_laws::stores::longer::<S>();
    photon_model::stores();
    photon_model::headline();
}

/// Of a sound store of which a stop leaves no choice, a verification writes the same bytes before and after a resharding, and ends with the
/// same status, however the resharding ends.
pub fn same_report<F: Source, S: Store, K: Sink>()
    ensures { (g : Setting) (b : Bytes) (clicks row : Text) (first between last : Ended F S K) → IsTrue F.Log.tells → IsTrue K.tells → IsTrue S.Disk.tells
        → AreInTurn F.Log.tells K.tells S.Disk.tells F.bytes F.faults K.held K.faults S.image S.faults clicks row first between last
        → IsOverLog (F.bytes first.files) clicks g → g.config.replicas ≡ REPLICAS → IsSoundStore g (S.image first.store) → LeavesOnly g (S.image first.store) b
        → HasReported first → HasReported last → SameReport K.held first last }
{
    site_laws::stores::once();
    site_laws::stores::read();
    site_laws::stores::same();
    site_laws::stores::fits();
    photon_model::added_rows();
}

/// The replica that the plan takes for dead has no entry in the history that a run leaves.
pub fn dead_have_no_entry()
    ensures { (plan : PlanView) (joiners : ℕ) (log : RunLog) → IsHeardOf plan joiners log
        → (r : ℕ) → r < 3 → plan.dead ≡ Some r → made_by (4 + r) log.air.history ≡ [] }
{
    air_bus::laws::dead_have_no_entry();
}

/// Where a stop before a run would have left just these bytes of the disks, the run is from the very records that the bytes keep.
pub fn runs_from_kept_records<S: Store>()
    ensures { (g : Setting) (before after : S) (plan : PlanView) (log : RunLog) → IsHistory g (S.image before) (S.image after) plan log
        → (b : Bytes) → AreAllLeft g (S.image before) b → (d : Disks) → HoldsRecords g b d → HasRun g d log.air.history (S.image after) }
{
    site_laws::stores::once();
}
