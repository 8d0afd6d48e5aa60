// The plan of a drill, read from its file.
ghost use Rattle.std.specs.Prelude.{◌≡◌, ◌⊎◌, ◌+◌, ℕ, List, take, IfErr, IfOk, IsErrAnd, IsSomeAnd, IsTrue, Err};
ghost use Rattle.photon_cli.specs.Terms.{Counts, Field as Place, Read, size_limit};
ghost use Rattle.run_fault.specs.declared.fault.RunFault.TheVariants as fault;
ghost use Rattle.photon_cli.specs.Drill.{IsBadIn, IsPlanIn};
ghost use Rattle.photon_cli.specs.LogFaults.{IsPlanFault, IsToldOfPlan};

use super::read::read_front;
use lossy_link::{BadPlan, MOST_BYTES, Plan};
use outside::{OpenFault, Source};
use site_run::RunFault;
use std::alloc::Global;

// The bytes of the file of that name, and of more than a plan may have the first byte too many.
fn read_file<F: Source>(alloc: Global, files: &mut F, name: &str) -> Result<Vec<u8>, OpenFault>
    ensures bytes { IsTrue F.Log.tells → IfOk result (λ v. IsSomeAnd (F.bytes files.old name.now) (λ bytes. v.items ≡ take (size_limit + 1) bytes)) }
    ensures same { IsTrue F.Log.tells → (n : List ℕ) → F.bytes files.new n ≡ F.bytes files.old n }
    ensures count { Counts (F.faults files.old) (F.faults files.new) (result ≡ Err Read) }
{
    let mut file = match files.open(alloc, name) {
        Ok(file) => file,
        Err(fault) => return Err(fault),
    };
    let read = read_front(alloc, &mut file, MOST_BYTES + 1);
    files.shut(file);
    read
}

/// The plan that the file of that name holds. It reads the file in pieces of 64 KiB, and no further than to the first byte that
/// a plan hasn't.
pub fn plan_in_file<F: Source>(alloc: Global, files: &mut F, name: &str) -> Result<Plan, RunFault>
    ensures plan { IsTrue F.Log.tells → IfOk result (λ p. IsPlanIn (F.bytes files.old) name.now p) }
    ensures place { IsTrue F.Log.tells → (at : Place) → result ≡ Err (fault.Plan at) → IsBadIn (F.bytes files.old) name.now at }
    ensures refused { IsTrue F.Log.tells → (at : Place) → IsBadIn (F.bytes files.old) name.now at → IsErrAnd result (IsToldOfPlan at) }
    ensures same { IsTrue F.Log.tells → (n : List ℕ) → F.bytes files.new n ≡ F.bytes files.old n }
    ensures cause { IfErr result IsPlanFault }
    ensures count { Counts (F.faults files.old) (F.faults files.new) (result ≡ Err fault.PlanRead) }
{
    let bytes = match read_file(alloc, files, name) {
        Ok(bytes) => bytes,
        Err(OpenFault::Read) => return Err(RunFault::PlanRead),
        Err(OpenFault::Memory) => return Err(RunFault::Memory),
    };
    match Plan::read(alloc, &bytes) {
        Ok(plan) => Ok(plan),
        Err(BadPlan::At(place)) => Err(RunFault::Plan(place)),
        Err(BadPlan::Memory) => Err(RunFault::Memory),
    }
}
