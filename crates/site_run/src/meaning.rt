// What a run of both sites that has come to rest means for the report.
ghost use Rattle.site_run.specs.Terms.{Rose, Setting};
ghost use Rattle.site_run.specs.Meaning.{RestJoins, RestJoinsAfresh, RestJoinsByStops, RestRanAfresh};

use crate::disk_laws::none_stops;
use outside::Store;

/// What verification makes of the journals that such a run leaves is the report of what the disks keep, and from an empty
/// store that of the two logs.
pub fn means<S: Store>()
    ensures joins { (g : Setting) (before after : S) → RestJoins g (S.image before) (S.image after) (Rose (S.faults before) (S.faults after)) }
    ensures afresh { (g : Setting) (before after : S) → RestJoinsAfresh g (S.image before) (S.image after) (Rose (S.faults before) (S.faults after)) }
    // By the run's own history: an id is missing only where it was held before or a joiner stopped in the run.
    ensures by_stops { (g : Setting) (before after : S) → RestJoinsByStops g (S.image before) (S.image after) (Rose (S.faults before) (S.faults after)) }
    ensures ran { (g : Setting) (before after : S) → RestRanAfresh g (S.image before) (S.image after) (Rose (S.faults before) (S.faults after)) }
{
    none_stops();
    site_laws::stores::once();
    photon_model::headline();
    photon_model::every_run();
    photon_model::exact_report();
    photon_model::stores();
    photon_model::whole_stores();
    photon_model::verification();
}
