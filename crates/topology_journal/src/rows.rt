//! Worked rows of the records of topologies.
ghost use Rattle.std.specs.Prelude.{◌≡◌, [], ◌∷◌, true, false, Some, None};
ghost use Rattle.topology_journal.specs.Topologies.{record_of, topology_record, has_front, next_topology};
ghost use Rattle.topology_journal.specs.Rows.{a_topology, later, of_other_joiners, of_other_rows, of_two_rows_more};

/// Two joiners a site, and four shards, eight from 3000 on.
pub fn records()
    ensures written { topology_record a_topology ≡ 1 ∷ 2 ∷ 2 ∷ 2 ∷ 0 ∷ 0 ∷ 0 ∷ 0 ∷ 0 ∷ 0 ∷ 0 ∷ 0 ∷ 4 ∷ 0 ∷ 0 ∷ 0 ∷ 0 ∷ 0 ∷ 0 ∷ 11 ∷ 184 ∷ 8 ∷ [] }
    ensures first { record_of 1 a_topology ≡ 1 ∷ 1 ∷ 2 ∷ 2 ∷ 0 ∷ 0 ∷ 0 ∷ 0 ∷ 0 ∷ 0 ∷ 0 ∷ 0 ∷ 4 ∷ 0 ∷ 0 ∷ 0 ∷ 0 ∷ 0 ∷ 0 ∷ 11 ∷ 184 ∷ 8 ∷ [] }
{}

/// What stands before the rows.
pub fn fronts()
    ensures written { has_front (topology_record a_topology) ≡ true }
    ensures first { has_front (record_of 1 a_topology) ≡ true }
    ensures other_version { has_front (1 ∷ 3 ∷ 2 ∷ 0 ∷ []) ≡ false }
    ensures five_joiners { has_front (1 ∷ 1 ∷ 5 ∷ 0 ∷ []) ≡ false }
    ensures no_joiners { has_front (1 ∷ 1 ∷ 0 ∷ 0 ∷ []) ≡ false }
    ensures row_missing { has_front (1 ∷ 1 ∷ 1 ∷ 1 ∷ []) ≡ false }
{}

/// Which record may come first, and which behind another.
pub fn orders()
    ensures first { next_topology None (record_of 1 a_topology) ≡ Some a_topology }
    ensures first_of_two { next_topology None (record_of 2 later) ≡ Some later }
    ensures later_row { next_topology (Some a_topology) (record_of 2 later) ≡ Some later }
    ensures version { next_topology (Some a_topology) (record_of 1 later) ≡ None }
    ensures joiners { next_topology (Some a_topology) (record_of 2 of_other_joiners) ≡ None }
    ensures rows { next_topology (Some a_topology) (record_of 2 of_other_rows) ≡ None }
    ensures two_rows { next_topology (Some a_topology) (record_of 2 of_two_rows_more) ≡ None }
    ensures again { next_topology (Some a_topology) (record_of 2 a_topology) ≡ None }
{}
