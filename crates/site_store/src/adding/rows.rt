//! Worked rows of what is answered to a row.
ghost use Rattle.std.specs.Prelude.{◌≡◌, [], ◌∷◌, Some, None, Ok, Err};
ghost use Rattle.site_store.specs.Terms.{one_click};
ghost use Rattle.run_fault.specs.declared.fault.Unfit.TheVariants.{NoTopology, Rows, Start, Bound, Id};
ghost use Rattle.site_store.specs.Rows.{a_bound, an_id, answered, with_rows};

/// A row behind `0:4`, where the id of a click at 2000 is accepted, and maybe the bound 2001; and the first reason of two.
pub fn answers()
    ensures later { answered (Some (with_rows (0 ∷ []))) an_id 2001 ≡ Ok (with_rows (0 ∷ 2001 ∷ [])) }
    ensures id { answered (Some (with_rows (0 ∷ []))) an_id 2000 ≡ Err (Id one_click.id) }
    ensures bound { answered (Some (with_rows (0 ∷ []))) a_bound 2000 ≡ Err (Bound 2001) }
    ensures at_bound { answered (Some (with_rows (0 ∷ []))) a_bound 2001 ≡ Ok (with_rows (0 ∷ 2001 ∷ [])) }
    ensures start { answered (Some (with_rows (0 ∷ 1000 ∷ []))) a_bound 1000 ≡ Err (Start 1000 1000) }
    ensures rows { answered (Some (with_rows (0 ∷ 1 ∷ 2 ∷ 3 ∷ []))) a_bound 3 ≡ Err Rows }
    ensures no_topology { answered None a_bound 0 ≡ Err NoTopology }
{}
