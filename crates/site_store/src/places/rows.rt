//! Worked rows of the definitions.
ghost use Rattle.std.specs.Prelude.{◌≡◌, [], ◌∷◌, Some, None};
ghost use Rattle.site_store.specs.Terms.{Offset, Retry, one_click, placed};
ghost use Rattle.site_store.specs.Kept.{on_disk, IsTold};
ghost use Rattle.site_store.specs.Rows.{one_line};

/// Places kept for a log of one line.
pub fn one_line_log()
    ensures line { placed 0 (one_click ∷ []) ≡ one_line }
    ensures end { IsTold one_line (on_disk (Offset 1) (36 ∷ 0 ∷ [])) None }
    ensures last_byte { IsTold one_line (on_disk (Offset 1) (35 ∷ [])) (Some (record { disk = Offset 1; kept = 35; floor = 0 })) }
    ensures start { IsTold one_line (on_disk (Retry 0) (0 ∷ [])) None }
    ensures no_start { IsTold one_line (on_disk (Retry 0) (0 ∷ 36 ∷ 7 ∷ [])) (Some (record { disk = Retry 0; kept = 36; floor = 0 })) }
{}

/// Places kept for a log without lines.
pub fn empty_log()
    ensures offset { IsTold [] (on_disk (Offset 0) (0 ∷ 1 ∷ [])) (Some (record { disk = Offset 0; kept = 1; floor = 0 })) }
    ensures position { IsTold [] (on_disk (Retry 0) (0 ∷ [])) (Some (record { disk = Retry 0; kept = 0; floor = 0 })) }
{}
