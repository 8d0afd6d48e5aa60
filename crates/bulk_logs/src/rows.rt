//! Worked rows of the definitions.
ghost use Rattle.std.specs.Prelude.{◌≡◌, [], ◌∷◌, codes};
ghost use Rattle.bulk_logs.specs.Bulk.{drawn, query_log, click_log, kinds_made, totals_made};

/// The two logs of one click from seed 1.
pub fn one_line()
    ensures drawn { drawn 1 0 ≡ 908834774 }
    ensures query { query_log 1 1 ≡ codes "10.0.0.6:25:1000000 q908834774\n" }
    ensures click { click_log 1 1 ≡ codes "10.0.1.9:22:2000000 10.0.0.6:25:1000000 c1093944153\n" }
{}

/// How many clicks there are of each kind: joined, missing, expired, unmatched.
pub fn kinds()
    ensures none { kinds_made 0 ≡ 0 ∷ 0 ∷ 0 ∷ 0 ∷ [] }
    ensures ten { kinds_made 10 ≡ 8 ∷ 0 ∷ 1 ∷ 1 ∷ [] }
    ensures many { kinds_made 5000 ≡ 4000 ∷ 0 ∷ 500 ∷ 500 ∷ [] }
    ensures totals { totals_made 5000 ≡ codes "= 4000 0 500 500\n" }
{}
