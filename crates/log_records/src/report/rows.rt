//! Worked rows of the definitions: one query, and one click on it.
ghost use Rattle.std.specs.Prelude.{◌≡◌, codes, [], ◌∷◌};
ghost use Rattle.log_records.specs.Rows.{one_query, one_click};
ghost use Rattle.log_records.specs.declared.report.ReportLine.TheVariants.{J, M, X, U};
ghost use Rattle.log_records.specs.Report.{text_of, line_of};

/// What becomes of the click: joined where its query is there, unmatched where it isn't, expired below the horizon,
/// which is the first timestamp that isn't.
pub fn lines()
    ensures joined { line_of (one_query ∷ []) 0 one_click ≡ J one_click one_query }
    ensures unmatched { line_of [] 0 one_click ≡ U one_click.id }
    ensures at_the_horizon { line_of (one_query ∷ []) 2000 one_click ≡ J one_click one_query }
    ensures below_the_horizon { line_of (one_query ∷ []) 2001 one_click ≡ X one_click.id }
    ensures expired_before_unmatched { line_of [] 2001 one_click ≡ X one_click.id }
{}

/// The bytes of reports of no line and of one line of each kind.
pub fn texts()
    ensures none { text_of [] ≡ codes "= 0 0 0 0\n" }
    ensures joined { text_of (J one_click one_query ∷ []) ≡ codes "J 10.0.0.2:9:2000 10.0.0.1:7:1000 buy\tshoes\n= 1 0 0 0\n" }
    ensures missing { text_of (M one_click.id ∷ []) ≡ codes "M 10.0.0.2:9:2000\n= 0 1 0 0\n" }
    ensures expired { text_of (X one_click.id ∷ []) ≡ codes "X 10.0.0.2:9:2000\n= 0 0 1 0\n" }
    ensures unmatched { text_of (U one_click.id ∷ []) ≡ codes "U 10.0.0.2:9:2000\n= 0 0 0 1\n" }
{}
