//! Worked rows of the definitions.
ghost use Rattle.std.specs.Prelude.{◌≡◌, [], ◌∷◌, Some, None, codes};
ghost use Rattle.log_records.specs.declared.records.QueryRec.{QueryRec};
ghost use Rattle.log_records.specs.declared.records.ClickRec.{ClickRec};
ghost use Rattle.log_records.specs.Line.{query_line, click_line};
ghost use Rattle.log_records.specs.FirstPlaces.{first_place, seen_of};
ghost use Rattle.log_records.specs.Rows.{hats, one_click, one_query, three_lines};
ghost use Rattle.log_records.specs.declared.stream.Seen.TheVariants.{New, Again};

/// The lines of a query and of a click on it.
pub fn lines()
    ensures query { query_line one_query ≡ codes "10.0.0.1:7:1000 shoes" }
    ensures click { click_line one_click ≡ codes "10.0.0.2:9:2000 10.0.0.1:7:1000 buy" }
{}

/// Where the first line of an id begins. The first line has 21 bytes, and its line feed.
pub fn places()
    ensures first { first_place query_line (λ q. q.id) 0 three_lines one_query.id ≡ Some 0 }
    ensures second { first_place query_line (λ q. q.id) 0 three_lines hats.id ≡ Some 22 }
    ensures none { first_place query_line (λ q. q.id) 0 (one_query ∷ []) hats.id ≡ None }
{}

/// What is told of an id.
pub fn told()
    ensures new { seen_of None ≡ New }
    ensures again { seen_of (Some 22) ≡ Again 22 }
{}
