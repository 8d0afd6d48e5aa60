//! Worked rows of the records of pairs.
ghost use Rattle.std.specs.Prelude.{◌≡◌, ◌++◌, [], ◌∷◌, length, take, drop};
ghost use Rattle.output_log.specs.Pairs.{record_of};
ghost use Rattle.output_log.specs.Rows.{a_pair};

/// The record of a click of three letters on a query of five: the tag, two ids and the click's text, the query's id and
/// text, and the token.
pub fn records()
    ensures len { length (record_of a_pair) ≡ 73 }
    ensures tag { take 1 (record_of a_pair) ≡ 6 ∷ [] }
    ensures click_text { take 4 (drop 33 (record_of a_pair)) ≡ 3 ∷ 98 ∷ 117 ∷ 121 ∷ [] }
    ensures query_text { take 6 (drop 53 (record_of a_pair)) ≡ 5 ∷ 115 ∷ 104 ∷ 111 ∷ 101 ∷ 115 ∷ [] }
    ensures token { drop 59 (record_of a_pair) ≡ 0 ∷ 1 ∷ 0 ∷ 0 ∷ 0 ∷ 2 ∷ 0 ∷ 0 ∷ 0 ∷ 0 ∷ 0 ∷ 0 ∷ 0 ∷ 3 ∷ [] }
{}
