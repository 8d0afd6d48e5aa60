//! Laws over logs.
ghost use Rattle.std.specs.Prelude.{◌≡◌, List, ℕ};
ghost use Rattle.log_records.specs.declared.records.QueryRec.{QueryRec};
ghost use Rattle.log_records.specs.declared.records.ClickRec.{ClickRec};
ghost use Rattle.log_records.specs.Log.{HoldsQueries, HoldsClicks};
ghost use Rattle.log_records.specs.Lines.{QueriesBegin, LinesBegin, LinesFollow, LinesStand, LinesEnd};

/// A log holds the records of one list.
pub fn one_reading()
    ensures queries { (log : List ℕ) (qs rs : List QueryRec) → HoldsQueries log qs → HoldsQueries log rs → qs ≡ rs }
    ensures clicks { (log : List ℕ) (cs ds : List ClickRec) → HoldsClicks log cs → HoldsClicks log ds → cs ≡ ds }
{}

/// A log that grows at its end holds more records behind those that it held.
pub fn longer_log()
    ensures queries { QueriesBegin }
    ensures lines { LinesBegin }
{}

/// The click lines of a log follow one another from its first byte on, without a conflict, and each stands at its
/// place.
pub fn click_lines()
    ensures follow { LinesFollow }
    ensures stand { LinesStand }
    ensures end { LinesEnd }
{}
