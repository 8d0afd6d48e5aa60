//! The limits, each as a number. All other contracts cite them by their names, and so hold for any.
ghost use Rattle.std.specs.Prelude.{◌≡◌, ◌≤◌, ◌^◌, ◌-◌, [], ◌∷◌, Some};
ghost use Rattle.command_words.specs.Words.{AreBulkRanges, AreInRanges, BulkValues};
ghost use Rattle.event_id.specs.declared.text.TheConstants.{MAX_TEXT as MAX_ID};
ghost use Rattle.gate_journal.specs.declared.frame.TheConstants.{MAX_PAYLOAD};
ghost use Rattle.log_records.specs.declared.check.TheConstants.{MAX_LOG};
ghost use Rattle.log_records.specs.declared.lines.TheConstants.{MAX_LINE};
ghost use Rattle.log_records.specs.declared.text.TheConstants.{MAX_TEXT};
ghost use Rattle.lossy_link.specs.Entries.{list_of};
ghost use Rattle.lossy_link.specs.Outcome.{bad, good};
ghost use Rattle.lossy_link.specs.declared.bad_plan.Field.TheVariants.{Rules};
ghost use Rattle.lossy_link.specs.declared.read.TheConstants.{MOST_BYTES};
ghost use Rattle.mem_outside.specs.declared.gate.TheConstants.{LOOKS};
ghost use Rattle.paxos_defs.specs.declared.TheConstants.{MOST_REPLICAS};
ghost use Rattle.photon_cli.specs.declared.engine.run.TheConstants.{REPLICAS};
ghost use Rattle.serde_json.specs.Data.{Data};
ghost use Rattle.registry_state.specs.declared.TheConstants.{MOST_INSERTS, MOST_WAITING};
ghost use Rattle.site_run.specs.Terms.{LAST_EPOCH};
ghost use Rattle.time_shards.specs.declared.TheConstants.{MAX_ROWS, MAX_SHARDS, MOST_JOINERS};
ghost use Rattle.turn_defs.specs.declared.limits.TheConstants.{LAST_SLOT, MOST_FLIGHTS, WINDOW};

/// Of words and plans: clicks of a bulk run, bytes of a plan, its rules and its stops.
pub fn of_words()
    ensures clicks { (v : BulkValues) → AreBulkRanges v → v.count ≤ 100000 }
    ensures all_clicks { (v : BulkValues) → AreInRanges v.nodes → v.count ≤ 100000 → AreBulkRanges v }
    ensures plan { MOST_BYTES ≡ 1048576 }
    ensures last_entry { (d : Data) → list_of (λ x. Some x) Rules 63 (d ∷ []) ≡ good (d ∷ []) }
    ensures no_more { (d : Data) → list_of (λ x. Some x) Rules 64 (d ∷ []) ≡ bad (Rules 64) }
{}

/// Of logs: the text of an id, a line's text, a line, a log.
pub fn of_logs()
    ensures id { MAX_ID ≡ 47 }
    ensures text { MAX_TEXT ≡ 200 }
    ensures line { MAX_LINE ≡ 296 }
    ensures log { MAX_LOG ≡ 2 ^ 40 }
{}

/// Of tables: joiners of a site, rows, shards of a row.
pub fn of_tables()
    ensures joiners { MOST_JOINERS ≡ 4 }
    ensures rows { MAX_ROWS ≡ 4 }
    ensures shards { MAX_SHARDS ≡ 16 }
{}

/// Of nodes: a dispatcher's window, a joiner's joins in flight, inserts of a batch and those that wait for a shard, the replicas of a
/// run and of any, the last epoch, and the last round and slot.
pub fn of_nodes()
    ensures window { WINDOW ≡ 64 }
    ensures flights { MOST_FLIGHTS ≡ 32 }
    ensures inserts { MOST_INSERTS ≡ 64 }
    ensures waiting { MOST_WAITING ≡ 4096 }
    ensures replicas { REPLICAS ≡ 3 }
    ensures most { MOST_REPLICAS ≡ 5 }
    ensures epoch { LAST_EPOCH ≡ 2 ^ 32 - 2 }
    ensures slot { LAST_SLOT ≡ 2 ^ 48 - 1 }
{}

/// Of journals and tests: a record's payload, and how often the gate that holds a node looks for another.
pub fn of_others()
    ensures payload { MAX_PAYLOAD ≡ 65535 }
    ensures looks { LOOKS ≡ 1000000000 }
{}
