//! Laws of node numbers and shards, and of the worked setting.
ghost use Rattle.std.specs.Prelude.{◌<◌};
ghost use Rattle.event_id.specs.declared.id.EventId.{EventId};
ghost use Rattle.time_shards.specs.Shards.{IsTable};
ghost use Rattle.turn_defs.specs.Setting.{IsOver, Setting, shard, shards};
ghost use Rattle.turn_defs.specs.Nodes.{NumbersAreNodes};
ghost use Rattle.turn_defs.specs.Rows.{click_log, query_log, worked};

/// Each node has one number, and each number below their count is one node's.
pub fn node_numbers()
    ensures { (g : Setting) → NumbersAreNodes g }
{}

/// Each id's shard is one of the table's.
pub fn shards_below()
    ensures { (g : Setting) (id : EventId) → IsTable g.config.table → shard g id < shards g }
{}

/// The setting of the worked turns is over two logs of one line each.
pub fn worked_logs()
    ensures { IsOver worked query_log click_log }
{}
