// What both sites are run for.
ghost use Rattle.std.specs.Prelude.{◌≡◌};
ghost use Rattle.turn_defs.specs.Configs.{IsRunnable};
ghost use Rattle.photon_cli.specs.Terms.{AreInRanges, values_in};
ghost use Rattle.photon_cli.specs.Join.{config_of};
ghost use Rattle.photon_cli.specs.Words.{IsTextOf};

use command_words::RunOptions;
use site_run::Config;
use time_shards::Table;

/// How many replicas there are.
pub const REPLICAS: u8 = 3;

/// What all nodes are built for, by the options and the table of their text.
pub fn config_in(wanted: &RunOptions<'_>, table: Table) -> Config
    requires ranges { AreInRanges (values_in wanted.now).nodes }
    requires table { IsTextOf (values_in wanted.now).nodes.shards table }
    ensures config { result ≡ config_of wanted.now.horizon (values_in wanted.now).nodes table }
    ensures ranges { IsRunnable result }
{
    Config {
        horizon: wanted.horizon,
        joiners: wanted.nodes.joiners,
        table,
        batch: wanted.nodes.batch,
        replicas: REPLICAS,
    }
}
