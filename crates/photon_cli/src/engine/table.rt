// The table of shards.
ghost use Rattle.std.specs.Prelude.{IfErr, IfOk};
ghost use Rattle.photon_cli.specs.LogFaults.{IsRowFault};
ghost use Rattle.photon_cli.specs.Words.{IsTextOf};

use site_run::RunFault;
use time_shards::Table;

/// The table that the text is.
pub fn table_in(shards: &str) -> Result<Table, RunFault>
    ensures found { IfOk result (λ table. IsTextOf shards.now table) }
    ensures bad { IfErr result (IsRowFault shards.now) }
{
    match Table::read(shards.as_bytes()) {
        Ok(table) => Ok(table),
        Err(bad) => Err(RunFault::Table { row: bad.row }),
    }
}
