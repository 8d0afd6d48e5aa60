// The command `reshard`, with its exit status.
ghost use Rattle.std.specs.Prelude.{◌≡◌};
ghost use Rattle.photon_cli.specs.Terms.{Rose};
ghost use Rattle.photon_cli.specs.Reshard.{ReshardEnds};
ghost use Rattle.photon_cli.specs.Status.{IsAnswered};

use super::run::REPLICAS;
use crate::tell::give_up;
use outside::{Sink, Store};
use run_fault::write_table;
use site_laws::stores::{fits, read};
use site_run::RunFault;
use site_store::add_row;
use std::alloc::Global;
use time_shards::ShardRow;

/// Puts a row behind those of the table that the store in a directory keeps, writes the text of the longer table, and answers the
/// exit status. No node runs, and no log is read.
pub fn reshard_command<S: Store, K: Sink>(
    alloc: Global,
    state: &str,
    add: &str,
    store: &mut S,
    out: &mut K,
    err: &mut K,
) -> u8
    ensures ends { ReshardEnds K.tells (Rose (K.faults out.old) (K.faults out.new)) (Rose (K.faults err.old) (K.faults err.new)) (K.held out.old) (K.held out.new) (K.held err.old) (K.held err.new) result add.now (store.new ≡ store.old)
        S.Disk.tells (S.image store.old) (S.image store.new) (Rose (S.faults store.old) (S.faults store.new)) }
    ensures answered { IsAnswered K.tells 0 0 (K.faults out.old) (K.faults out.new) (K.held out.old) (K.held out.new) result }
{
    read();
    fits();
    let Some(row) = ShardRow::read(add.as_bytes()) else {
        return give_up(err, &RunFault::Table { row: 0 });
    };
    if let Err(fault) = store.place(alloc, state) {
        return give_up(err, &RunFault::from(fault));
    }
    let table = match add_row(alloc, store, REPLICAS, row) {
        Ok(table) => table,
        Err(fault) => return give_up(err, &fault),
    };
    match write_table(out, &table) {
        Ok(()) => 0,
        Err(_) => give_up(err, &RunFault::Write),
    }
}
