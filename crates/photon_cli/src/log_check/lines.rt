// The lines of a log, up to its last line feed.
ghost use Rattle.std.specs.Prelude.{◌≡◌, ◌≢◌, ◌+◌, ◌++◌, ◌∷◌, [], List, ℕ, Err, IfOk, OnOk, IfErr, IsTrue, if◌then◌else◌};
ghost use Rattle.photon_cli.specs.Terms.{BadLine as Bad, Counts, Refuses};
ghost use Rattle.log_records.specs.declared.why.Why.TheVariants as reason;
ghost use Rattle.photon_cli.specs.declared.log_check.check.CheckFault.TheVariants as fault;
ghost use Rattle.photon_cli.specs.CheckedLogs.{AreLines};

use crate::log_check::CheckFault;
use crate::log_check::step::{Step, next_step};
use event_id::EventId;
use log_records::{BadLine, LogCheck, Record, Why};
use outside::LogFile;
use std::alloc::{AllocError, Global};
use tail_reader::Tail;

/// The lines of a log: how many, the id of each where ids are kept, and the end of the last.
#[derive(Debug, Drop)]
pub struct Lines {
    pub count: u64,
    pub ids: Vec<EventId>,
    pub end: u64,
}

/// Reads and checks the lines from the place on, where the log begins.
pub fn read_lines<K: Record, L: LogFile>(
    alloc: Global,
    tail: &mut Tail<L>,
    keep: bool,
) -> Result<Lines, CheckFault>
    requires { tail.old.place ≡ 0 }
    ensures found { IsTrue L.tells → IfOk result (λ read. (rs : List K) × AreLines K.spelled K.is_record K.own_id keep (L.bytes tail.old.log) rs read) }
    ensures refused { IsTrue L.tells → (bad : Bad) → result ≡ Err (fault.Refused bad) → Refuses K.spelled K.is_record K.own_id K.whys (L.bytes tail.old.log) bad }
    ensures why { (bad : Bad) → result ≡ Err (fault.Refused bad) → bad.why ≢ reason.Memory }
    ensures same { IsTrue L.tells → L.bytes tail.new.log ≡ L.bytes tail.old.log }
    ensures count { Counts (L.faults tail.old.log) (L.faults tail.new.log) (result ≡ Err fault.Read) }
{
    let mut check: LogCheck<K> = LogCheck::new(alloc);
    let mut ids = Vec::new(alloc);
    for count in 0..u64::MAX {
        match next_step(&mut check, tail) {
            Err(_) => return Err(CheckFault::Read),
            Ok(Step::Wrong(why)) => return Err(wrong(count + 1, why)),
            Ok(Step::End) => {
                return Ok(Lines {
                    count,
                    ids,
                    end: tail.place(),
                });
            }
            Ok(Step::Line(id)) => {
                let Ok(()) = keep_id(keep, &mut ids, id) else {
                    return Err(CheckFault::Memory);
                };
            }
        }
    }
    // No log has so many lines below place `MAX_LOG`.
    Err(wrong(u64::MAX, Why::TooBig))
}

fn wrong(line: u64, why: Why) -> CheckFault
    ensures refused { (bad : Bad) → result ≡ fault.Refused bad → (bad ≡ record { line = line; why = why }) × (why ≢ reason.Memory) }
    ensures read { result ≢ fault.Read }
{
    match why {
        Why::Memory => CheckFault::Memory,
        why => CheckFault::Refused(BadLine { line, why }),
    }
}

fn keep_id(keep: bool, ids: &mut Vec<EventId>, id: EventId) -> Result<(), AllocError>
    ensures { OnOk result (ids.new.items ≡ ids.old.items ++ (if keep then id ∷ [] else [])) }
{
    if keep {
        ids.push(id)?;
    }
    Ok(())
}
