// What a turn takes, with what its node looks up for it.
ghost use Rattle.std.specs.Prelude.{◌≡◌, Option, IfOk, IfErr, IsTrue};
ghost use Rattle.dispatch_node.specs.Terms.{Carries, DispatcherKept, DispatcherLive, IsReadFault, Numbered, Setting, Stands, Takes, is_read_fault, tallied};
ghost use Rattle.turn_defs.specs.declared.node.Input.TheVariants as asked;
ghost use Rattle.dispatch_core.specs.Spelled.{IsTaken};
ghost use Rattle.site_node.specs.States.{Fits};
ghost use Rattle.dispatch_node.specs.Dispatchers.{Knows, known};
ghost use Rattle.dispatch_core.specs.Places.{AreLivePlaces, IsLogOf};

use crate::clicks::Clicks;
use crate::dispatcher::HeldPlaces;
use dispatch_core::{DispatchCore, DispatchInput};
use outside::LogFile;
use site_node::NodeFault;
use turn_defs::Input;

// A Start takes what the disks hold; an Own the click or the line that its row needs, if any; a Tick the clicks of the
// positions in trial.
pub(crate) fn look_up<L: LogFile>(
    core: &DispatchCore,
    held: &HeldPlaces,
    clicks: &mut Clicks<L>,
    input: Input,
) -> Result<DispatchInput, NodeFault>
    ensures taken { IfOk result IsTaken }
    ensures carries { IsTrue L.tells → (g : Setting) (k : Numbered DispatcherKept) (live : Option DispatcherLive) →
        Knows core.now (L.bytes clicks.old.tail.log) held.now g k live → Fits live input →
        IfOk result (λ taken. Takes g core.now k.disk (known core.now live) taken × Carries g k.disk (known core.now live) taken input) }
    ensures same { IsTrue L.tells → L.bytes clicks.new.tail.log ≡ L.bytes clicks.old.tail.log }
    ensures fault { IfErr result IsReadFault }
    ensures tally { L.faults clicks.new.tail.log ≡ tallied (L.faults clicks.old.tail.log) (is_read_fault result) }
{
    match input {
        Input::Start => {
            let pending = Vec::from_slice(clicks.alloc, &held.pending)?;
            Ok(DispatchInput::Start {
                offset: held.offset,
                pending,
            })
        }
        Input::Own => look_in_log(core, clicks),
        Input::Tick => {
            let trying = clicks.clicks_at(core.trying())?;
            Ok(DispatchInput::Tick { trying })
        }
        Input::Deliver { from, packet } => Ok(DispatchInput::Packet { from, packet }),
    }
}

// The click at the first due position, or else the line at the place, where an Own takes either.
fn look_in_log<L: LogFile>(
    core: &DispatchCore,
    clicks: &mut Clicks<L>,
) -> Result<DispatchInput, NodeFault>
    ensures taken { IfOk result IsTaken }
    ensures carries { IsTrue L.tells → (g : Setting) (k : DispatcherKept) (l : DispatcherLive) →
        IsLogOf (L.bytes clicks.old.tail.log) g → Stands g core.now k l → AreLivePlaces g l →
        IfOk result (λ taken. Takes g core.now k l taken × Carries g k l taken asked.Own) }
    ensures same { IsTrue L.tells → L.bytes clicks.new.tail.log ≡ L.bytes clicks.old.tail.log }
    ensures fault { IfErr result IsReadFault }
    ensures tally { L.faults clicks.new.tail.log ≡ tallied (L.faults clicks.old.tail.log) (is_read_fault result) }
{
    if !core.looks() {
        return Ok(DispatchInput::Own {
            line: None,
            due: None,
        });
    }
    match core.first_due() {
        Some(position) => {
            let due = clicks.click_at(position)?;
            Ok(DispatchInput::Own { line: None, due })
        }
        None => {
            let line = clicks.line_at(core.place())?;
            Ok(DispatchInput::Own { line, due: None })
        }
    }
}
