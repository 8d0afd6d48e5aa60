// Joins to send.
ghost use Rattle.std.specs.Prelude.{◌≡◌, ◌<◌, ◌^◌, [], ◌∷◌, All, OnOk};
ghost use Rattle.dispatch_core.specs.Terms.{zip};
ghost use Rattle.dispatch_core.specs.Outboxes.{Puts, waiting_joins};

use crate::Turn;
use crate::dealer::Dealer;
use crate::line::FreshLine;
use crate::turns::{Change, Step};
use log_records::ClickRec;
use std::alloc::{AllocError, Global};
use std::collections::VecDeque;
use turn_defs::{Node, Packet};

// Joins, each to the joiner behind that of the one before, and the dealer that says whose turn is next.
#[derive(Debug, Drop)]
pub(crate) struct Outbox {
    pub(crate) dealer: Dealer,
    pub(crate) packets: Vec<(Node, Packet)>,
}

impl Outbox {
    // No Joins.
    pub(crate) fn new(alloc: Global, dealer: Dealer) -> Outbox
        ensures dealer { result.dealer ≡ dealer }
        ensures packets { result.packets.items ≡ [] }
    {
        Outbox {
            dealer,
            packets: Vec::new(alloc),
        }
    }

    // One Join more.
    pub(crate) fn put(&mut self, position: u64, click: ClickRec) -> Result<(), AllocError>
        ensures { OnOk result (Puts self.old self.new ((position, click) ∷ [])) }
    {
        let node = self.dealer.deal();
        self.packets.push((node, Packet::Join { position, click }))?;
        Ok(())
    }

    // One of each line that isn't done, which shares its click. Linear in the window.
    pub(crate) fn put_waiting(&mut self, fresh: &VecDeque<FreshLine>) -> Result<(), AllocError>
        ensures { OnOk result (Puts self.old self.new (waiting_joins fresh.now.items)) }
    {
        for line in fresh {
            self.put_line(line)?;
        }
        Ok(())
    }

    // One of a line that isn't done.
    fn put_line(&mut self, line: &FreshLine) -> Result<(), AllocError>
        ensures { OnOk result (Puts self.old self.new (waiting_joins (line.now ∷ []))) }
    {
        if line.done {
            return Ok(());
        }
        self.put(line.position, line.click.share()?)
    }

    // One of each position, which shares its click.
    pub(crate) fn put_trying(
        &mut self,
        positions: &[u64],
        clicks: &[ClickRec],
    ) -> Result<(), AllocError>
        ensures puts { OnOk result (Puts self.old self.new (zip positions.now clicks.now)) }
        ensures numbers { All (λ p. p < 2 ^ 64) positions.now }
    {
        for (position, click) in positions.iter().zip(clicks) {
            self.put(*position, click.share()?)?;
        }
        Ok(())
    }

    // The turn with this change that sends them.
    pub(crate) fn turn(self, change: Change) -> Turn
        ensures change { result.step.change ≡ change }
        ensures packets { result.packets.items ≡ self.packets.items }
        ensures next { result.step.next ≡ self.dealer.next }
    {
        let Outbox { dealer, packets } = self;
        Turn {
            packets,
            step: Step {
                next: dealer.next,
                change,
            },
        }
    }
}
