// A node of any kind.
ghost use Rattle.std.specs.Prelude.{◌≡◌, None, true};

use crate::{Core, Done, NodeFault, Records, SiteNode, Turn, read_input, spell, told_note};
use air_bus::{Input as Begun, Packets, Payload};
use outside::{Gate, Point};
use std::alloc::{AllocError, Global};
use std::marker::PhantomData;
use turn_defs::{Config, Input};

/// A node: a core over its records. It is down, up, or stopped in an open turn.
#[derive(Drop)]
pub struct Node<K, C, R> {
    number: u16,
    config: Config,
    core: C,
    records: R,
    // While it waits for `restart`, the record that may have landed.
    in_doubt: Option<Payload>,
    alloc: Global,
    of: PhantomData<K>,
}

// A turn that is decided and spelled, with its note ready to be appended.
#[derive(Drop)]
struct ReadyTurn<N, C, F> {
    turn: Turn<N, C>,
    packets: Packets,
    framed: Option<F>,
}

impl<K, C: Core<K>, R: Records<K, C>> Node<K, C, R> {
    ghost use Rattle.std.specs.Prelude.{◌≡◌, ◌⊎◌, ◌≤◌, ℕ, true, false, None, Option, is_some, is_err, option_map, IsTrue, IfOk, IfErr, IfSome, OnOk, OnErr, IsErrOf};
    ghost use Rattle.outside.specs.Faults.{Rose, tallied};
    ghost use Rattle.turn_defs.specs.Setting.{Setting};
    ghost use Rattle.turn_defs.specs.Turns.{land};
    ghost use Rattle.site_node.specs.Bytes.{AreSpelled, IsInput, IsNoted};
    ghost use Rattle.site_node.specs.Faults.{is_read_fault, MeetsStops};
    ghost use Rattle.site_node.specs.States.{Fits, row_of};
    ghost use Rattle.site_node.specs.Deciding.{IsTurn, IsUndecided, spent_at};
    ghost use Rattle.site_node.specs.Shell.{IsInDoubt, StandsAt, down_over, waits_by};

    /// A node that is down, over its records. It takes no memory.
    pub fn new(alloc: Global, number: u16, config: Config, core: C, records: R) -> Node<K, C, R>
        requires { R.ready records ≡ true }
        ensures number { result.number ≡ number }
        ensures core { result.core ≡ core }
        ensures records { result.records ≡ records }
        ensures up { waits_by result.in_doubt (R.ready result.records) ≡ false }
        ensures stands { (g : Setting) (k : K) → g.config ≡ config → C.knows core g k None → R.holds records k → StandsAt C.Core R.Records result.config result.in_doubt result.core result.records (down_over g k) }
    {
        Node {
            number,
            config,
            core,
            records,
            in_doubt: None,
            alloc,
            of: PhantomData,
        }
    }

    /// The core and the records.
    pub fn into_parts(self) -> (C, R)
        ensures { (result.0 ≡ self.core) × (result.1 ≡ self.records) }
    {
        (self.core, self.records)
    }

    // Decides the turn, spells its packets, and readies its note. Nothing changes but the disk's room, and how much of a log
    // was read.
    fn prepare(
        &mut self,
        input: Input,
    ) -> Result<ReadyTurn<C::Note, C::Change, R::Framed>, NodeFault>
        requires up { (self.old.in_doubt ≡ None) × (R.ready self.old.records ≡ true) }
        requires input { IsInput input }
        ensures ready { R.ready self.new.records ≡ true }
        ensures same { (self.new.number ≡ self.old.number) × (self.new.config ≡ self.old.config) × (self.new.in_doubt ≡ self.old.in_doubt) }
        ensures knows { IsTrue C.tells → (g : Setting) (k : K) (live : Option C.Live) → C.knows self.old.core g k live → C.knows self.new.core g k live }
        ensures calm { IsTrue R.tells → R.calm self.old.records self.new.records }
        ensures plan { IsTrue R.planned → MeetsStops false (R.stops_left self.old.records) (R.stops_left self.new.records) (R.faults self.old.records) (R.faults self.new.records) }
        ensures count { R.faults self.new.records ≡ R.faults self.old.records }
        ensures turn { IsTrue C.tells → IfOk result (λ r. (g : Setting) (k : K) (live : Option C.Live) → C.knows self.old.core g k live → Fits live input
            → IsTurn C.rows.lands C.takes (C.serves self.new.core g) (C.goes_on self.new.core r.turn.note r.turn.change g) g k (row_of C.rows g k live input) (option_map R.note_in r.framed) r.turn.packets.items) }
        ensures packets { IfOk result (λ r. AreSpelled r.turn.packets.items r.packets) }
        ensures can_keep { IfOk result (λ r. C.can_keep self.new.core r.turn.note r.turn.change) }
        ensures room { IfOk result (λ r. IfSome r.framed (R.has_room self.new.records)) }
        ensures kind { IfErr result IsUndecided }
        ensures spent { (g : Setting) (k : K) (live : Option C.Live) → C.knows self.old.core g k live → (last : ℕ) → IsErrOf result (NodeFault.Spent last) → spent_at C.spent k input ≡ Some last }
        ensures spends { (g : Setting) (k : K) (live : Option C.Live) → C.knows self.old.core g k live → (last : ℕ) → spent_at C.spent k input ≡ Some last → OnOk result ⊥ }
        ensures log_tally { C.log_faults self.new.core ≡ tallied (C.log_faults self.old.core) (is_read_fault result) }
    {
        let turn = self.core.decide(input)?;
        let packets = spell(self.alloc, &turn.packets)?;
        let framed = self.frame(&turn.note)?;
        Ok(ReadyTurn {
            turn,
            packets,
            framed,
        })
    }

    // Readies the note, if there is one.
    fn frame(&mut self, note: &Option<C::Note>) -> Result<Option<R::Framed>, AllocError>
        requires ready { R.ready self.old.records ≡ true }
        requires spelled { IfSome note.now C.spelled }
        ensures ready { R.ready self.new.records ≡ true }
        ensures same { (self.new.number ≡ self.old.number) × (self.new.config ≡ self.old.config) × (self.new.core ≡ self.old.core) × (self.new.in_doubt ≡ self.old.in_doubt) }
        ensures note { IfOk result (λ f. option_map R.note_in f ≡ option_map C.noted note.now) }
        ensures room { IfOk result (λ f. IfSome f (R.has_room self.new.records)) }
        ensures calm { IsTrue R.tells → R.calm self.old.records self.new.records }
        ensures plan { IsTrue R.planned → MeetsStops false (R.stops_left self.old.records) (R.stops_left self.new.records) (R.faults self.old.records) (R.faults self.new.records) }
        ensures count { R.faults self.new.records ≡ R.faults self.old.records }
    {
        match note {
            None => Ok(None),
            Some(note) => {
                self.expect_taken(note)?;
                let framed = self.records.frame(self.alloc, note)?;
                Ok(Some(framed))
            }
        }
    }

    // Refuses a note that the records don't take, as if there were no memory. The note of a row is never refused.
    fn expect_taken(&self, note: &C::Note) -> Result<(), AllocError>
        ensures taken { OnOk result (R.can_take self.now.records (C.noted note.now) ≡ true) }
        ensures never { (k : K) → R.holds self.now.records k → C.takes k (C.noted note.now) ≡ true → OnErr result ⊥ }
    {
        if self.records.takes(note) {
            Ok(())
        } else {
            Err(AllocError)
        }
    }

    // Appends the note, if there is one. Where the disk fails the note is in doubt.
    fn append(&mut self, framed: Option<R::Framed>) -> Result<Option<Payload>, NodeFault>
        requires up { (self.old.in_doubt ≡ None) × (R.ready self.old.records ≡ true) }
        requires room { IfSome framed (R.has_room self.old.records) }
        ensures same { (self.new.number ≡ self.old.number) × (self.new.config ≡ self.old.config) × (self.new.core ≡ self.old.core) }
        ensures up { OnOk result ((self.new.in_doubt ≡ None) × (R.ready self.new.records ≡ true)) }
        ensures refused { IfErr result (λ e. (e ≡ NodeFault.Stopped) × (is_some self.new.in_doubt ≡ true)) }
        ensures note { IfOk result (IsNoted (option_map R.note_in framed)) }
        ensures holds { IsTrue R.tells → (k : K) → R.holds self.old.records k → OnOk result (R.holds self.new.records (land C.rows.lands (option_map R.note_in framed) k)) }
        ensures doubts { IsTrue R.tells → (k : K) → R.holds self.old.records k → OnErr result (IsInDoubt (R.doubts self.new.records k) C.rows.lands self.new.in_doubt (option_map R.note_in framed) k) }
        ensures moments { IsTrue R.tells → (r : R) (k : K) → R.calm r self.old.records → R.holds r k → (c : R.Contents) → R.since r self.new.records c → R.keeps k c ⊎ R.keeps (land C.rows.lands (option_map R.note_in framed) k) c }
        ensures grown { IsTrue R.tells → (r : R) (k : K) → R.calm r self.old.records → R.holds r k → R.grown r self.new.records }
        ensures fault { OnErr result (Rose (R.faults self.old.records) (R.faults self.new.records)) }
        ensures plan { IsTrue R.planned → MeetsStops (is_err result) (R.stops_left self.old.records) (R.stops_left self.new.records) (R.faults self.old.records) (R.faults self.new.records) }
        ensures count { R.faults self.old.records ≤ R.faults self.new.records }
    {
        match framed {
            None => Ok(None),
            Some(framed) => match self.records.append(framed) {
                Ok(record) => Ok(Some(record)),
                Err(record) => {
                    self.in_doubt = Some(record);
                    Err(NodeFault::Stopped)
                }
            },
        }
    }
}

impl<K, C: Core<K>, R: Records<K, C>> SiteNode for Node<K, C, R> {
    ghost use Rattle.std.specs.Prelude.{◌≡◌, ◌&&◌};
    ghost use Rattle.site_node.specs.States.{State, Leads, state_phase, Says};
    ghost use Rattle.site_node.specs.Paths.{begins as begins_by, phase_led};
    ghost use Rattle.site_node.specs.Shell.{KeptOn, StandsAt, spends_at, kept_images, both_tell, waits_by};

    ghost tells = { C.tells && R.tells };

    ghost planned = { R.planned };

    ghost State = { State K C.Live };

    ghost leads = { Leads C.rows };

    ghost phase_of = { state_phase };

    ghost wants_as = { Says C.wants_as };

    ghost unfinished_as = { Says C.unfinished_as };

    ghost at_rest_as = { Says C.at_rest_as };

    ghost spends = { spends_at C.spent };

    ghost Contents = { R.Contents };

    ghost keeps = { KeptOn C.Core R.Records };

    ghost number = { λ node. node.number };

    ghost disk_count = { λ _. R.disk_count };

    ghost waits = { λ node. waits_by node.in_doubt (R.ready node.records) };

    ghost stands = { λ node s. StandsAt C.Core R.Records node.config node.in_doubt node.core node.records s };

    ghost image = { λ node. R.image node.records };

    ghost since = { λ old new. R.since old.records new.records };

    ghost grown = { λ old new. R.grown old.records new.records };

    ghost faults = { λ node. R.faults node.records };

    ghost disk_faults = { λ node. R.disk_faults node.records };

    ghost stops_left = { λ node. R.stops_left node.records };

    ghost log_faults = { λ node. C.log_faults node.core };

    ghost begins = { begins_by C.rows };

    ghost phases = { phase_led C.rows };

    ghost images = { λ node s tells. kept_images C.Core R.Records node.config node.in_doubt node.core node.records s (both_tell C.tells R.tells tells).1 };

    fn wants(&self) -> bool {
        self.core.wants()
    }

    fn unfinished(&self) -> bool {
        self.core.unfinished()
    }

    fn at_rest(&self) -> bool {
        self.core.at_rest()
    }

    fn turn<G: Gate>(&mut self, input: &Begun, gate: &G) -> Result<Done, NodeFault> {
        match read_input(self.alloc, self.config, input)? {
            None => Ok(Done {
                note: None,
                packets: Packets::new(self.alloc),
            }),
            Some(input) => {
                let ready = self.prepare(input)?;
                if ready.framed.is_some() {
                    gate.pass(Point::BeforeAppend, self.number);
                }
                let ReadyTurn {
                    turn,
                    packets,
                    framed,
                } = ready;
                let note = self.append(framed)?;
                self.core.keep(turn);
                Ok(Done { note, packets })
            }
        }
    }

    fn restart(&mut self) -> Result<Option<Payload>, NodeFault> {
        // Never: where nothing is in doubt the records are ready, and the node is up.
        if self.in_doubt.is_none() {
            return Err(NodeFault::Memory);
        }
        let (held, landed) = self.records.reopen(self.alloc)?;
        self.core.put_down(held);
        Ok(told_note(landed, self.in_doubt.take()))
    }
}
