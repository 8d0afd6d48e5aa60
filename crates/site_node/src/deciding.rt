// What decides a node's turns: one of the turn tables, over no disk.
ghost use Rattle.std.specs.Prelude.{◌≡◌, ℕ, Bool, Option, Some, None, option_map, All, IsTrue, IfOk, IfErr, IfSome, OnOk, IsErrOf};
ghost use Rattle.outside.specs.Faults.{tallied};
ghost use Rattle.turn_defs.specs.declared.packet.Packet.{Packet};
ghost use Rattle.turn_defs.specs.declared.node.Node.{Node};
ghost use Rattle.turn_defs.specs.Packets.{IsPacket};
ghost use Rattle.turn_defs.specs.Setting.{Setting};
ghost use Rattle.turn_defs.specs.Turns.{Note};
ghost use Rattle.site_node.specs.Bytes.{IsInput};
ghost use Rattle.site_node.specs.Faults.{is_read_fault};
ghost use Rattle.site_node.specs.States.{Fits, Rows, row_of};
ghost use Rattle.site_node.specs.Deciding.{IsTurn, IsUndecided, spent_at};

use crate::NodeFault;
use turn_defs::{Input, Node, Packet};

/// What a turn writes and sends, and what the core goes on from. The note has to stand in the records before the turn is
/// kept, and before a packet goes out.
#[derive(Drop)]
pub struct Turn<N, C> {
    pub note: Option<N>,
    pub packets: Vec<(Node, Packet)>,
    pub change: C,
}

/// What decides a node's turns, where its records hold a K. It has no disk, but it may read a log.
pub trait Core<K> {
    /// A record to write.
    type Note: Drop;

    /// What it goes on from once a turn is kept.
    type Change: Drop;

    /// What it is told of the records when it is put down.
    type Held: Drop;

    /// Whether its log tells what it holds.
    ghost tells: { Bool };

    /// What it knows besides the records while it is up.
    ghost Live: { Type 0 };

    /// The rows of its turns.
    ghost rows: { Rows K Live };

    /// A note in the terms of its rows.
    ghost noted: { Self.Note → Note };

    /// Whether the note has a spelling.
    ghost spelled: { Self.Note → Type 0 };

    /// Whether records that are these take the note.
    ghost takes: { K → Note → Bool };

    /// Whether these are told to be the records.
    ghost told: { Self.Held → K → Type 0 };

    /// Whether it is a node of the setting whose records may be these, whatever it knows.
    ghost serves: { Self → Setting → K → Type 0 };

    /// Whether it knows these records and, while it is up, this besides.
    ghost knows: { Self → Setting → K → Option Live → Type 0 };

    /// Whether it can keep a turn of this note and this change.
    ghost can_keep: { Self → Option Self.Note → Self.Change → Type 0 };

    /// Whether it knows these records and this besides once it keeps that turn.
    ghost goes_on: { Self → Option Self.Note → Self.Change → Setting → K → Live → Type 0 };

    /// The kept epoch where it is the last one, so that no start can raise it.
    ghost spent: { K → Option ℕ };

    /// What it answers to each of its three questions.
    ghost wants_as: { Setting → K → Live → Bool };

    ghost unfinished_as: { Setting → K → Live → Bool };

    ghost at_rest_as: { Setting → K → Live → Bool };

    /// How many faults its log has met.
    ghost log_faults: { Self → ℕ };

    /// Whether it has something to do by itself.
    fn wants(&self) -> bool
        ensures { (g : Setting) (k : K) (l : Live) → knows self.now g k (Some l) → result ≡ wants_as g k l };

    /// Whether it waits for an answer.
    fn unfinished(&self) -> bool
        ensures { (g : Setting) (k : K) (l : Live) → knows self.now g k (Some l) → result ≡ unfinished_as g k l };

    /// Whether nothing is left to do.
    fn at_rest(&self) -> bool
        ensures { (g : Setting) (k : K) (l : Live) → knows self.now g k (Some l) → result ≡ at_rest_as g k l };

    /// What a turn writes and sends. What it knows stays as it is.
    fn decide(&mut self, input: Input) -> Result<Turn<Self::Note, Self::Change>, NodeFault>
        requires { IsInput input }
        ensures same { IsTrue tells → (g : Setting) (k : K) (live : Option Live) → knows self.old g k live → knows self.new g k live }
        ensures turn { IsTrue tells → IfOk result (λ t. (g : Setting) (k : K) (live : Option Live) → knows self.old g k live → Fits live input
            → IsTurn rows.lands takes (serves self.new g) (goes_on self.new t.note t.change g) g k (row_of rows g k live input) (option_map noted t.note) t.packets.items) }
        ensures packets { IfOk result (λ t. All (λ (p : Node × Packet). IsPacket p.1) t.packets.items) }
        ensures spelled { IfOk result (λ t. IfSome t.note spelled) }
        ensures can_keep { IfOk result (λ t. can_keep self.new t.note t.change) }
        ensures kind { IfErr result IsUndecided }
        ensures spent { (g : Setting) (k : K) (live : Option Live) → knows self.old g k live → (last : ℕ) → IsErrOf result (NodeFault.Spent last) → spent_at spent k input ≡ Some last }
        ensures spends { (g : Setting) (k : K) (live : Option Live) → knows self.old g k live → (last : ℕ) → spent_at spent k input ≡ Some last → OnOk result ⊥ }
        ensures log_tally { log_faults self.new ≡ tallied (log_faults self.old) (is_read_fault result) };

    /// Makes the turn's change, once its note is written. It is up then.
    fn keep(&mut self, turn: Turn<Self::Note, Self::Change>)
        requires { can_keep self.old turn.note turn.change }
        ensures knows { (g : Setting) (k : K) (l : Live) → goes_on self.old turn.note turn.change g k l → knows self.new g k (Some l) }
        ensures log_count { log_faults self.new ≡ log_faults self.old };

    /// It is down, and knows what it is told of the records.
    fn put_down(&mut self, held: Self::Held)
        ensures knows { (g : Setting) (k : K) → serves self.old g k → told held k → knows self.new g k None }
        ensures log_count { log_faults self.new ≡ log_faults self.old };

    /// What it knows it serves.
    ghost serves_known: { (core : Self) (g : Setting) (k : K) (live : Option Live) → knows core g k live → serves core g k };
}
