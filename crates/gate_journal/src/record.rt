// A kind of record.
ghost use Rattle.std.specs.Prelude.{◌≡◌, ◌≤◌, ◌+◌, ◌++◌, [], ◌∷◌, true, false, List, ℕ, length, Ok, Err, IfOk, OnOk};
ghost use Rattle.gate_journal.specs.declared.frame.TheConstants.{MAX_PAYLOAD};
ghost use Rattle.gate_journal.specs.Gate.{spans};
ghost use Rattle.gate_journal.specs.Records.{Read};

use std::alloc::{AllocError, Global};
use wire_core::Origin;

/// A kind of record, as what its records stand for: the value that a journal of it keeps in memory.
pub trait Record: Drop {
    /// One record, as the program has it.
    type One: Drop;

    /// What records stand for.
    ghost Kept: { Type 0 };

    /// What is read of a file keeps this value.
    ghost keeps: { Kept → Read → Type 0 };

    /// What is read of a file is damaged at this place, in its gates or else at its first record that is no next one.
    ghost damaged: { Read → ℕ → Type 0 };

    ghost keeps_once: { (value : Kept) (read : Read) → IsProp (keeps value read) };

    ghost kept: { Self → Kept };

    /// Whether this record may come next.
    ghost may_come: { Kept → Self.One → Type 0 };

    /// What it then makes of the value.
    ghost after: { Kept → Self.One → Kept };

    /// What stands where there is no record.
    fn new(alloc: Global) -> Result<Self, AllocError>
        ensures start { IfOk result (λ value. keeps (kept value) (Ok [])) };

    /// Takes one more payload of this origin, and says whether it is a next record.
    fn take(&mut self, origin: Origin, payload: &[u8]) -> Result<bool, AllocError>
        ensures next { IfOk result (λ is. is ≡ true → (ps : List (List ℕ)) → keeps (kept self.old) (Ok ps) → keeps (kept self.new) (Ok (ps ++ payload.now ∷ []))) }
        ensures damage { IfOk result (λ is. is ≡ false → (ps rest : List (List ℕ)) → keeps (kept self.old) (Ok ps) → damaged (Ok (ps ++ payload.now ∷ rest)) (1 + spans ps)) };

    ghost gates_first: { (at : ℕ) → damaged (Err at) at };
}

/// A kind whose journal appends records, and makes of the value what each makes of it.
pub trait Appends: Record {
    /// The payload of a record.
    ghost spelled: { Self.One → List ℕ };

    /// The length of the longest record.
    const LONGEST: u32;

    ghost LONGEST: { ℕ };

    /// How many places there are for records to come, and how many this one takes, one at most.
    ghost places: { Self → ℕ };

    ghost takes_places: { Self.One → ℕ };

    /// Makes room for one more record, whichever.
    fn reserve(&mut self) -> Result<(), AllocError>
        ensures room { OnOk result (1 ≤ places self.new) }
        ensures kept { Self.kept self.new ≡ Self.kept self.old };

    /// Puts a record that may come next, in the room that was made.
    fn put(&mut self, one: Self::One)
        requires next { Self.may_come (Self.kept self.old) one }
        requires room { takes_places one ≤ places self.old }
        ensures kept { Self.kept self.new ≡ Self.after (Self.kept self.old) one }
        ensures room { places self.old ≤ places self.new + takes_places one };

    ghost short: { LONGEST ≤ MAX_PAYLOAD };

    ghost takes_one: { (one : Self.One) → takes_places one ≤ 1 };

    ghost fits: { (value : Self.Kept) (one : Self.One) → Self.may_come value one → length (spelled one) ≤ LONGEST };

    /// Behind records that keep the value it may come next, and then they keep what it makes of the value.
    ghost comes_next: { (value : Self.Kept) (one : Self.One) (ps : List (List ℕ)) → Self.may_come value one → Self.keeps value (Ok ps) → Self.keeps (Self.after value one) (Ok (ps ++ spelled one ∷ [])) };
}
