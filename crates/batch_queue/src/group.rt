// The inserts of one id.
ghost use Rattle.std.specs.Prelude.{◌≡◌, ◌++◌, ◌∷◌, [], IfOk, OnOk, OnErr};

use registry_state::Insert;
use std::alloc::{AllocError, Global};
use std::marker::Model;

/// Inserts with their numbers, in order.
#[derive(Debug, Drop)]
pub(crate) struct Group {
    items: Vec<(u64, Insert)>,
}

impl Model for Group {
    ghost use Rattle.std.specs.Prelude.{ℕ, List};
    ghost use Rattle.registry_state.specs.declared.Insert.{Insert};

    ghost Value = { List (ℕ × Insert) };

    ghost view = { λ a. a.items.items };
}

impl Group {
    // The one insert.
    pub(crate) fn of(alloc: Global, number: u64, insert: Insert) -> Result<Group, AllocError>
        ensures { IfOk result (λ group. group ≡ (number, insert) ∷ []) }
    {
        let mut items = Vec::new(alloc);
        items.push((number, insert))?;
        Ok(Group { items })
    }

    // One more, last.
    pub(crate) fn push(&mut self, number: u64, insert: Insert) -> Result<(), AllocError>
        ensures ok { OnOk result (self.new ≡ self.old ++ (number, insert) ∷ []) }
        ensures err { OnErr result (self.new ≡ self.old) }
    {
        self.items.push((number, insert))?;
        Ok(())
    }

    // The inserts with their numbers, borrowed.
    pub(crate) fn as_slice(&self) -> &[(u64, Insert)]
        ensures { result.now ≡ self.now }
    {
        &self.items
    }
}
