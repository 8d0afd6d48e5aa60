ghost use Rattle.std.specs.Prelude.{◌≡◌};

use registry_state::{Answer, Insert};
use std::marker::Model;

/// Inserts with their answers, in the order in which the inserts wait.
#[derive(Debug, Drop)]
pub struct Answered {
    items: Vec<(Insert, Answer)>,
}

impl Model for Answered {
    ghost use Rattle.std.specs.Prelude.{List};
    ghost use Rattle.registry_state.specs.declared.Insert.{Insert};
    ghost use Rattle.registry_state.specs.declared.Answer.{Answer};

    ghost Value = { List (Insert × Answer) };

    ghost view = { λ a. a.items.items };
}

impl Answered {
    /// The inserts with their answers, borrowed.
    pub fn as_slice(&self) -> &[(Insert, Answer)]
        ensures { result.now ≡ self.now }
    {
        &self.items
    }
}

impl From<Vec<(Insert, Answer)>> for Answered {
    ghost from_gives = { λ items answered. answered ≡ items.items };

    fn from(items: Vec<(Insert, Answer)>) -> Answered {
        Answered { items }
    }
}
