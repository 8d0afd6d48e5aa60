ghost use Rattle.std.specs.Prelude.{◌≡◌};

use crate::Answer;
use std::marker::Model;

/// Answers, in the order of the inserts that they answer.
#[derive(Debug, Drop)]
pub struct Answers {
    items: Vec<Answer>,
}

impl Model for Answers {
    ghost use Rattle.std.specs.Prelude.{List};
    ghost use Rattle.registry_state.specs.declared.Answer.{Answer};

    ghost Value = { List Answer };

    ghost view = { λ a. a.items.items };
}

impl Answers {
    /// The answers, borrowed.
    pub fn as_slice(&self) -> &[Answer]
        ensures { result.now ≡ self.now }
    {
        &self.items
    }
}

impl From<Vec<Answer>> for Answers {
    ghost from_gives = { λ items answers. answers ≡ items.items };

    fn from(items: Vec<Answer>) -> Answers {
        Answers { items }
    }
}
