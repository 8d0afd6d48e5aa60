//! What holds of each history that an `Air` makes.
ghost use Rattle.std.specs.Prelude.{◌≡◌, ℕ, true, List, [], filter};
ghost use Rattle.lossy_link.specs.declared.plan.Kind.{Kind};
ghost use Rattle.lossy_link.specs.Fates.{PlanView};
ghost use Rattle.air_bus.specs.declared.entry.Entry.{Entry};
ghost use Rattle.air_bus.specs.History.{is_of, IsAired};
ghost use Rattle.air_bus.specs.Waiting.{is_dead};
ghost use Rattle.air_bus.specs.Laws.{Alternates, DeliveredWasSent};

/// A node's entries alternate: it starts where it is down, and each turn is closed once.
pub fn turns_alternate()
    ensures { (plan : PlanView) (kinds : List Kind) (history : List Entry) → IsAired plan kinds history → Alternates history }
{}

/// A dead replica has no entry.
pub fn dead_have_no_entry()
    ensures { (plan : PlanView) (kinds : List Kind) (history : List Entry) → IsAired plan kinds history
        → (n : ℕ) → is_dead plan.dead kinds n ≡ true → filter (is_of n) history ≡ [] }
{}

/// Each packet that a turn begins with was sent before, by that sender to that node.
pub fn delivered_was_sent()
    ensures { (plan : PlanView) (kinds : List Kind) (history : List Entry) → IsAired plan kinds history → DeliveredWasSent history }
{}
