//! Reading a plan.
ghost use Rattle.std.specs.Prelude.{◌≡◌, ◌⊎◌, map, IfOk, IfErr, MatchResult};
ghost use Rattle.serde_json.specs.View.{view};
ghost use Rattle.lossy_link.specs.declared.bad_plan.BadPlan.TheVariants.{At, Memory};
ghost use Rattle.lossy_link.specs.declared.bad_plan.Field.{Field as Place};
ghost use Rattle.lossy_link.specs.Fates.{PlanView};
ghost use Rattle.lossy_link.specs.Outcome.{good, IsFaultOf};
ghost use Rattle.lossy_link.specs.Plans.{IsPlanOf, IsFirstBad, IsFault};
ghost use Rattle.lossy_link.specs.Plans as data_plan;

use crate::bad_plan::{BadPlan, Field};
use crate::entries::list_of;
use crate::members::{array_at, has_only, number};
use crate::plan::{Plan, PlanStop, Rule};
use serde_json::Value;
use std::alloc::Global;

/// A plan's text has at most so many bytes.
pub const MOST_BYTES: usize = 1_048_576;

static TOP_KEYS: [&str; 3] = ["rules", "stops", "dead"];

impl Plan {
    /// Reads a plan from the bytes of a JSON object. Of a key that stands twice the last value counts.
    ///
    /// It takes memory for the whole JSON value and for the rules and stops. It goes through the bytes a small fixed number
    /// of times; the keys of an object are put in order, so n bytes take O(n log n) at most.
    pub fn read(alloc: Global, bytes: &[u8]) -> Result<Plan, BadPlan>
        // What is read is the plan that the bytes are.
        ensures plan { IfOk result (λ p. IsPlanOf bytes.now p) }
        // What is told is the first bad place.
        ensures place { IfErr result (IsFault bytes.now) }
        // A plan is read, unless memory runs out.
        ensures only { (p : PlanView) → IsPlanOf bytes.now p → MatchResult result (λ q. q ≡ p) (λ bad. bad ≡ Memory) }
        // Bytes that are no plan are refused.
        ensures refused { (e : Place) → IsFirstBad bytes.now e → MatchResult result (λ _. ⊥) (λ bad. (bad ≡ At e) ⊎ (bad ≡ Memory)) }
    {
        read_plan(alloc, bytes)
    }
}

fn read_plan(alloc: Global, bytes: &[u8]) -> Result<Plan, BadPlan>
    ensures plan { IfOk result (λ p. IsPlanOf bytes.now p) }
    ensures place { IfErr result (IsFault bytes.now) }
{
    if bytes.len() > MOST_BYTES {
        return Err(BadPlan::At(Field::Size));
    }
    match Value::from_slice(alloc, bytes) {
        Ok(value) => plan_of(alloc, &value),
        Err(error) => {
            if error.is_memory() {
                Err(BadPlan::Memory)
            } else {
                Err(BadPlan::At(Field::Json))
            }
        }
    }
}

fn plan_of(alloc: Global, value: &Value) -> Result<Plan, BadPlan>
    ensures ok { IfOk result (λ p. data_plan.plan_of (view value.now) ≡ good p) }
    ensures err { IfErr result (IsFaultOf (data_plan.plan_of (view value.now))) }
{
    if !has_only(value, &TOP_KEYS) {
        return Err(BadPlan::At(Field::Top));
    }
    let Some(rules) = array_at(value, "rules") else {
        return Err(BadPlan::At(Field::Top));
    };
    let Some(stops) = array_at(value, "stops") else {
        return Err(BadPlan::At(Field::Top));
    };
    let Some(dead) = array_at(value, "dead") else {
        return Err(BadPlan::At(Field::Top));
    };
    parts_of(alloc, rules, stops, dead)
}

fn parts_of(
    alloc: Global,
    rules: &[Value],
    stops: &[Value],
    dead: &[Value],
) -> Result<Plan, BadPlan>
    ensures ok { IfOk result (λ p. data_plan.parts_of (map view rules.now) (map view stops.now) (map view dead.now) ≡ good p) }
    ensures err { IfErr result (IsFaultOf (data_plan.parts_of (map view rules.now) (map view stops.now) (map view dead.now))) }
{
    let rules = list_of::<Rule>(alloc, rules)?;
    let stops = list_of::<PlanStop>(alloc, stops)?;
    let dead = dead_of(dead)?;
    Ok(Plan::new(rules, stops, dead))
}

// The dead replica, if there is one.
fn dead_of(values: &[Value]) -> Result<Option<u8>, BadPlan>
    ensures ok { IfOk result (λ n. data_plan.dead_of (map view values.now) ≡ good n) }
    ensures err { IfErr result (IsFaultOf (data_plan.dead_of (map view values.now))) }
{
    match values {
        [] => Ok(None),
        [value] => match number(value, 0, 2) {
            Some(n) => Ok(Some(n as u8)),
            None => Err(BadPlan::At(Field::Dead)),
        },
        _ => Err(BadPlan::At(Field::Dead)),
    }
}
