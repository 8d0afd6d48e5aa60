//! The entries of a plan's lists: rules and stops.
ghost use Rattle.std.specs.Prelude.{◌≡◌, ◌<◌, ℕ, Option, false, codes, map, IfOk, IfErr, IfSome};
ghost use Rattle.std.specs.List.{All};
ghost use Rattle.std.specs.Option.{option_map_or};
ghost use Rattle.std.specs.Str.{bytes_eq};
ghost use Rattle.serde_json.specs.Data.{Data};
ghost use Rattle.serde_json.specs.Find.{as_str};
ghost use Rattle.serde_json.specs.View.{view};
ghost use Rattle.lossy_link.specs.declared.bad_plan.Field.{Field};
ghost use Rattle.lossy_link.specs.declared.bad_plan.Field.TheVariants.{Rules, Stops};
ghost use Rattle.lossy_link.specs.Entries as entry;
ghost use Rattle.lossy_link.specs.Outcome.{good, IsFaultOf};

use crate::bad_plan::{BadPlan, Field};
use crate::members::{has_only, number, number_at, small_number_at, small_number_or, text_at};
use crate::plan::{PlanStop, Rule};
use crate::words::{disk_of, fate_of, image_of, kind_of};
use serde_json::Value;
use std::alloc::Global;

static RULE_KEYS: [&str; 7] = ["from", "to", "first", "count", "every", "fate", "by"];

static STOP_KEYS: [&str; 4] = ["disk", "which", "call", "image"];

// A list has at most so many entries.
const MOST_ENTRIES: usize = 64;

// An entry of a list of the plan.
pub(crate) trait Entry: Sized + Drop {
    ghost reads: { Data → Option Self };

    ghost place: { ℕ → Field };

    ghost valid: { Self → Type 0 };

    fn read(value: &Value) -> Option<Self>
        ensures value { result ≡ reads (view value.now) }
        ensures valid { IfSome result valid };

    // The place of the entry of number `n`.
    fn field(n: u32) -> Field
        ensures { result ≡ place n };
}

impl Entry for Rule {
    ghost reads = { entry.rule_of };

    ghost place = { Rules };

    ghost valid = { λ r. 0 < r.every };

    fn read(value: &Value) -> Option<Rule> {
        if has_only(value, &RULE_KEYS) {
            rule_at(value)
        } else {
            None
        }
    }

    fn field(n: u32) -> Field {
        Field::Rules(n)
    }
}

fn rule_at(value: &Value) -> Option<Rule>
    ensures value { result ≡ entry.rule_at (view value.now) }
    ensures valid { IfSome result (λ r. 0 < r.every) }
{
    let from = kind_of(text_at(value, "from")?)?;
    let to = kind_of(text_at(value, "to")?)?;
    let first = number_at(value, "first", 0, u64::MAX)?;
    let count = small_number_at(value, "count", 0, 1_000_000)?;
    let every = small_number_or(value, 1, "every", 1, 1_000_000)?;
    let by = small_number_or(value, 0, "by", 0, 1_000)?;
    let fate = fate_of(by, text_at(value, "fate")?)?;
    Some(Rule {
        from,
        to,
        first,
        count,
        every,
        fate,
    })
}

impl Entry for PlanStop {
    ghost reads = { entry.stop_of };

    ghost place = { Stops };

    ghost valid = { λ s. Unit {0} };

    fn read(value: &Value) -> Option<PlanStop> {
        if has_only(value, &STOP_KEYS) {
            stop_at(value)
        } else {
            None
        }
    }

    fn field(n: u32) -> Field {
        Field::Stops(n)
    }
}

fn stop_at(value: &Value) -> Option<PlanStop>
    ensures { result ≡ entry.stop_at (view value.now) }
{
    let disk = disk_of(text_at(value, "disk")?)?;
    let which = which_of(value.get("which")?)?;
    let call = number_at(value, "call", 0, u64::MAX)?;
    let image = image_of(text_at(value, "image")?)?;
    Some(PlanStop {
        disk,
        which,
        call,
        image,
    })
}

// All disks of the kind, or one by its number.
fn which_of(value: &Value) -> Option<Option<u8>>
    ensures { result ≡ entry.which_of (view value.now) }
{
    if is_all(value) {
        Some(None)
    } else {
        match number(value, 0, 7) {
            Some(n) => Some(Some(n as u8)),
            None => None,
        }
    }
}

fn is_all(value: &Value) -> bool
    ensures { result ≡ option_map_or (λ t. bytes_eq t (codes "all")) (as_str (view value.now)) false }
{
    match value.as_str() {
        Some(text) => text == "all",
        None => false,
    }
}

// Reads the entries of a list, at most 64, or finds the first that is none. What it reads is copied into a vector.
pub(crate) fn list_of<T: Entry>(alloc: Global, values: &[Value]) -> Result<Vec<T>, BadPlan>
    ensures ok { IfOk result (λ v. entry.list_of T.reads T.place 0 (map view values.now) ≡ good v.items) }
    ensures valid { IfOk result (λ v. All T.valid v.items) }
    ensures err { IfErr result (IsFaultOf (entry.list_of T.reads T.place 0 (map view values.now))) }
{
    let mut entries = Vec::new(alloc);
    for value in values {
        let n = entries.len();
        if n >= MOST_ENTRIES {
            return Err(BadPlan::At(T::field(MOST_ENTRIES as u32)));
        }
        match T::read(value) {
            Some(entry) => entries.push(entry)?,
            None => return Err(BadPlan::At(T::field(n as u32))),
        }
    }
    Ok(entries)
}
