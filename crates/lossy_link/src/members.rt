//! The members of a JSON object. Of a key that stands twice the last value counts.
ghost use Rattle.std.specs.Prelude.{◌≡◌, ◌≤◌, IfSome, map, option_map, string_bytes};
ghost use Rattle.std.specs.BTreeMap.{keys};
ghost use Rattle.std.specs.List.{list_all, list_any};
ghost use Rattle.std.specs.Str.{bytes_eq};
ghost use Rattle.serde_json.specs.Find.{as_array};
ghost use Rattle.serde_json.specs.View.{view};
ghost use Rattle.lossy_link.specs.Members as member;

use serde_json::{Map, Value};

// Whether the value is an object with no other keys than these. Each key is compared with each name.
pub(crate) fn has_only(value: &Value, names: &[&str]) -> bool
    ensures { result ≡ member.has_only (map (λ n. n.now) names.now) (view value.now) }
{
    match value.as_object() {
        Some(object) => keys_within(object, names),
        None => false,
    }
}

fn keys_within(object: &Map<String, Value>, names: &[&str]) -> bool
    ensures { result ≡ list_all (λ k. list_any (λ n. bytes_eq n.now (string_bytes k)) names.now) (keys object.now) }
{
    object.keys().all(|key| is_among(key.as_str(), names))
}

fn is_among(key: &str, names: &[&str]) -> bool
    ensures { result ≡ list_any (λ n. bytes_eq n.now key.now) names.now }
{
    names.iter().any(|name| *name == key)
}

pub(crate) fn text_at<'a>(object: &'a Value, key: &str) -> Option<&'a str>
    ensures { option_map (λ t. t.now) result ≡ member.text_at key.now (view object.now) }
{
    object.get(key)?.as_str()
}

// The whole number that the value is, from `low` to `high`.
pub(crate) fn number(value: &Value, low: u64, high: u64) -> Option<u64>
    ensures value { result ≡ member.number low high (view value.now) }
    ensures within { IfSome result (λ n. (low ≤ n) × (n ≤ high)) }
{
    let n = value.as_u64()?;
    if low <= n && n <= high { Some(n) } else { None }
}

pub(crate) fn number_at(object: &Value, key: &str, low: u64, high: u64) -> Option<u64>
    ensures value { result ≡ member.number_at key.now low high (view object.now) }
    ensures within { IfSome result (λ n. (low ≤ n) × (n ≤ high)) }
{
    number(object.get(key)?, low, high)
}

// The number of a key that may be missing, which stands for `or` then.
fn number_or(object: &Value, or: u64, key: &str, low: u64, high: u64) -> Option<u64>
    requires { (low ≤ or) × (or ≤ high) }
    ensures value { result ≡ member.number_or or key.now low high (view object.now) }
    ensures within { IfSome result (λ n. (low ≤ n) × (n ≤ high)) }
{
    match object.get(key) {
        Some(value) => number(value, low, high),
        None => Some(or),
    }
}

// The same two for numbers of 32 bits.
pub(crate) fn small_number_at(object: &Value, key: &str, low: u32, high: u32) -> Option<u32>
    ensures { result ≡ member.number_at key.now low high (view object.now) }
{
    match number_at(object, key, u64::from(low), u64::from(high)) {
        Some(n) => Some(n as u32),
        None => None,
    }
}

pub(crate) fn small_number_or(
    object: &Value,
    or: u32,
    key: &str,
    low: u32,
    high: u32,
) -> Option<u32>
    requires { (low ≤ or) × (or ≤ high) }
    ensures value { result ≡ member.number_or or key.now low high (view object.now) }
    ensures within { IfSome result (λ n. (low ≤ n) × (n ≤ high)) }
{
    match number_or(object, u64::from(or), key, u64::from(low), u64::from(high)) {
        Some(n) => Some(n as u32),
        None => None,
    }
}

// The array of a key, which is empty where the key is missing.
pub(crate) fn array_at<'a>(object: &'a Value, key: &str) -> Option<&'a [Value]>
    ensures { option_map (λ s. map view s.now) result ≡ member.array_at key.now (view object.now) }
{
    match object.get(key) {
        Some(value) => array(value),
        None => Some(&[]),
    }
}

fn array(value: &Value) -> Option<&[Value]>
    ensures { option_map (λ s. map view s.now) result ≡ option_map member.data_in (as_array (view value.now)) }
{
    match value.as_array() {
        Some(values) => Some(values.as_slice()),
        None => None,
    }
}
