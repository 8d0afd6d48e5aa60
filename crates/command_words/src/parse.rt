//! Reading the words.
ghost use Rattle.std.specs.Prelude.{◌≡◌, ◌<◌, ◌≤◌, ◌∷◌, ℕ, List, [], IfOk, IfSome, IfErr, IsSome, IsSomeAnd, MatchResult};
ghost use Rattle.std.specs.Str.Parse.{digits_value, without_leading_plus};
ghost use Rattle.clap.specs.Matches.{found_of};
ghost use Rattle.clap.specs.Values.{IsUnsignedIn};
ghost use Rattle.clap.specs.Walk.{Row, rows_of};
ghost use Rattle.clap.specs.Simple.{subcommand_of, subcommand_rows_of};
ghost use Rattle.clap.specs.Faults.{fault_of};
ghost use Rattle.command_words.specs.Words.{Command, HaveValues, IsFaultOf, IsFound, IsInRanges, IsNamed, IsPlain, IsReadable, IsRefusedBy, Pairs, bulk, bulk_by, bulk_values, given, horizon, name_of, node_options, nodes_by, nodes_in, number_of, options_of, run_by, text_of, texts, value_of, values_in, wish_of};
ghost use Rattle.command_words.specs.Clap.{option_in, photon_app, text_in, number_in};
ghost use Rattle.command_words.specs.declared.asked.WordsFault.TheVariants.{Memory};

use crate::asked::{Asked, BulkOptions, NodeOptions, RunOptions, WordsFault};
use crate::commands::photon;
use crate::options::{
    ADD, BATCH, CLICKS, COUNT, HORIZON, JOINERS, MOST_CLICKS, Opt, PLAN, QUERIES, SEED, SHARDS,
    STATE,
};
use clap::ArgMatches;
use clap::error::ErrorKind;
use std::alloc::Global;

/// The text of an option. The parse has seen that it is there or has a default.
fn text<'a>(found: &ArgMatches<'a>, option: &Opt) -> &'a str
    ensures { result.now ≡ text_of (option_in option.now) (text_in (rows_of (found_of found.now))) }
{
    found.get_str(option.name).or(option.default).unwrap_or("")
}

/// The number of an option.
fn number(found: &ArgMatches<'_>, option: &Opt) -> Option<u64>
    ensures value { IfSome result (λ n. n ≡ number_of (option_in option.now) (number_in (rows_of (found_of found.now)))) }
    ensures reads { (low high : ℕ) → IsSomeAnd (value_of (option_in option.now) (number_in (rows_of (found_of found.now)))) (IsUnsignedIn low high) → IsSomeAnd result (λ n. n ≤ high) }
{
    match found.try_get_one::<u64>(option.name) {
        Ok(Some(number)) => Some(number),
        Ok(None) => default_number(option.default?),
        Err(_) => None,
    }
}

/// The number that a default is.
#[tactic(auto, using(crate::proofs::Numbers::default_read, crate::proofs::Numbers::default_failed))]
fn default_number(default: &str) -> Option<u64>
    ensures value { IfSome result (λ n. n ≡ digits_value 10 (without_leading_plus default.now)) }
    ensures reads { (low high : ℕ) → IsUnsignedIn low high default.now → IsSomeAnd result (λ n. n ≤ high) }
{
    match default.parse::<u64>() {
        Ok(number) => Some(number),
        Err(_) => None,
    }
}

/// The number of an option that is at most 255.
fn small(found: &ArgMatches<'_>, option: &Opt) -> Option<u8>
    ensures value { IfSome result (λ n. n ≡ number_of (option_in option.now) (number_in (rows_of (found_of found.now)))) }
    ensures reads { (low high : ℕ) → high < 256 → IsSomeAnd (value_of (option_in option.now) (number_in (rows_of (found_of found.now)))) (IsUnsignedIn low high) → IsSome result }
{
    let number = number(found, option)?;
    if number > 255 {
        return None;
    }
    Some(number as u8)
}

fn nodes<'a>(found: &ArgMatches<'a>) -> Option<NodeOptions<'a>>
    ensures value { IfSome result (λ v. nodes_in v ≡ nodes_by (text_in (rows_of (found_of found.now))) (number_in (rows_of (found_of found.now)))) }
    ensures reads { HaveValues (text_in (rows_of (found_of found.now))) (number_in (rows_of (found_of found.now))) IsReadable node_options → IsSome result }
{
    Some(NodeOptions {
        joiners: small(found, &JOINERS)?,
        shards: text(found, &SHARDS),
        batch: small(found, &BATCH)?,
    })
}

fn run<'a>(found: &ArgMatches<'a>) -> Option<RunOptions<'a>>
    ensures value { IfSome result (λ v. values_in v ≡ run_by (text_in (rows_of (found_of found.now))) (number_in (rows_of (found_of found.now)))) }
    ensures reads { HaveValues (text_in (rows_of (found_of found.now))) (number_in (rows_of (found_of found.now))) IsReadable (horizon ∷ node_options) → IsSome result }
{
    Some(RunOptions {
        queries: text(found, &QUERIES),
        clicks: text(found, &CLICKS),
        horizon: number(found, &HORIZON)?,
        nodes: nodes(found)?,
    })
}

fn bulk<'a>(found: &ArgMatches<'a>) -> Option<BulkOptions<'a>>
    ensures value { IfSome result (λ v. bulk_values v ≡ bulk_by (text_in (rows_of (found_of found.now))) (number_in (rows_of (found_of found.now)))) }
    ensures reads { HaveValues (text_in (rows_of (found_of found.now))) (number_in (rows_of (found_of found.now))) IsReadable (options_of bulk) → IsSome result }
{
    let clicks = number(found, &COUNT)?;
    if clicks > MOST_CLICKS {
        return None;
    }
    Some(BulkOptions {
        seed: number(found, &SEED)?,
        clicks: clicks as u32,
        nodes: nodes(found)?,
    })
}

/// The command that the parse found.
fn asked_of<'a>(matches: &ArgMatches<'a>) -> Option<Asked<'a>>
    ensures value { IfSome result (λ a. IsSomeAnd (subcommand_rows_of matches.now) (λ p. IsNamed (wish_of a) p.0 (text_in p.1) (number_in p.1))) }
    ensures reads { (command : Command) (rows : List Row) → subcommand_rows_of matches.now ≡ Some (name_of command, rows) → HaveValues (text_in rows) (number_in rows) IsReadable (options_of command) → IsSome result }
{
    let (name, found) = matches.subcommand()?;
    match name {
        "join" => Some(Asked::Join {
            run: run(found)?,
            state: text(found, &STATE),
        }),
        "drill" => Some(Asked::Drill {
            run: run(found)?,
            plan: text(found, &PLAN),
        }),
        "verify" => Some(Asked::Verify {
            clicks: text(found, &CLICKS),
            state: text(found, &STATE),
        }),
        "bulk" => Some(Asked::Bulk { run: bulk(found)? }),
        "reshard" => Some(Asked::Reshard {
            state: text(found, &STATE),
            add: text(found, &ADD),
        }),
        _ => None,
    }
}

/// Reads the words, the first of which is the program's name.
///
/// In time linear in the words; it allocates what clap keeps of them, and the values are borrowed from them.
pub fn parse_words<'a>(alloc: Global, words: &'a [String]) -> Result<Asked<'a>, WordsFault>
    ensures plain { (command : Command) (pairs : Pairs) → IsPlain (texts words.entry.now) command pairs → MatchResult result (λ a. IsFound (wish_of a) (name_of command) (given pairs) (given pairs)) (λ f. f ≡ Memory) }
    ensures found { IfOk result (λ a. IsSomeAnd (subcommand_of photon_app (texts words.entry.now)) (λ p. IsFound (wish_of a) p.0 (text_in p.1) (number_in p.1))) }
    ensures ranges { IfOk result (λ a. IsInRanges (wish_of a)) }
    ensures taken { IfOk result (λ _. fault_of photon_app (texts words.entry.now) ≡ []) }
    ensures refused { IfErr result (IsRefusedBy (fault_of photon_app (texts words.entry.now))) }
{
    let mut command = photon(alloc)?;
    let matches = match command.try_get_matches_from_mut(words) {
        Ok(matches) => matches,
        Err(error) => return Err(refused(error)),
    };
    match asked_of(&matches) {
        Some(asked) => Ok(asked),
        // The parse has checked each value, so this is never met.
        None => Err(refused(command.error(ErrorKind::InvalidValue, "invalid value")?)),
    }
}

/// The fault of a parse that gave no matches.
fn refused(error: clap::Error) -> WordsFault
    ensures { IsFaultOf error result }
{
    match error.kind() {
        ErrorKind::OutOfMemory => WordsFault::Memory,
        _ => WordsFault::Refused(error),
    }
}
