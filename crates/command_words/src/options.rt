//! The options of the commands: what the parser is told of, and how values are read.

/// The release, and the kit that builds it, as `rt version` names it.
pub(crate) const VERSION: &str = "1.0, built by rattle-kit-13f logic dac8208d650f15bf";

/// The most clicks of a bulk run.
pub(crate) const MOST_CLICKS: u64 = 100_000;

/// What a value is: a number in a range, a text, or a text that is not empty.
#[derive(Clone, Copy)]
pub(crate) enum Form {
    Number(u64, u64),
    AnyText,
    SomeText,
}

/// An option, which has a default where it may be left out, and its line in the help.
#[derive(Clone, Copy)]
pub(crate) struct Opt {
    pub name: &'static str,
    pub form: Form,
    pub default: Option<&'static str>,
    pub help: &'static str,
}

// An option by its name, its form, its default and its line in the help.
macro_rules! option {
    ($name:expr, $form:expr, $default:expr; $help:expr) => {
        Opt {
            name: $name,
            form: $form,
            default: $default,
            help: $help,
        }
    };
}

pub(crate) const QUERIES: Opt = option!("queries", Form::AnyText, None; "The query log");

pub(crate) const CLICKS: Opt = option!("clicks", Form::AnyText, None; "The click log");

pub(crate) const STATE: Opt = option!("state", Form::AnyText, None;
    "The directory of the journals; a join makes it if missing");

pub(crate) const PLAN: Opt = option!("plan", Form::AnyText, None;
    "What goes wrong in the drill, in JSON");

pub(crate) const ADD: Opt = option!("add", Form::AnyText, None;
    "The row to put at the table's end, START:COUNT: from START on so many shards");

pub(crate) const SEED: Opt = option!("seed", Form::Number(0, u64::MAX), None;
    "What the logs are made from");

pub(crate) const COUNT: Opt = option!("clicks", Form::Number(0, MOST_CLICKS), None;
    "How many clicks the logs have, at most 100000");

pub(crate) const HORIZON: Opt = option!("horizon", Form::Number(0, u64::MAX), Some("0");
    "In microseconds: clicks with a timestamp below it expire; if missing 0");

pub(crate) const JOINERS: Opt = option!("joiners", Form::Number(1, 4), Some("1");
    "Joiners of a site, 1 to 4, a thread each; if missing 1");

pub(crate) const SHARDS: Opt = option!("shards", Form::SomeText, Some("0:4");
    "The table of shards, rows START:COUNT with commas between; if missing 0:4");

pub(crate) const BATCH: Opt = option!("batch", Form::Number(1, 64), Some("64");
    "The most ids that a server registers at once, 1 to 64; if missing 64");

pub(crate) const JOIN: [Opt; 7] = [QUERIES, CLICKS, STATE, HORIZON, JOINERS, SHARDS, BATCH];

pub(crate) const DRILL: [Opt; 7] = [QUERIES, CLICKS, PLAN, HORIZON, JOINERS, SHARDS, BATCH];

pub(crate) const VERIFY: [Opt; 2] = [CLICKS, STATE];

pub(crate) const BULK: [Opt; 5] = [SEED, COUNT, JOINERS, SHARDS, BATCH];

pub(crate) const RESHARD: [Opt; 2] = [STATE, ADD];
