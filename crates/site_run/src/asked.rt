// What a run is over, and what it runs on.
ghost use Rattle.std.specs.Prelude.{◌≡◌};
ghost use Rattle.site_run.specs.Logs.{name_of};

use run_fault::LogName;
use std::alloc::Global;

/// The names of both logs, and of the store's directory.
#[derive(Clone, Copy)]
pub struct Names<'a> {
    pub queries: &'a str,
    pub clicks: &'a str,
    pub state: &'a str,
}

impl<'a> Names<'a> {
    /// The name of this log.
    pub(crate) fn of_log(&self, log: LogName) -> &'a str
        ensures { result.now ≡ name_of self.now log }
    {
        match log {
            LogName::Queries => self.queries,
            LogName::Clicks => self.clicks,
        }
    }
}

/// What a run runs on: threads, memory, and the gate that workers pass.
#[derive_where(Clone, Copy)]
pub struct Machine<'a, R, G> {
    pub rt: &'a R,
    pub alloc: Global,
    pub gate: &'a G,
}
