// What is fixed for a server.
ghost use Rattle.std.specs.Prelude.{◌≡◌, ◌≤◌};
ghost use Rattle.registry_server.specs.Terms.{MOST_INSERTS, MOST_REPLICAS, Setting, is_own_joiner};

use std::alloc::Global;
use turn_defs::Config;

/// What is fixed for a server: its site, and the numbers of its run.
#[derive(Debug, Drop)]
pub(crate) struct Station {
    pub(crate) site: u8,
    pub(crate) config: Config,
    pub(crate) alloc: Global,
    ghost few: { config.batch ≤ MOST_INSERTS },
    ghost members: { config.replicas ≤ MOST_REPLICAS },
}

// Whether this is the number of a joiner of the site.
pub(crate) fn is_joiner_of(config: Config, site: u8, number: u16) -> bool
    ensures { (g : Setting) → g.config ≡ config → result ≡ is_own_joiner g site number }
{
    let first = 4 + u16::from(config.replicas);
    let joiners = u16::from(config.joiners);
    if number < first || number >= first + 2 * joiners {
        return false;
    }
    let at = if number < first + joiners { 0 } else { 1 };
    at == site
}
