// The joiners of a site, one after another.
ghost use Rattle.std.specs.Prelude.{◌≡◌, ◌<◌, ◌+◌, ◌*◌, ◌%◌, ◌≤◌};

use turn_defs::{Config, Node};

// The joiner that the next Join goes to: number `next` of the site's.
#[derive(Clone, Copy, Debug)]
pub(crate) struct Dealer {
    pub(crate) site: u8,
    pub(crate) config: Config,
    pub(crate) next: u8,
    ghost two: { site < 2 },
    ghost within: { next < config.joiners },
}

impl Dealer {
    ghost use Rattle.dispatch_core.specs.Dealing.{joiner_at};

    pub(crate) fn new(site: u8, config: Config) -> Dealer
        requires site { site < 2 }
        requires joiners { 0 < config.joiners }
        ensures site { result.site ≡ site }
        ensures config { result.config ≡ config }
        ensures next { result.next ≡ 0 }
    {
        Dealer {
            site,
            config,
            next: 0,
        }
    }

    // The joiner that is next, and then the one behind it is.
    pub(crate) fn deal(&mut self) -> Node
        ensures node { result ≡ joiner_at self.old.site self.old.config self.old.next }
        ensures next { self.new.next ≡ (self.old.next + 1) % self.old.config.joiners }
        ensures site { self.new.site ≡ self.old.site }
        ensures config { self.new.config ≡ self.old.config }
    {
        let joiners = u16::from(self.config.joiners);
        let first = 4 + u16::from(self.config.replicas);
        let number = first + u16::from(self.site) * joiners + u16::from(self.next);
        let behind = (u16::from(self.next) + 1) % joiners;
        self.next = behind as u8;
        Node::Joiner(number)
    }
}
