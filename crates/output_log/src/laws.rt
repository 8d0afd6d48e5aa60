//! Records tell pairs apart.
ghost use Rattle.std.specs.Prelude.{◌≡◌};
ghost use Rattle.turn_defs.specs.declared.pair.PairRec.{PairRec};
ghost use Rattle.output_log.specs.Pairs.{record_of};
ghost use Rattle.turn_defs.specs.Spellings.{IsPair};

use log_records::{ClickRec, QueryRec};
use packet_codec::Field;
use registry_state::Token;

/// Two pairs with one record are one pair.
pub fn told_apart()
    ensures { (p q : PairRec) → IsPair p → IsPair q → record_of p ≡ record_of q → p ≡ q }
{
    ClickRec::told_apart();
    QueryRec::told_apart();
    Token::told_apart();
}
