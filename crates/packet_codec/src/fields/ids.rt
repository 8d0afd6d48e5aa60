// Ids, tokens and inserts.
ghost use Rattle.std.specs.Prelude.{◌≡◌};
ghost use Rattle.event_id.specs.EventId.{packed, IsId};
ghost use Rattle.turn_defs.specs.Spellings.{token, IsToken, insert, IsInsert};

use crate::fields::Stop;
use crate::fields::field::Field;
use crate::fields::several::{read_three, read_two};
use event_id::EventId;
use registry_state::{Insert, Token};
use std::alloc::AllocError;
use wire_core::{Bytes, Origin};

/// 16 bytes: the address, the process id and the timestamp. Reading takes no memory.
#[tactic(auto, using(crate::proofs::Made::id_bad, crate::proofs::Made::id_apart, crate::proofs::Made::some_id))]
impl Field for EventId {
    ghost spelled = { packed };

    ghost has_spelling = { IsId };

    fn put(&self, to: &mut Bytes) -> Result<(), AllocError> {
        to.put_bytes(&self.to_bytes())
    }

    fn read<'a>(origin: Origin, bytes: &'a [u8]) -> Result<(EventId, &'a [u8]), Stop> {
        let (ip, pid, micros, rest) = read_three::<u32, u32, u64>(origin, bytes)?;
        Ok((EventId { ip, pid, micros }, rest))
    }

    fn told_apart() {}

    fn some_value() {}
}

/// 14 bytes: the joiner, the epoch and the number. Reading takes no memory.
#[tactic(auto, using(crate::proofs::Made::token_bad, crate::proofs::Made::token_apart, crate::proofs::Made::some_token))]
impl Field for Token {
    ghost spelled = { token };

    ghost has_spelling = { IsToken };

    fn put(&self, to: &mut Bytes) -> Result<(), AllocError> {
        to.put_bytes(&token_bytes(self))
    }

    fn read<'a>(origin: Origin, bytes: &'a [u8]) -> Result<(Token, &'a [u8]), Stop> {
        let (joiner, epoch, number, rest) = read_three::<u16, u32, u64>(origin, bytes)?;
        Ok((
            Token {
                joiner,
                epoch,
                number,
            },
            rest,
        ))
    }

    fn told_apart() {}

    fn some_value() {}
}

/// 30 bytes: the id and the token. Reading takes no memory.
#[tactic(auto, using(crate::proofs::Made::insert_bad, crate::proofs::Made::insert_apart, crate::proofs::Made::some_insert))]
impl Field for Insert {
    ghost spelled = { insert };

    ghost has_spelling = { IsInsert };

    fn put(&self, to: &mut Bytes) -> Result<(), AllocError> {
        to.put_bytes(&insert_bytes(self))
    }

    fn read<'a>(origin: Origin, bytes: &'a [u8]) -> Result<(Insert, &'a [u8]), Stop> {
        let (id, token, rest) = read_two::<EventId, Token>(origin, bytes)?;
        Ok((Insert { id, token }, rest))
    }

    fn told_apart() {}

    fn some_value() {}
}

/// The spelling of a token.
pub fn token_bytes(t: &Token) -> [u8; 14]
    ensures { result ≡ token t.now }
{
    let mut bytes = [0; 14];
    bytes[..2].copy_from_slice(&t.joiner.to_be_bytes());
    bytes[2..6].copy_from_slice(&t.epoch.to_be_bytes());
    bytes[6..].copy_from_slice(&t.number.to_be_bytes());
    bytes
}

pub(crate) fn insert_bytes(x: &Insert) -> [u8; 30]
    ensures { result ≡ insert x.now }
{
    let mut bytes = [0; 30];
    bytes[..16].copy_from_slice(&x.id.to_bytes());
    bytes[16..].copy_from_slice(&token_bytes(&x.token));
    bytes
}
