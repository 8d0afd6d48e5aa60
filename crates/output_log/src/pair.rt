// A pair and its record.
ghost use Rattle.std.specs.Prelude.{◌≡◌, Some, IfOk, IfSome, IfNone};
ghost use Rattle.output_log.specs.Pairs.{record_of, IsOther};
ghost use Rattle.turn_defs.specs.Spellings.{IsPair};

use log_records::{ClickRec, QueryRec};
use packet_codec::Field;
use packet_codec::fields::{Stop, read_three};
use registry_state::Token;
use std::alloc::{AllocError, Global};
use turn_defs::PairRec;
use wire_core::{Bytes, Origin};

/// The first byte of a record.
const TAG: u8 = 6;

/// The most bytes that a record has.
pub const LONGEST: u32 = 465;

// The bytes of a record but for those of its two texts.
const WITHOUT_TEXTS: usize = 65;

/// The record of a pair as it is written to a log: the byte 06, the click, the query and the token. One allocation, of its
/// length.
pub fn pair_frame(alloc: Global, pair: &PairRec) -> Result<Bytes, AllocError>
    requires { IsPair pair.now }
    ensures { IfOk result (λ frame. frame ≡ record_of pair.now) }
{
    let texts = pair.click.text.as_bytes().len() + pair.query.text.as_bytes().len();
    let mut bytes = Bytes::with_capacity(alloc, WITHOUT_TEXTS + texts)?;
    bytes.put_u8(TAG)?;
    pair.click.put(&mut bytes)?;
    pair.query.put(&mut bytes)?;
    pair.token.put(&mut bytes)?;
    Ok(bytes)
}

/// The pair of a record, or None where it is no pair's. Linear in the record. Its texts are parts of the origin's shared
/// bytes, and allocated where it has none.
pub fn read_pair(origin: Origin, payload: &[u8]) -> Result<Option<PairRec>, AllocError>
    ensures found { IfOk result (λ read. IfSome read (λ pair. IsPair pair × (payload.now ≡ record_of pair))) }
    ensures none { IfOk result (λ read. IfNone read (IsOther payload.now)) }
    ensures only { (pair : PairRec) → IsPair pair → payload.now ≡ record_of pair → IfOk result (λ read. read ≡ Some pair) }
{
    ClickRec::told_apart();
    QueryRec::told_apart();
    Token::told_apart();
    let Some((tag, fields)) = payload.split_first() else {
        return Ok(None);
    };
    if *tag != TAG {
        return Ok(None);
    }
    match read_three::<ClickRec, QueryRec, Token>(origin, fields) {
        Ok((click, query, token, rest)) => {
            if rest.is_empty() {
                return Ok(Some(PairRec {
                    click,
                    query,
                    token,
                }));
            }
            Ok(None)
        }
        Err(Stop::Bad { .. }) => Ok(None),
        Err(Stop::Memory) => Err(AllocError),
    }
}
