// The front of a log, read into memory.
ghost use Rattle.std.specs.Prelude.{◌≡◌, ◌≤◌, ◌<◌, ◌+◌, ◌++◌, ◌^◌, ℕ, List, length, take, drop, vec_len, IfOk, IsTrue, Err};
ghost use Rattle.photon_cli.specs.Terms.{Counts, Read};

use outside::{LogFile, OpenFault};
use std::alloc::Global;

/// How many bytes are asked for at once.
const PIECE: usize = 1 << 16;

/// The first bytes of the log, at most so many, which it reads in pieces of 64 KiB. It reads no byte behind them.
#[tactic(auto, using(crate::proofs::ReadPieces::piece_next, crate::proofs::ReadPieces::last_piece, crate::proofs::ReadPieces::all_pieces))]
pub fn read_front<L: LogFile>(alloc: Global, log: &mut L, most: usize) -> Result<Vec<u8>, OpenFault>
    ensures bytes { IsTrue L.tells → IfOk result (λ v. v.items ≡ take most (L.bytes log.old)) }
    ensures same { IsTrue L.tells → L.bytes log.new ≡ L.bytes log.old }
    ensures count { Counts (L.faults log.old) (L.faults log.new) (result ≡ Err Read) }
{
    let mut bytes = Vec::new(alloc);
    'pieces: while bytes.len() < most {
        let n = read_piece(log, &mut bytes, most)?;
        if n == 0 {
            return Ok(bytes);
        }
    }
    Ok(bytes)
}

// Reads the next piece behind the bytes, of which there are at most so many then, and answers its length: 0 exactly at the
// log's end.
fn read_piece<L: LogFile>(log: &mut L, bytes: &mut Vec<u8>, most: usize) -> Result<usize, OpenFault>
    requires { length bytes.old.items < most }
    ensures len { IfOk result (λ n. (length bytes.new.items ≡ length bytes.old.items + n) × (length bytes.new.items ≤ most)) }
    ensures piece { IsTrue L.tells → IfOk result (λ n. let rest = drop (length bytes.old.items) (L.bytes log.old) in (n ≤ length rest) × (bytes.new.items ≡ bytes.old.items ++ take n rest)) }
    ensures end { IsTrue L.tells → IfOk result (λ n. n ≡ 0 → length (L.bytes log.old) ≤ length bytes.old.items) }
    ensures same { IsTrue L.tells → L.bytes log.new ≡ L.bytes log.old }
    ensures count { Counts (L.faults log.old) (L.faults log.new) (result ≡ Err Read) }
{
    let len = bytes.len();
    let room = PIECE.min(most - len);
    if bytes.resize(len + room, 0).is_err() {
        return Err(OpenFault::Memory);
    }
    match log.read_at(len as u64, &mut bytes[len..]) {
        Ok(n) => {
            bytes.truncate(len + n);
            Ok(n)
        }
        Err(_) => Err(OpenFault::Read),
    }
}
