// Parts of spellings: fronts of a fixed length are read, and bytes are written.
ghost use Rattle.std.specs.Prelude.{◌≡◌, ◌+◌, ◌≤◌, ◌++◌, length, take, IfOk, IfErr};
ghost use Rattle.packet_codec.specs.Cells.{Run, UpTo};
ghost use Rattle.packet_codec.specs.Stops.{Stops};

use crate::fields::Stop;

// The next n bytes, each from low to high, and those behind them.
pub(crate) fn run(bytes: &[u8], n: usize, low: u8, high: u8) -> Result<(&[u8], &[u8]), Stop>
    requires { low ≤ high }
    ensures ok { IfOk result (λ p. Run n low high p.0.now × (bytes.now ≡ p.0.now ++ p.1.now)) }
    ensures bad { IfErr result (Stops (Run n low high) bytes.now) }
{
    for i in 0..n {
        if i >= bytes.len() || bytes[i] < low || high < bytes[i] {
            return Err(Stop::Bad {
                left: bytes.len() - i,
            });
        }
    }
    Ok(bytes.split_at(n))
}

// The next n bytes, whichever they are, and those behind them. No byte is looked at.
pub(crate) fn any(bytes: &[u8], n: usize) -> Result<(&[u8], &[u8]), Stop>
    ensures ok { IfOk result (λ p. Run n 0 255 p.0.now × (bytes.now ≡ p.0.now ++ p.1.now)) }
    ensures bad { IfErr result (Stops (Run n 0 255) bytes.now) }
{
    if bytes.len() < n {
        return Err(Stop::Bad { left: 0 });
    }
    Ok(bytes.split_at(n))
}

// The next bytes, each up to its limit, and those behind them.
pub(crate) fn up_to<'a>(bytes: &'a [u8], limits: &[u8]) -> Result<(&'a [u8], &'a [u8]), Stop>
    ensures ok { IfOk result (λ p. UpTo limits.now p.0.now × (bytes.now ≡ p.0.now ++ p.1.now)) }
    ensures bad { IfErr result (Stops (UpTo limits.now) bytes.now) }
{
    for (i, limit) in limits.iter().enumerate() {
        if i >= bytes.len() || *limit < bytes[i] {
            return Err(Stop::Bad {
                left: bytes.len() - i,
            });
        }
    }
    Ok(bytes.split_at(limits.len()))
}

/// Writes the bytes from `at` on, and answers the place behind them.
pub fn write(buf: &mut [u8], at: usize, bytes: &[u8]) -> usize
    requires { at + length bytes.now ≤ length buf.old }
    ensures end { result ≡ at + length bytes.now }
    ensures text { take result buf.new ≡ take at buf.old ++ bytes.now }
{
    let end = at + bytes.len();
    buf[at..end].copy_from_slice(bytes);
    end
}
