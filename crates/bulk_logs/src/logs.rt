// Both logs.
ghost use Rattle.std.specs.Prelude.{◌≡◌, IfOk};
ghost use Rattle.bulk_logs.specs.Bulk.{query_log, click_log};

use crate::generator::Generator;
use crate::lines::{put_click, put_query};
use std::alloc::{AllocError, Global};

/// The longest line of a query log, with its line feed.
const MAX_QUERY: usize = 37;

/// The longest line of a click log, with its line feed.
const MAX_CLICK: usize = 62;

/// The query log and the click log of so many clicks, made from the seed: one query and one click a line.
///
/// It takes one allocation a log, of 37 bytes a query and 62 a click, which none exceeds, and none for a line. The time
/// is that of writing the bytes once. It fails for want of memory alone.
pub fn make_logs(alloc: Global, seed: u64, clicks: u32) -> Result<(Vec<u8>, Vec<u8>), AllocError>
    ensures query_bytes { IfOk result (λ logs. logs.0.items ≡ query_log seed clicks) }
    ensures click_bytes { IfOk result (λ logs. logs.1.items ≡ click_log seed clicks) }
{
    let mut query_log = Vec::with_capacity(alloc, clicks as usize * MAX_QUERY)?;
    let mut click_log = Vec::with_capacity(alloc, clicks as usize * MAX_CLICK)?;
    let mut generator = Generator { x: seed };
    'lines: for place in 0..clicks {
        let one = generator.draw();
        let other = generator.draw();
        put_query(&mut query_log, place, one, other)?;
        put_click(&mut click_log, place, one, other)?;
    }
    Ok((query_log, click_log))
}
