// What a turn begins with.
ghost use Rattle.std.specs.Prelude.{◌≡◌, IfOk, IfSome, IfNone};
ghost use Rattle.turn_defs.specs.Setting.{Setting};
ghost use Rattle.site_node.specs.Bytes.{Reads, IsJunk, IsInput};

use air_bus::Input as Begun;
use packet_codec::{DecodeFault, Origin, decode};
use std::alloc::{AllocError, Global};
use turn_defs::{Config, Input};

/// The input that the bytes spell, or None where no input is spelled so, or no node has the sender's number. Linear in
/// the bytes, which a text shares.
pub fn read_input(alloc: Global, config: Config, begun: &Begun) -> Result<Option<Input>, AllocError>
    ensures reads { (g : Setting) → g.config ≡ config → IfOk result (λ read. IfSome read (Reads g begun.now)) }
    ensures junk { (g : Setting) → g.config ≡ config → IfOk result (λ read. IfNone read (IsJunk g begun.now)) }
    ensures spelled { IfOk result (λ read. IfSome read IsInput) }
{
    match begun {
        Begun::Start => Ok(Some(Input::Start)),
        Begun::Own => Ok(Some(Input::Own)),
        Begun::Tick => Ok(Some(Input::Tick)),
        Begun::Packet { from, bytes } => {
            let Some(from) = config.node(*from) else {
                return Ok(None);
            };
            let all = bytes.as_slice();
            match decode(Origin::within(alloc, bytes, all.len()), all) {
                Ok(packet) => Ok(Some(Input::Deliver { from, packet })),
                Err(DecodeFault::BadPacket { .. }) => Ok(None),
                Err(DecodeFault::Memory) => Err(AllocError),
            }
        }
    }
}
