// Why bytes were not decoded.

/// Why no packet was decoded.
#[derive(Clone, Copy, Debug, PartialEq, Eq)]
pub enum DecodeFault {
    /// The bytes spell no packet. The longest front of them that begins a packet's spelling has so many bytes.
    BadPacket { at: u64 },
    /// Memory ran out.
    Memory,
}
