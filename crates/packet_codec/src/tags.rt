// The first byte of each packet's spelling.
pub(crate) const JOIN: u8 = 0x11;

pub(crate) const JOINED: u8 = 0x12;

pub(crate) const INSERT: u8 = 0x13;

pub(crate) const REPLY: u8 = 0x14;

pub(crate) const PREPARE: u8 = 0x15;

pub(crate) const PROMISE: u8 = 0x16;

pub(crate) const NACK: u8 = 0x17;

pub(crate) const ACCEPT: u8 = 0x18;

pub(crate) const ACCEPTED: u8 = 0x19;

pub(crate) const CHOSEN: u8 = 0x1A;
