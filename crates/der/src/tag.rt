// Tags of elements that hold others. A tag is any byte of a file, so it has no type of its own.
pub const SEQUENCE: u8 = 0x30;

pub const SET: u8 = 0x31;
