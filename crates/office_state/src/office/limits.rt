//! The limits on what an office stores.

/// The maximum number of rooms.
pub const ROOM_LIMIT: usize = 2000;

/// The maximum number of people.
pub const PEOPLE_LIMIT: usize = 2000;

/// The maximum number of imported lists that an office stores, each under its own label.
pub const LABEL_LIMIT: usize = 200;

/// The maximum length of an imported list, in bytes.
pub const BYTE_LIMIT: usize = 262_144;

/// The greatest round number.
pub const ROUND_LIMIT: u16 = 9999;
