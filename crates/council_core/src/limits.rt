//! The limits of a register, and the layout of a sheet's numbers.

/// The number of chairs. Chairs are numbered from 1.
pub const CHAIRS: usize = 32;

/// The index of the total in a sheet's numbers, after one word for each chair.
pub const TOTAL: usize = CHAIRS;

/// The index of the front in a sheet's numbers.
pub const FRONT: usize = TOTAL + 1;

/// The length of a sheet: one word for each chair, the total and the front.
pub const SHEET_WORDS: usize = FRONT + 1;

/// The largest number of members at any moment.
pub const MAX_MEMBERS: usize = 256;

/// The largest journal limit: the most commands that a journal can have.
pub const MAX_COMMANDS: u32 = 1_000_000;

/// The largest number of votes of one member.
pub const MAX_VOTES: u64 = 1 << 40;

/// The largest total voting power in votes: `MAX_MEMBERS` members with `MAX_VOTES` votes each.
pub const MAX_TOTAL: u64 = 1 << 48;
