// Where each field of a block stands, and how long a block and a note are.

// The length of a block.
pub const BLOCK: usize = 512;

// The kind, which is always KIND.
pub const KIND_AT: usize = 0;

pub const KIND: u8 = 1;

pub const N_AT: usize = 1;

pub const STATION_AT: usize = 2;

pub const CLASS_AT: usize = 3;

// The number, in two bytes.
pub const NUMBER_AT: usize = 4;

// The sixteen counts of the after-list, two bytes each.
pub const AFTER_AT: usize = 6;

// The eight order bytes.
pub const ORDER_AT: usize = 38;

pub const NOTE_LENGTH_AT: usize = 46;

// The note, of at most NOTE characters from FIRST_CHARACTER to LAST_CHARACTER; zeros up to the check.
pub const NOTE_AT: usize = 47;

pub const NOTE: usize = 64;

pub const FIRST_CHARACTER: u8 = 32;

pub const LAST_CHARACTER: u8 = 126;

// The check, in four bytes; it is taken over all places before it.
pub const CHECK_AT: usize = 508;
