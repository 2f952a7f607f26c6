// Three blocks, by their bytes that are not zero, with their checks.
use wire::{BLOCK, Message};

// n 3, station 2, number 1, class 1, after (1, 0, 0), order [1, 3, 5, 0, 44, 1, 4, 0], note "HALL"
pub const BOOKING: [(usize, u8); 19] = [
    (0, 1),
    (1, 3),
    (2, 2),
    (3, 1),
    (4, 1),
    (6, 1),
    (38, 1),
    (39, 3),
    (40, 5),
    (42, 44),
    (43, 1),
    (44, 4),
    (46, 4),
    (47, 72),
    (48, 65),
    (49, 76),
    (50, 76),
    (508, 118),
    (509, 66),
];

pub const BOOKING_CHECK: u32 = 17014;

// n 1, station 1, number 1, class 0, after all 0, order all 0, no note
pub const LEAST: [(usize, u8); 5] = [(0, 1), (1, 1), (2, 1), (4, 1), (508, 11)];

pub const LEAST_CHECK: u32 = 11;

// n 16, station 16, number 4096, class 3, after 4096 but own 4095, order all 255, note 64 times '~';
// the note's bytes are left to be filled in
pub const GREATEST: [(usize, u8); 34] = [
    (0, 1),
    (1, 16),
    (2, 16),
    (3, 3),
    (5, 16),
    (7, 16),
    (9, 16),
    (11, 16),
    (13, 16),
    (15, 16),
    (17, 16),
    (19, 16),
    (21, 16),
    (23, 16),
    (25, 16),
    (27, 16),
    (29, 16),
    (31, 16),
    (33, 16),
    (35, 16),
    (36, 255),
    (37, 15),
    (38, 255),
    (39, 255),
    (40, 255),
    (41, 255),
    (42, 255),
    (43, 255),
    (44, 255),
    (45, 255),
    (46, 64),
    (508, 30),
    (509, 99),
    (510, 11),
];

pub const GREATEST_CHECK: u32 = 746270;

// The block with these bytes at these places, and 0 elsewhere.
pub fn assembled(bytes: &[(usize, u8)]) -> [u8; BLOCK] {
    let mut block = [0u8; BLOCK];
    for (place, byte) in bytes {
        if let Some(at) = block.get_mut(*place) {
            *at = *byte;
        }
    }
    block
}

pub fn booking() -> Message {
    let mut after = [0u16; 16];
    after[0] = 1;
    Message {
        station: 2,
        number: 1,
        after,
        class: 1,
        order: [1, 3, 5, 0, 44, 1, 4, 0],
    }
}

pub fn least() -> Message {
    Message {
        station: 1,
        number: 1,
        after: [0; 16],
        class: 0,
        order: [0; 8],
    }
}

pub fn greatest() -> Message {
    let mut after = [4096u16; 16];
    after[15] = 4095;
    Message {
        station: 16,
        number: 4096,
        after,
        class: 3,
        order: [255; 8],
    }
}

// The block of the greatest fields.
pub fn greatest_block() -> [u8; BLOCK] {
    let mut block = assembled(&GREATEST);
    block[47..111].fill(126);
    block
}
