// Messages of a group of three, and their blocks.
use wire::{BLOCK, Fault, Message, fill};

// The stations of the group.
pub const N: u8 = 3;

// A message of a station, by its number and what it follows of stations 1, 2 and 3. Its order bytes pay 5 in
// at a till.
pub fn said(station: u8, number: u16, [one, two, three]: [u16; 3]) -> Message {
    let mut after = [0; 16];
    after[0] = one;
    after[1] = two;
    after[2] = three;
    Message {
        station,
        number,
        after,
        class: 0,
        order: [1, 0, 0, 0, 5, 0, 0, 0],
    }
}

// The block of a message for a group of n.
pub fn carried(n: u8, message: &Message) -> Result<[u8; BLOCK], Fault> {
    let mut block = [0; BLOCK];
    fill(n, message, b"", &mut block)?;
    Ok(block)
}
