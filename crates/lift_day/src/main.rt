// A booking made in the hall of a lift reaches the gate as a block: it is filled, carried, read back,
// labelled and posted to the cabin book, where a cabin is assigned and ridden. Then every kind of
// damage to the block is shown with its answer.
#![tactic(auto)]

use books::{Book, CabinBook};
use std::io;
use std::str::from_utf8;
use wire::reading::Reading;
use wire::{BLOCK, Fault, Message, check};

// The two stations of the lift, twelve bytes to a name: 1 is the gate, 2 the hall.
const STATIONS: u8 = 2;

const NAMES: &[u8; 24] = b"GATE        HALL        ";

const NOTE: &[u8; 16] = b"four, with skis.";

// The hall's first message, which follows the gate's first: book day 3, departure 5 for party 300, 4 seats.
fn booking() -> Message {
    let mut after = [0u16; 16];
    after[0] = 1;
    Message {
        station: 2,
        number: 1,
        after,
        class: 0,
        order: [1, 3, 5, 0, 44, 1, 4, 0],
    }
}

// Bytes as text, where they are text.
fn text(bytes: &[u8]) -> &str {
    from_utf8(bytes).unwrap_or("(no text)")
}

// Where a line goes and what it tells of stay two arguments: each call has a text of its own, so that a
// struct of both would be made for one line and say no more.
fn tell_fault(rt: &impl Print, what: &str, fault: Fault) -> io::Result<()> {
    let number = fault.number();
    println!(rt; "{what}: refused {number}, {fault}")
}

// What reading answers to a block. Both outcomes are told, here and below, so both are arms of a match.
fn tell_reading(rt: &impl Print, what: &str, block: &[u8]) -> io::Result<()> {
    match wire::read(block) {
        Ok(_) => println!(rt; "{what}: reads well"),
        Err(fault) => tell_fault(rt, what, fault),
    }
}

// What the label call answers to a block and a name sheet.
fn tell_label(rt: &impl Print, what: &str, block: &[u8], sheet: &[u8]) -> io::Result<()> {
    match wire::label(block, sheet) {
        Ok(label) => {
            let label = text(label);
            println!(rt; "{what}: \"{label}\"")
        }
        Err(fault) => tell_fault(rt, what, fault),
    }
}

// What filling answers, and whether it left the block as it was.
fn tell_filling(
    rt: &impl Print,
    what: &str,
    message: &Message,
    block: &mut [u8; BLOCK],
) -> io::Result<()> {
    let before = *block;
    match wire::fill(STATIONS, message, NOTE, block) {
        Ok(()) => {
            let sum = check::sum(block);
            println!(rt; "{what}: 512 bytes, check {sum}")
        }
        Err(fault) => {
            tell_fault(rt, what, fault)?;
            if *block == before {
                println!(rt; "  the block is as it was")
            } else {
                println!(rt; "  the block has changed")
            }
        }
    }
}

fn tell_contents(rt: &impl Print, reading: &Reading) -> io::Result<()> {
    let n = reading.n;
    let Message {
        station,
        number,
        after: [follows, ..],
        class,
        order,
    } = reading.message;
    let note = text(reading.note);
    println!(rt; "read at the gate: n {n}, station {station}, number {number}, class {class}")?;
    println!(rt; "  follows {follows} of station 1")?;
    println!(rt; "  order bytes {order:?}")?;
    println!(rt; "  note \"{note}\"")
}

// Fills, carries, reads and labels the booking.
fn carry(rt: &impl Print, block: &mut [u8; BLOCK]) -> io::Result<()> {
    tell_filling(rt, "filled in the hall", &booking(), block)?;
    let carried = *block;
    match wire::read(&carried) {
        Ok(reading) => tell_contents(rt, &reading)?,
        Err(fault) => tell_fault(rt, "read at the gate", fault)?,
    }
    tell_label(rt, "label", &carried, NAMES)?;
    let mut unnoted = [0u8; BLOCK];
    if let Err(fault) = wire::fill(STATIONS, &booking(), &[], &mut unnoted) {
        tell_fault(rt, "filled with no note", fault)?;
    }
    tell_label(rt, "label with no note", &unnoted, NAMES)
}

// Carries an order out on the book, and tells the reply.
fn tell_posting(
    rt: &impl Print,
    book: &mut CabinBook,
    what: &str,
    order: &[u8; 8],
) -> io::Result<()> {
    let reply = book.post(order);
    let number = u8::from(reply);
    println!(rt; "{what}: reply {number}, {reply}")
}

// What the book holds of the booked slot, and of its cabin.
fn tell_slot(rt: &impl Print, book: &CabinBook) -> io::Result<()> {
    match book.slot(3, 5) {
        Some(slot) => println!(rt; "  day 3, departure 5 is {slot}")?,
        None => println!(rt; "  there is no such slot")?,
    }
    match book.is_home(2) {
        Some(true) => println!(rt; "  cabin 2 is home"),
        Some(false) => println!(rt; "  cabin 2 is out"),
        None => println!(rt; "  there is no cabin 2"),
    }
}

// The booking that the block carried, an assignment and a ride, on the gate's copy of the book.
fn ride(rt: &impl Print, block: &[u8]) -> io::Result<()> {
    let order = wire::read(block).map_or([0; 8], |reading| reading.message.order);
    let mut book = CabinBook::new();
    tell_posting(rt, &mut book, "posting the booking", &order)?;
    tell_slot(rt, &book)?;
    tell_posting(rt, &mut book, "posting it again", &order)?;
    tell_posting(
        rt,
        &mut book,
        "assigning cabin 2",
        &[3, 3, 5, 2, 0, 0, 0, 0],
    )?;
    tell_slot(rt, &book)?;
    tell_posting(
        rt,
        &mut book,
        "riding in cabin 3",
        &[4, 3, 5, 3, 0, 0, 0, 0],
    )?;
    tell_posting(
        rt,
        &mut book,
        "riding in cabin 2",
        &[4, 3, 5, 2, 0, 0, 0, 0],
    )?;
    tell_slot(rt, &book)
}

// The block with its check made to fit again, as a sender with a fault of its own would make it.
fn resealed(mut block: [u8; BLOCK]) -> [u8; BLOCK] {
    let sum = check::sum(&block).to_le_bytes();
    block[508..].copy_from_slice(&sum);
    block
}

// Damage on the way.
fn damage(rt: &impl Print, block: &[u8; BLOCK]) -> io::Result<()> {
    tell_reading(rt, "one byte lost", &block[..511])?;
    tell_reading(rt, "nothing came", &[])?;
    let mut altered = *block;
    altered[44] ^= 1;
    tell_reading(rt, "one byte altered", &altered)?;
    let mut unchecked = *block;
    unchecked[509] ^= 128;
    tell_reading(rt, "one byte of the check altered", &unchecked)?;
    let mut exchanged = *block;
    exchanged.swap(39, 40);
    tell_reading(rt, "two bytes exchanged", &exchanged)?;
    tell_reading(rt, "all bytes lost to zero", &[0u8; BLOCK])?;
    let mut relaid = *block;
    relaid[3] = 4;
    tell_reading(rt, "class 4 under a fitting check", &resealed(relaid))?;
    tell_label(rt, "name sheet a byte short", block, &NAMES[..23])
}

// Fillings that are refused.
fn refused_fillings(rt: &impl Print, block: &mut [u8; BLOCK]) -> io::Result<()> {
    let unclassed = Message {
        class: 4,
        ..booking()
    };
    tell_filling(rt, "filling class 4", &unclassed, block)?;
    let skipping = Message {
        number: 2,
        ..booking()
    };
    tell_filling(rt, "filling number 2 after none", &skipping, block)?;
    let mut short = [0u8; 100];
    match wire::fill(STATIONS, &booking(), NOTE, &mut short) {
        Ok(()) => println!(rt; "filling 100 bytes: done"),
        Err(fault) => tell_fault(rt, "filling 100 bytes", fault),
    }
}

fn main(rt: HostRuntime) -> io::Result<()> {
    let mut block = [0u8; BLOCK];
    carry(&rt, &mut block)?;
    ride(&rt, &block)?;
    damage(&rt, &block)?;
    refused_fillings(&rt, &mut block)?;
    tell_reading(&rt, "the block itself", &block)
}
