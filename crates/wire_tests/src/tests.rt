// Each public call of the wire crate, on the blocks, on every kind of length and on damaged bytes.
use crate::blocks::*;
use std::process::Abort;
use std::test::Fail;
use wire::{BLOCK, Fault, Message, Reading, check, fill, is_group, label, read, verify};

// A block that an order or a refusal leaves untouched shows this in every place.
const OTHER: u8 = 170;

fn fills_to(rt: &impl Abort, n: u8, message: &Message, note: &[u8], expected: &[u8; BLOCK]) {
    let mut block = [OTHER; BLOCK];
    assert_eq!(rt; fill(n, message, note, &mut block), Ok(()));
    assert!(rt; block == *expected);
}

#[test]
fn filling_gives_the_blocks(rt: HostRuntime) {
    fills_to(&rt, 3, &booking(), b"HALL", &assembled(&BOOKING));
    fills_to(&rt, 1, &least(), b"", &assembled(&LEAST));
    fills_to(&rt, 16, &greatest(), &[126; 64], &greatest_block());
}

#[test]
fn the_check_is_the_sum(rt: HostRuntime) {
    assert_eq!(rt; check::sum(&assembled(&BOOKING)), BOOKING_CHECK);
    assert_eq!(rt; check::sum(&assembled(&LEAST)), LEAST_CHECK);
    assert_eq!(rt; check::sum(&greatest_block()), GREATEST_CHECK);
    assert_eq!(rt; check::sum(&[255; 600]), 32_967_930);
    assert_eq!(rt; check::sum(&[]), 0);
}

#[test]
fn reading_gives_the_fields(rt: HostRuntime) {
    let booked = Reading {
        n: 3,
        message: booking(),
        note: b"HALL",
    };
    let short = Reading {
        n: 1,
        message: least(),
        note: b"",
    };
    let full = Reading {
        n: 16,
        message: greatest(),
        note: &[126; 64],
    };
    assert_eq!(rt; read(&assembled(&BOOKING)), Ok(booked));
    assert_eq!(rt; read(&assembled(&LEAST)), Ok(short));
    assert_eq!(rt; read(&greatest_block()), Ok(full));
}

#[test]
fn lengths_are_refused_first(rt: HostRuntime) {
    let long = [1u8; 1024];
    assert_eq!(rt; read(&long[0..0]), Err(Fault::Length));
    assert_eq!(rt; read(&long[0..1]), Err(Fault::Length));
    assert_eq!(rt; read(&long[0..511]), Err(Fault::Length));
    assert_eq!(rt; read(&long[0..512]), Err(Fault::Check));
    assert_eq!(rt; read(&long[0..513]), Err(Fault::Length));
    assert_eq!(rt; read(&long), Err(Fault::Length));
    assert_eq!(rt; verify(&long[0..2]), Err(Fault::Length));
    assert_eq!(rt; verify(&[0; BLOCK]), Ok(()));
    assert_eq!(rt; read(&[0; BLOCK]), Err(Fault::Layout));
}

#[test]
fn every_altered_place_is_refused(rt: HostRuntime) {
    let block = assembled(&BOOKING);
    for (place, byte) in block.iter().enumerate() {
        let mut altered = block;
        altered[place] = byte ^ 1;
        assert_eq!(rt; read(&altered), Err(Fault::Check));
        assert_eq!(rt; verify(&altered), Err(Fault::Check));
    }
}

// The booking's block with one byte put in place, and the check made to fit by the weight's rule.
fn relaid(place: usize, byte: u8) -> [u8; BLOCK] {
    let mut block = assembled(&BOOKING);
    if place < 508 {
        block[place] = byte;
    }
    let sum = block
        .iter()
        .zip(1u32..=508)
        .fold(0u32, |sum, (byte, weight)| {
            sum.wrapping_add(weight.wrapping_mul(u32::from(*byte)))
        });
    block[508..].copy_from_slice(&sum.to_le_bytes());
    block
}

#[test]
fn each_layout_rule_is_kept(rt: HostRuntime) {
    let broken = [
        (0usize, 0u8),
        (0, 2),
        (1, 0),
        (1, 1),
        (1, 17),
        (2, 0),
        (2, 4),
        (3, 4),
        (4, 0),
        (4, 2),
        (5, 17),
        (7, 17),
        (8, 1),
        (12, 1),
        (37, 1),
        (46, 3),
        (46, 65),
        (47, 31),
        (47, 127),
        (50, 255),
        (51, 1),
        (300, 1),
        (507, 1),
    ];
    for (place, byte) in broken {
        assert_eq!(rt; read(&relaid(place, byte)), Err(Fault::Layout));
    }
    for (place, byte) in [
        (3usize, 0u8),
        (3, 3),
        (7, 15),
        (38, 255),
        (47, 32),
        (47, 126),
        (1, 2),
        (1, 16),
    ] {
        assert!(rt; read(&relaid(place, byte)).is_ok());
    }
}

// A filling of a block of some length is refused, and leaves every byte as it was.
fn fill_refused(
    rt: &impl Abort,
    n: u8,
    message: &Message,
    note: &[u8],
    length: usize,
    fault: Fault,
) -> Result<(), Fail> {
    let mut block = [OTHER; 1024];
    if length > 1024 {
        return Err(Fail::new("too long for this test"));
    }
    assert_eq!(rt; fill(n, message, note, &mut block[0..length]), Err(fault));
    assert!(rt; block == [OTHER; 1024]);
    Ok(())
}

#[test]
fn a_refused_filling_changes_nothing(rt: HostRuntime) -> Result<(), Fail> {
    fill_refused(&rt, 3, &booking(), b"", 0, Fault::Length)?;
    fill_refused(&rt, 3, &booking(), b"", 1, Fault::Length)?;
    fill_refused(&rt, 0, &booking(), b"", 511, Fault::Length)?;
    fill_refused(&rt, 3, &booking(), b"", 513, Fault::Length)?;
    fill_refused(&rt, 0, &booking(), b"", BLOCK, Fault::Layout)?;
    fill_refused(&rt, 1, &booking(), b"", BLOCK, Fault::Layout)?;
    fill_refused(&rt, 17, &booking(), b"", BLOCK, Fault::Layout)?;
    fill_refused(&rt, 3, &booking(), &[65; 65], BLOCK, Fault::Layout)?;
    fill_refused(&rt, 3, &booking(), b"a\x1f", BLOCK, Fault::Layout)?;
    fill_refused(&rt, 3, &booking(), b"\x7f", BLOCK, Fault::Layout)
}

#[test]
fn a_label_is_the_note_or_the_name(rt: HostRuntime) {
    let names = b"GATE        HALL        OFFICE      ";
    let mut block = [0u8; BLOCK];
    assert_eq!(rt; fill(3, &booking(), b"", &mut block), Ok(()));
    assert_eq!(rt; label(&block, names), Ok(&b"HALL        "[..]));
    assert_eq!(rt; label(&assembled(&BOOKING), names), Ok(&b"HALL"[..]));
    assert_eq!(rt; label(&assembled(&BOOKING), b"HALL"), Err(Fault::Setting));
    assert_eq!(rt; label(&block, b""), Err(Fault::Setting));
    assert_eq!(rt; label(&[0; BLOCK], b""), Err(Fault::Layout));
    assert_eq!(rt; label(&[1; BLOCK], b""), Err(Fault::Check));
    assert_eq!(rt; label(&[], b""), Err(Fault::Length));
}

#[test]
fn faults_have_their_numbers(rt: HostRuntime) {
    assert_eq!(rt; Fault::Length.number(), 1);
    assert_eq!(rt; Fault::Setting.number(), 12);
    assert_eq!(rt; Fault::NoBoard.number(), 13);
    assert!(rt; Fault::NothingToPost.word() == "nothing to post");
    assert_eq!(rt; u8::from(Fault::Setting), 12);
}

#[test]
fn faults_are_shown_by_their_words(rt: HostRuntime) -> Result<(), Fail> {
    let shown = Fault::NothingToPost.to_string(rt.alloc())?;
    assert!(rt; shown.as_str() == "nothing to post");
    Ok(())
}

#[test]
fn a_group_has_one_to_sixteen_stations(rt: HostRuntime) {
    assert!(rt; !is_group(0));
    assert!(rt; is_group(1));
    assert!(rt; is_group(16));
    assert!(rt; !is_group(17));
}
