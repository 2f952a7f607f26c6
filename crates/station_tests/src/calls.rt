// Opening with every bad setting, a shut station under every call, and the refusals in their order.
use crate::said::{N, carried, said};
use books::TillBook;
use rules::RollCall;
use station::{RollPlace, Station, TablePlace};
use std::test::Fail;
use ties::StationOrder;
use wire::{BLOCK, Fault, Message};

#[test]
fn bad_settings_are_refused(rt: HostRuntime) {
    let table = [TablePlace::EMPTY; 4097];
    let roll = [RollPlace::EMPTY; 4097];
    let refused = Err(Fault::Setting);
    assert_eq!(rt; Station::may_open(0, 1, &table[..2], &roll[..2]), refused);
    assert_eq!(rt; Station::may_open(17, 1, &table[..2], &roll[..2]), refused);
    assert_eq!(rt; Station::may_open(3, 0, &table[..2], &roll[..2]), refused);
    assert_eq!(rt; Station::may_open(3, 4, &table[..2], &roll[..2]), refused);
    assert_eq!(rt; Station::may_open(3, 1, &table[..2], &roll[..3]), refused);
    assert_eq!(rt; Station::may_open(3, 1, &table[..0], &roll[..0]), refused);
    assert_eq!(rt; Station::may_open(3, 1, &table, &roll), refused);
    assert_eq!(rt; Station::may_open(3, 3, &table[..1], &roll[..1]), Ok(()));
    assert_eq!(rt;
        Station::may_open(16, 16, &table[..4096], &roll[..4096]),
        Ok(())
    );
}

#[test]
fn a_shut_station_answers_setting(rt: HostRuntime) -> Result<(), Fail> {
    let mut table = [TablePlace::EMPTY; 2];
    let mut roll = [RollPlace::EMPTY; 3];
    let mut station = Station::new(N, 1, &mut table, &mut roll);
    let mut till = TillBook::new();
    let mut block = [170; BLOCK];
    let refused = Fault::Setting;
    assert_eq!(rt; station.offer(&[1]), Err(refused));
    assert_eq!(rt;
        station.write(4, &[0; 8], b"", &mut block[..1]),
        Err(refused)
    );
    assert_eq!(rt; station.write(0, &[0; 8], b"", &mut block), Err(refused));
    assert!(rt; block == [170; BLOCK]);
    assert_eq!(rt;
        station.release(&RollCall::new(N)?, &StationOrder::new(N)?),
        Err(refused)
    );
    assert_eq!(rt; station.post(&mut till), Err(refused));
    assert_eq!(rt; till.balance(), 0);
    assert!(rt; matches!(station.show(0), Err(Fault::Setting)));
    assert!(rt; matches!(station.show(1), Err(Fault::Setting)));
    Ok(())
}

#[test]
fn offers_are_refused_in_order(rt: HostRuntime) -> Result<(), Fail> {
    let mut table = [TablePlace::EMPTY; 2];
    let mut roll = [RollPlace::EMPTY; 2];
    let mut station = Station::new(N, 3, &mut table, &mut roll);
    let first = carried(N, &said(1, 1, [0, 0, 0]))?;
    let second = carried(N, &said(2, 1, [1, 0, 0]))?;
    assert_eq!(rt; station.offer(&[1; 511]), Err(Fault::Length));
    let mut damaged = first;
    damaged[3] = 4;
    assert_eq!(rt; station.offer(&damaged), Err(Fault::Check));
    assert_eq!(rt; station.offer(&[0; BLOCK]), Err(Fault::Layout));
    assert_eq!(rt;
        station.offer(&carried(4, &said(1, 1, [0, 0, 0]))?),
        Err(Fault::Layout)
    );
    assert_eq!(rt; station.offer(&second), Err(Fault::Early));
    assert_eq!(rt; station.offer(&first), Ok(()));
    assert_eq!(rt; station.offer(&second), Ok(()));
    Ok(())
}

// Offers a message to a station whose table is full with the first messages of stations 1 and 2, of which the
// second follows the first.
fn offered_to_a_full_table(message: &Message) -> Result<Result<(), Fault>, Fail> {
    let mut table = [TablePlace::EMPTY; 2];
    let mut roll = [RollPlace::EMPTY; 2];
    let mut station = Station::new(N, 3, &mut table, &mut roll);
    station.offer(&carried(N, &said(1, 1, [0, 0, 0]))?)?;
    station.offer(&carried(N, &said(2, 1, [1, 0, 0]))?)?;
    Ok(station.offer(&carried(N, message)?))
}

#[test]
fn a_full_table_is_told_last(rt: HostRuntime) -> Result<(), Fail> {
    let first = said(1, 1, [0, 0, 0]);
    assert_eq!(rt; offered_to_a_full_table(&first)?, Err(Fault::Repeat));
    let classed = Message { class: 1, ..first };
    assert_eq!(rt; offered_to_a_full_table(&classed)?, Err(Fault::Clash));
    let mut ordered = first;
    ordered.order[7] = 1;
    assert_eq!(rt; offered_to_a_full_table(&ordered)?, Err(Fault::Clash));
    assert_eq!(rt;
        offered_to_a_full_table(&said(1, 1, [0, 5, 0]))?,
        Err(Fault::Clash),
        "unlike and early"
    );
    assert_eq!(rt;
        offered_to_a_full_table(&said(1, 3, [2, 0, 0]))?,
        Err(Fault::Early),
        "a gap in its own station"
    );
    assert_eq!(rt;
        offered_to_a_full_table(&said(3, 2, [0, 1, 1]))?,
        Err(Fault::Early),
        "early and crossed"
    );
    assert_eq!(rt;
        offered_to_a_full_table(&said(3, 1, [0, 1, 0]))?,
        Err(Fault::Crossed),
        "crossed by what it follows"
    );
    assert_eq!(rt;
        offered_to_a_full_table(&said(2, 2, [0, 1, 0]))?,
        Err(Fault::Crossed),
        "crossed by its own station's"
    );
    assert_eq!(rt;
        offered_to_a_full_table(&said(3, 1, [1, 1, 0]))?,
        Err(Fault::Full)
    );
    Ok(())
}

#[test]
fn writing_is_refused_in_order(rt: HostRuntime) -> Result<(), Fail> {
    let mut table = [TablePlace::EMPTY; 1];
    let mut roll = [RollPlace::EMPTY; 1];
    let mut station = Station::new(N, 2, &mut table, &mut roll);
    let mut block = [170; BLOCK];
    assert_eq!(rt;
        station.write(4, &[0; 8], b"", &mut block[..511]),
        Err(Fault::Length)
    );
    assert_eq!(rt;
        station.write(4, &[0; 8], b"", &mut block),
        Err(Fault::Layout)
    );
    assert_eq!(rt;
        station.write(3, &[0; 8], b"\x1f", &mut block),
        Err(Fault::Layout)
    );
    assert!(rt; block == [170; BLOCK]);
    assert_eq!(rt;
        station.write(0, &[1, 0, 0, 0, 5, 0, 0, 0], b"", &mut block),
        Ok(())
    );
    assert!(rt; block == carried(N, &said(2, 1, [0, 0, 0]))?);
    let written = block;
    assert_eq!(rt;
        station.write(4, &[0; 8], b"", &mut block),
        Err(Fault::Layout)
    );
    assert_eq!(rt;
        station.write(0, &[0; 8], b"", &mut block),
        Err(Fault::Full)
    );
    assert!(rt; block == written);
    Ok(())
}
