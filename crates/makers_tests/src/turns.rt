// Tie orders: who goes first.
use std::process::Abort;
use std::test::Fail;
use ties::{ClassOrder, Head, StationOrder, TieOrder, TurnOrder, first_of};
use wire::{Fault, Message};

fn head(station: u8, class: u8) -> Head {
    Head { station, class }
}

// Whether the order puts the stations of this list in just this order, in a wave, all of class 0.
fn ascends<T: TieOrder>(rt: &impl Abort, order: &T, wave: u32, stations: &[u8]) {
    for (i, first) in stations.iter().enumerate() {
        for (j, second) in stations.iter().enumerate() {
            assert_eq!(rt;
                order.before(wave, head(*first, 0), head(*second, 0)),
                i < j
            );
        }
    }
}

#[test]
fn turns_go_round(rt: HostRuntime) -> Result<(), Fail> {
    let three = TurnOrder::new(3)?;
    ascends(&rt, &three, 1, &[1, 2, 3]);
    ascends(&rt, &three, 2, &[2, 3, 1]);
    ascends(&rt, &three, 3, &[3, 1, 2]);
    ascends(&rt, &three, 4, &[1, 2, 3]);
    ascends(&rt, &TurnOrder::new(1)?, 7, &[1]);
    let sixteen = TurnOrder::new(16)?;
    ascends(
        &rt,
        &sixteen,
        16,
        &[16, 1, 2, 3, 4, 5, 6, 7, 8, 9, 10, 11, 12, 13, 14, 15],
    );
    ascends(
        &rt,
        &sixteen,
        17,
        &[1, 2, 3, 4, 5, 6, 7, 8, 9, 10, 11, 12, 13, 14, 15, 16],
    );
    ascends(
        &rt,
        &sixteen,
        4_294_967_295,
        &[15, 16, 1, 2, 3, 4, 5, 6, 7, 8, 9, 10, 11, 12, 13, 14],
    );
    Ok(())
}

#[test]
fn classes_come_before_stations(rt: HostRuntime) -> Result<(), Fail> {
    let order = ClassOrder::new(3)?;
    ascends(&rt, &order, 5, &[1, 2, 3]);
    assert!(rt; order.before(1, head(3, 0), head(1, 1)));
    assert!(rt; !order.before(1, head(1, 1), head(3, 0)));
    assert!(rt; order.before(1, head(1, 2), head(3, 2)));
    assert_eq!(rt; first_of(&order, 1, head(1, 3), head(2, 2)), head(2, 2));
    assert_eq!(rt; first_of(&order, 1, head(2, 2), head(1, 3)), head(2, 2));
    Ok(())
}

#[test]
fn what_is_not_asked_gets_no(rt: HostRuntime) -> Result<(), Fail> {
    let stations = StationOrder::new(3)?;
    let classes = ClassOrder::new(3)?;
    ascends(&rt, &stations, 9, &[1, 2, 3]);
    assert!(rt; !stations.before(0, head(1, 0), head(2, 0)));
    assert!(rt; !stations.before(1, head(0, 0), head(2, 0)));
    assert!(rt; !stations.before(1, head(1, 0), head(4, 0)));
    assert!(rt; !classes.before(1, head(2, 0), head(2, 1)));
    assert!(rt; !classes.before(0, head(1, 0), head(2, 1)));
    Ok(())
}

#[test]
fn sizes_are_one_to_sixteen(rt: HostRuntime) -> Result<(), Fail> {
    for n in [0u8, 17, 255] {
        assert_eq!(rt; StationOrder::new(n).err(), Some(Fault::Setting));
        assert_eq!(rt; TurnOrder::new(n).err(), Some(Fault::Setting));
        assert_eq!(rt; ClassOrder::new(n).err(), Some(Fault::Setting));
    }
    assert_eq!(rt; StationOrder::new(1)?.stations(), 1);
    assert_eq!(rt; TurnOrder::new(16)?.stations(), 16);
    Ok(())
}

#[test]
fn a_message_is_a_head(rt: HostRuntime) {
    let message = Message {
        station: 7,
        number: 1,
        after: [0; 16],
        class: 2,
        order: [0; 8],
    };
    assert_eq!(rt; Head::from(&message), head(7, 2));
}
