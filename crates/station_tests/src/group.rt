// A group of three: the same blocks in two orders, the same roll and the same till.
use crate::said::{N, carried, said};
use books::{TillBook, TillReply, TillWord};
use model::Entry;
use rules::{RollCall, Threshold};
use station::{RollPlace, Station, TablePlace};
use std::test::Fail;
use ties::{StationOrder, TurnOrder};
use wire::Fault;

fn two_waves() -> Result<[[u8; 512]; 4], Fault> {
    Ok([
        carried(N, &said(1, 1, [0, 0, 0]))?,
        carried(N, &said(2, 1, [1, 0, 0]))?,
        carried(N, &said(3, 1, [0, 0, 0]))?,
        carried(N, &said(1, 2, [1, 1, 0]))?,
    ])
}

// Releases as often as four messages can need, and tells how many came.
fn released(station: &mut Station) -> Result<usize, Fail> {
    let rule = Threshold::over(1, RollCall::new(N)?);
    let order = StationOrder::new(N)?;
    let mut count = 0usize;
    for _ in 0..4 {
        count = match station.release(&rule, &order) {
            Ok(more) => count.saturating_add(more),
            Err(Fault::NothingReady) => return Ok(count),
            Err(_) => return Err(Fail::new("refused")),
        };
    }
    Err(Fail::new("more waves than messages"))
}

fn entry(wave: u32, station: u8, number: u16, follows: [u16; 3]) -> Entry {
    Entry {
        wave,
        message: said(station, number, follows),
    }
}

#[test]
fn two_orders_of_arrival_give_one_roll(rt: HostRuntime) -> Result<(), Fail> {
    let blocks = two_waves()?;
    let mut table = [TablePlace::EMPTY; 4];
    let mut roll = [RollPlace::EMPTY; 4];
    let mut first = Station::new(N, 1, &mut table, &mut roll);
    for block in &blocks {
        assert_eq!(rt; first.offer(block), Ok(()));
    }
    let mut other_table = [TablePlace::EMPTY; 4];
    let mut other_roll = [RollPlace::EMPTY; 4];
    let mut second = Station::new(N, 2, &mut other_table, &mut other_roll);
    for place in [2, 0, 1, 3] {
        let place: usize = place;
        if let Some(block) = blocks.get(place) {
            assert_eq!(rt; second.offer(block), Ok(()));
        }
    }
    assert_eq!(rt; released(&mut first)?, 2);
    assert_eq!(rt; released(&mut second)?, 2);
    let one = entry(1, 1, 1, [0, 0, 0]);
    let two = entry(2, 2, 1, [1, 0, 0]);
    assert_eq!(rt; first.show(1)?.wave, one.wave);
    assert_eq!(rt; first.show(1)?.message, one.message);
    assert_eq!(rt; second.show(1)?.message, one.message);
    assert_eq!(rt; first.show(2)?.wave, two.wave);
    assert_eq!(rt; first.show(2)?.message, two.message);
    assert_eq!(rt; second.show(2)?.message, two.message);
    assert!(rt; matches!(first.show(0), Err(Fault::NoSuchPlace)));
    assert!(rt; matches!(first.show(3), Err(Fault::NoSuchPlace)));
    Ok(())
}

#[test]
fn posts_follow_the_roll(rt: HostRuntime) -> Result<(), Fail> {
    let mut table = [TablePlace::EMPTY; 4];
    let mut roll = [RollPlace::EMPTY; 4];
    let mut station = Station::new(N, 1, &mut table, &mut roll);
    let mut till = TillBook::new();
    for block in &two_waves()? {
        assert_eq!(rt; station.offer(block), Ok(()));
    }
    assert_eq!(rt; station.post(&mut till), Err(Fault::NothingToPost));
    let rule = Threshold::over(1, RollCall::new(N)?);
    assert_eq!(rt;
        station.release(
            &Threshold::over(1, RollCall::new(4)?),
            &StationOrder::new(N)?
        ),
        Err(Fault::Setting)
    );
    assert_eq!(rt;
        station.release(&rule, &TurnOrder::new(4)?),
        Err(Fault::Setting)
    );
    assert_eq!(rt; station.release(&rule, &StationOrder::new(N)?), Ok(1));
    let done = TillReply {
        word: TillWord::Done,
        balance: 5,
    };
    assert_eq!(rt; station.post(&mut till), Ok(done));
    assert_eq!(rt; station.post(&mut till), Err(Fault::NothingToPost));
    assert_eq!(rt; till.balance(), 5);
    Ok(())
}
