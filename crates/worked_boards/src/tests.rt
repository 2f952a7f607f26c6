// The worked boards, run through the code. A set lists its stations from the right: 0b00101 is {1, 3}.
ghost use Rattle.std.specs.Prelude.{◌≤◌};

use super::ask;
use board::sets::STATIONS;
use rules::{LeadStation, RollCall, Threshold};
use std::test::Fail;
use wire::Fault;

// No votes yet.
const NOBODY: [u16; STATIONS] = [0; STATIONS];

// The votes for the candidate of one station more.
fn with(mut votes: [u16; STATIONS], station: usize, set: u16) -> [u16; STATIONS]
    requires first { 1 ≤ station }
    requires last { station ≤ STATIONS }
{
    votes[station - 1] = set;
    votes
}

fn over_roll_call(n: u8, phi: u8) -> Result<Threshold<RollCall>, Fault> {
    Ok(Threshold::over(phi, RollCall::new(n)?))
}

#[test]
fn one_candidate(rt: HostRuntime) -> Result<(), Fail> {
    let rule = over_roll_call(5, 2)?;
    assert_eq!(rt;
        ask(&rule, 5, with(NOBODY, 1, 0b00111))?,
        Some(0b00001),
        "1"
    );
    assert_eq!(rt; ask(&rule, 5, with(NOBODY, 1, 0b00011))?, None, "2");
    Ok(())
}

#[test]
fn two_candidates(rt: HostRuntime) -> Result<(), Fail> {
    let rule = over_roll_call(5, 2)?;
    let three = with(NOBODY, 1, 0b00111);
    assert_eq!(rt; ask(&rule, 5, with(three, 4, 0b01000))?, Some(0b00001), "3");
    assert_eq!(rt; ask(&rule, 5, with(three, 4, 0b01100))?, None, "4");
    let all = with(with(three, 4, 0b01100), 5, 0b10000);
    assert_eq!(rt; ask(&rule, 5, all)?, Some(0b01001), "5");
    Ok(())
}

#[test]
fn the_last_vote(rt: HostRuntime) -> Result<(), Fail> {
    let rule = over_roll_call(5, 2)?;
    let four = with(NOBODY, 1, 0b10111);
    assert_eq!(rt; ask(&rule, 5, with(four, 4, 0b01100))?, Some(0b00001), "6");
    assert_eq!(rt; ask(&rule, 5, with(four, 4, 0b11100))?, Some(0b01001), "7");
    Ok(())
}

#[test]
fn everyone_for_itself(rt: HostRuntime) -> Result<(), Fail> {
    let rule = over_roll_call(5, 2)?;
    let two = with(with(NOBODY, 1, 0b00001), 2, 0b00010);
    let four = with(with(two, 3, 0b00100), 4, 0b01000);
    assert_eq!(rt; ask(&rule, 5, with(four, 5, 0b10000))?, Some(0b11111), "8");
    Ok(())
}

#[test]
fn piles(rt: HostRuntime) -> Result<(), Fail> {
    let low = over_roll_call(5, 1)?;
    let pairs = with(with(NOBODY, 1, 0b00011), 3, 0b01100);
    assert_eq!(rt; ask(&low, 5, pairs)?, Some(0b00101), "9");
    let high = Threshold::over(2, low);
    assert_eq!(rt; ask(&high, 5, pairs)?, None, "10");
    assert_eq!(rt;
        ask(&high, 5, with(pairs, 5, 0b10000))?,
        Some(0b00101),
        "11"
    );
    Ok(())
}

#[test]
fn a_lead_station(rt: HostRuntime) -> Result<(), Fail> {
    let votes = with(with(NOBODY, 1, 0b00111), 4, 0b01100);
    assert_eq!(rt;
        ask(&LeadStation::new(5, 4)?, 5, votes)?,
        Some(0b01000),
        "12"
    );
    Ok(())
}

#[test]
fn open_for_one_condition(rt: HostRuntime) -> Result<(), Fail> {
    let rule = over_roll_call(5, 1)?;
    assert_eq!(rt;
        ask(&rule, 5, with(NOBODY, 1, 0b00111))?,
        None,
        "too many absent"
    );
    assert_eq!(rt;
        ask(&rule, 5, with(with(NOBODY, 1, 0b01011), 3, 0b00100))?,
        None,
        "one may pass"
    );
    let votes = with(with(NOBODY, 1, 0b0010111), 4, 0b0001100);
    assert_eq!(rt;
        ask(&over_roll_call(7, 3)?, 7, with(votes, 6, 0b0100000))?,
        None,
        "one is not led"
    );
    Ok(())
}

#[test]
fn refusals(rt: HostRuntime) -> Result<(), Fail> {
    let rule = over_roll_call(5, 2)?;
    assert_eq!(rt;
        ask(&rule, 0, NOBODY),
        Err(Fault::Setting),
        "no group of none"
    );
    assert_eq!(rt;
        ask(&rule, 17, NOBODY),
        Err(Fault::Setting),
        "no group of 17"
    );
    assert_eq!(rt;
        ask(&rule, 5, with(NOBODY, 1, 0b00010)),
        Err(Fault::NoBoard),
        "no own vote"
    );
    assert_eq!(rt;
        ask(&rule, 5, with(NOBODY, 6, 0b100000)),
        Err(Fault::NoBoard),
        "no station 6"
    );
    assert_eq!(rt; ask(&rule, 5, NOBODY)?, None, "nobody present");
    assert_eq!(rt; ask(&rule, 4, with(NOBODY, 1, 0b1111))?, None, "another n");
    Ok(())
}
