// Three candidates at once, released one by one.
use super::LoneSource;
use board::{Board, Rule};
use rules::RollCall;
use std::test::Fail;

#[test]
fn the_lowest_station_goes_first(rt: HostRuntime) -> Result<(), Fail> {
    let rule = LoneSource::over(RollCall::new(3)?);
    let mut voters = [0; 16];
    voters[1] = 0b010;
    voters[2] = 0b101;
    assert_eq!(rt;
        rule.settle(&Board::new(3, 0b111, voters)?),
        Some(0b010),
        "2 and 3 are candidates"
    );
    voters[0] = 0b001;
    assert_eq!(rt;
        rule.settle(&Board::new(3, 0b111, voters)?),
        Some(0b001),
        "1 is a candidate too"
    );
    Ok(())
}
