// Books: days of orders with their replies.
use books::book::post_all;
use books::{Book, CabinBook, CabinReply, Slot, TillBook, TillReply, TillWord};

const CABIN_DAY: [([u8; 8], CabinReply); 26] = [
    ([1, 3, 5, 0, 44, 1, 10, 0], CabinReply::Done),
    ([1, 3, 5, 0, 7, 0, 2, 0], CabinReply::OtherState),
    ([2, 3, 5, 0, 7, 0, 0, 0], CabinReply::OtherParty),
    ([2, 3, 5, 0, 1, 44, 0, 0], CabinReply::OtherParty),
    ([3, 3, 5, 12, 0, 0, 0, 0], CabinReply::TooSmall),
    ([3, 3, 5, 13, 0, 0, 0, 0], CabinReply::Done),
    ([1, 3, 6, 0, 7, 0, 24, 0], CabinReply::Done),
    ([3, 3, 6, 13, 0, 0, 0, 0], CabinReply::OtherCabin),
    ([3, 3, 6, 20, 0, 0, 0, 0], CabinReply::TooSmall),
    ([4, 3, 6, 20, 0, 0, 0, 0], CabinReply::OtherState),
    ([4, 3, 5, 14, 0, 0, 0, 0], CabinReply::OtherCabin),
    ([4, 3, 5, 13, 0, 0, 0, 0], CabinReply::Done),
    ([1, 3, 5, 0, 7, 0, 2, 0], CabinReply::OtherState),
    ([3, 3, 6, 25, 0, 0, 0, 0], CabinReply::Unreadable),
    ([2, 3, 6, 0, 7, 0, 2, 0], CabinReply::Unreadable),
    ([3, 3, 6, 21, 0, 0, 0, 0], CabinReply::Done),
    ([4, 3, 6, 21, 0, 0, 0, 0], CabinReply::Done),
    ([1, 14, 32, 0, 1, 0, 16, 0], CabinReply::Done),
    ([3, 14, 32, 13, 0, 0, 0, 0], CabinReply::Done),
    ([0, 1, 1, 0, 1, 0, 1, 0], CabinReply::Unreadable),
    ([5, 1, 1, 0, 1, 0, 1, 0], CabinReply::Unreadable),
    ([1, 15, 1, 0, 1, 0, 1, 0], CabinReply::Unreadable),
    ([1, 1, 33, 0, 1, 0, 1, 0], CabinReply::Unreadable),
    ([1, 1, 1, 0, 1, 0, 25, 0], CabinReply::Unreadable),
    ([1, 1, 1, 0, 0, 0, 1, 0], CabinReply::Unreadable),
    ([1, 1, 1, 0, 1, 0, 1, 1], CabinReply::Unreadable),
];

#[test]
fn a_day_of_cabins(rt: HostRuntime) {
    let mut book = CabinBook::new();
    for (order, reply) in CABIN_DAY {
        assert_eq!(rt; book.post(&order), reply);
    }
    assert_eq!(rt; book.slot(3, 5), Some(Slot::Ridden));
    let assigned = Slot::Assigned {
        party: 1,
        seats: 16,
        cabin: 13,
    };
    assert_eq!(rt; book.slot(14, 32), Some(assigned));
    assert_eq!(rt; book.slot(1, 1), Some(Slot::Free));
    assert_eq!(rt; book.slot(15, 1), None);
    assert_eq!(rt; book.slot(1, 0), None);
    assert_eq!(rt; book.is_home(13), Some(false));
    assert_eq!(rt; book.is_home(21), Some(true));
    assert_eq!(rt; book.is_home(0), None);
    assert_eq!(rt; book.is_home(25), None);
}

const TILL_DAY: [([u8; 8], TillWord, u32); 12] = [
    ([1, 0, 0, 0, 232, 3, 0, 0], TillWord::Done, 1000),
    ([2, 0, 0, 0, 233, 3, 0, 0], TillWord::NotEnough, 1000),
    ([2, 0, 0, 0, 232, 3, 0, 0], TillWord::Done, 0),
    ([1, 0, 0, 0, 0, 202, 154, 59], TillWord::Done, 1_000_000_000),
    ([1, 0, 0, 0, 1, 0, 0, 0], TillWord::OverLimit, 1_000_000_000),
    (
        [1, 0, 0, 0, 255, 255, 255, 255],
        TillWord::OverLimit,
        1_000_000_000,
    ),
    ([3, 0, 0, 0, 0, 0, 0, 0], TillWord::Done, 1_000_000_000),
    (
        [3, 0, 0, 0, 1, 0, 0, 0],
        TillWord::Unreadable,
        1_000_000_000,
    ),
    (
        [1, 0, 0, 0, 0, 0, 0, 0],
        TillWord::Unreadable,
        1_000_000_000,
    ),
    (
        [4, 0, 0, 0, 1, 0, 0, 0],
        TillWord::Unreadable,
        1_000_000_000,
    ),
    (
        [2, 0, 1, 0, 1, 0, 0, 0],
        TillWord::Unreadable,
        1_000_000_000,
    ),
    ([2, 0, 0, 0, 0, 202, 154, 59], TillWord::Done, 0),
];

#[test]
fn a_day_at_the_till(rt: HostRuntime) {
    let mut till = TillBook::new();
    for (order, word, balance) in TILL_DAY {
        assert_eq!(rt; till.post(&order), TillReply { word, balance });
        assert_eq!(rt; till.balance(), balance);
    }
}

#[test]
fn orders_add_up(rt: HostRuntime) {
    let mut till = TillBook::new();
    post_all(
        &mut till,
        &[
            [1, 0, 0, 0, 5, 0, 0, 0],
            [1, 0, 0, 0, 7, 0, 0, 0],
            [2, 0, 0, 0, 3, 0, 0, 0],
        ],
    );
    assert_eq!(rt; till.balance(), 9);
}

#[test]
fn codes_and_numbers(rt: HostRuntime) {
    assert_eq!(rt; <CabinBook as Book>::highest_code(), 4);
    assert_eq!(rt; <TillBook as Book>::highest_code(), 3);
    assert_eq!(rt; CabinReply::TooSmall as u8, 5);
    assert_eq!(rt; u8::from(CabinReply::TooSmall), 5);
    assert_eq!(rt; TillWord::NotEnough as u8, 3);
}
