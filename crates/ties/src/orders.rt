// Tie orders by a key, and the three of them.
ghost use Rattle.std.specs.Prelude.{◌≡◌, ◌≤◌, ℕ};
ghost use Rattle.std.proofs.Common.{rules};
ghost use Rattle.ties.specs.Ties.{TieMeaning, asked};
ghost use Rattle.ties.specs.Sizes.{made_for};
ghost use Rattle.ties.specs.Keys.{IsByKey};
ghost use Rattle.ties.specs.KeyLaws.{lawful_by_key};
ghost use Rattle.ties.specs.Orders.{class_order, order_of, start, station_order, turn, turn_order};

use crate::size::Size;
use crate::tie::{Head, TieOrder};
use std::marker::PhantomData;
use wire::Fault;

// By which key a tie order compares two heads in a wave: of two stations of the group, the one with
// the lower key goes first.
pub trait Key {
    ghost use Rattle.ties.specs.declared.tie.Head.{Head};

    type Value: Ord + Copy;

    // What the order means, by the size of its group.
    ghost order: { ℕ → TieMeaning };

    ghost key: { ℕ → ℕ → Head → Self.Value };

    // The key of a head in a wave, in a group of this size.
    fn key(size: Size, wave: u32, head: Head) -> Self::Value
        ensures { result ≡ key size.n wave head };

    // the order answers by the keys, and different stations of the group have different keys
    ghost by_key: { IsByKey Self.Value.cmp order key };
}

// The tie order by a key, for the group of one size.
#[derive(Clone, Copy)]
pub struct OrderBy<K> {
    size: Size,
    by: PhantomData<K>,
}

impl<K: Key> OrderBy<K> {
    // The order for a group of n, or a refusal of any n outside 1 to 16.
    pub fn new(n: u8) -> Result<OrderBy<K>, Fault>
        ensures { order_of result ≡ made_for n }
    {
        Ok(OrderBy {
            size: Size::new(n)?,
            by: PhantomData,
        })
    }
}

impl<K: Key> TieOrder for OrderBy<K> {
    ghost means = { λ order. K.order order.size.n };

    ghost lawful = { λ order. lawful_by_key K.Value.total K.by_key order.size.n };

    fn stations(&self) -> u8 {
        self.size.get()
    }

    fn before(&self, wave: u32, first: Head, second: Head) -> bool {
        is_asked(self.size, wave, first, second)
            && K::key(self.size, wave, first) < K::key(self.size, wave, second)
    }
}

// Whether there is anything to answer: a wave from 1, and two different stations of the group.
fn is_asked(size: Size, wave: u32, first: Head, second: Head) -> bool
    ensures { result ≡ asked size.n wave first second }
{
    let group = 1..=size.get();
    wave >= 1
        && group.contains(&first.station)
        && group.contains(&second.station)
        && first.station != second.station
}

// The lower station goes first.
pub type StationOrder = OrderBy<ByStation>;

#[derive(Clone, Copy)]
pub struct ByStation;

impl Key for ByStation {
    type Value = u8;

    ghost order = { station_order };

    ghost key = { λ _ _ head. head.station };

    ghost by_key = { Prim.search rules };

    fn key(_size: Size, _wave: u32, head: Head) -> u8 {
        head.station
    }
}

// The turn to go first goes round: wave w starts at station ((w − 1) mod n) + 1, goes up, and puts 1 after n.
pub type TurnOrder = OrderBy<ByTurn>;

#[derive(Clone, Copy)]
pub struct ByTurn;

impl Key for ByTurn {
    type Value = u8;

    ghost order = { turn_order };

    ghost key = { λ n wave head. turn n (start n wave) head.station };

    ghost by_key = { Prim.search rules };

    fn key(size: Size, wave: u32, head: Head) -> u8 {
        turn_of(size, start_of(size, wave), head.station)
    }
}

// The lower class goes first, and among equal classes the lower station.
pub type ClassOrder = OrderBy<ByClass>;

#[derive(Clone, Copy)]
pub struct ByClass;

impl Key for ByClass {
    type Value = (u8, u8);

    ghost order = { class_order };

    ghost key = { λ _ _ head. (head.class, head.station) };

    ghost by_key = { Prim.search rules };

    fn key(_size: Size, _wave: u32, head: Head) -> (u8, u8) {
        (head.class, head.station)
    }
}

// The station at which a wave starts.
fn start_of(size: Size, wave: u32) -> u8
    ensures value { result ≡ start size.n wave }
    ensures bound { result ≤ size.n }
{
    (wave.saturating_sub(1) % u32::from(size.get())) as u8 + 1
}

// How far a station lies past the first of a wave, going up and putting 1 after n.
fn turn_of(size: Size, first: u8, station: u8) -> u8
    requires { first ≤ size.n }
    ensures { result ≡ turn size.n first station }
{
    if station >= first {
        station - first
    } else {
        station + size.get() - first
    }
}
