// Opening a station.
ghost use Rattle.std.specs.Prelude.{◌≡◌, Err, IfErr, IfOk};
ghost use Rattle.model.specs.Calls.{open_answer, opened};
ghost use Rattle.model.specs.Meanings.{OpenAnswers};
ghost use Rattle.station.specs.Memory.{settings_of};
ghost use Rattle.station.specs.Standing.{StandsFor, state_of_station};

use crate::lent::Lent;
use crate::places::{PLACES, RollPlace, TablePlace};
use crate::station::Station;
use crate::station::open::Open;
use board::is_group;
use board::sets::STATIONS;
use wire::Fault;

impl<'a> Station<'a> {
    // The question: refuses an n outside 1 to 16, an own station outside 1 to n, and a table and a roll
    // that are not of one length from 1 to 4,096.
    pub fn may_open(n: u8, own: u8, table: &[TablePlace], roll: &[RollPlace]) -> Result<(), Fault>
        ensures answer { result ≡ open_answer (settings_of n own table.now roll.now) }
        ensures answers { OpenAnswers (settings_of n own table.now roll.now) result }
    {
        let lawful = is_group(n)
            && (1..=n).contains(&own)
            && table.len() == roll.len()
            && (1..=PLACES).contains(&table.len());
        if lawful { Ok(()) } else { Err(Fault::Setting) }
    }

    // The making: it leaves the lent memory as it is, and whatever that holds does not count. Made against
    // a refusal of the question the station is shut: every call answers that refusal.
    pub fn new(
        n: u8,
        own: u8,
        table: &'a mut [TablePlace],
        roll: &'a mut [RollPlace],
    ) -> Station<'a>
        ensures state { StandsFor result (opened (settings_of n own table.old roll.old)) }
        ensures table { result.table.places.now ≡ table.old }
        ensures roll { result.roll.places.now ≡ roll.old }
        ensures table_lent { result.table.places.ghost_name ≡ table.entry.ghost_name }
        ensures roll_lent { result.roll.places.ghost_name ≡ roll.entry.ghost_name }
    {
        Station {
            n,
            own,
            table: Lent::new(table),
            roll: Lent::new(roll),
            posted: 0,
            waves: 0,
            accepted: [0; STATIONS],
            released: [0; STATIONS],
        }
    }

    // The station as an open one. Refuses if it was made against a refusal: it is shut.
    pub(super) fn open(&self) -> Result<Open<'_, 'a>, Fault>
        ensures refused { IfErr result (λ fault. Err fault ≡ open_answer (state_of_station self.now).settings) }
        ensures same { IfOk result (λ opened. opened.station.now ≡ self.now) }
    {
        Station::may_open(self.n, self.own, self.table.places(), self.roll.places())?;
        Ok(Open { station: self })
    }
}
