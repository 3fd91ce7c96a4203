ghost use Rattle.std.specs.Prelude.{◌≡◌};
ghost use Rattle.rows.specs.Row.{banked};
ghost use Rattle.rows.specs.Numbering.{banked_lawful, banked_few};

use crate::loading::{Row, RowFault};
use stations::loading::Station;
use stations::numbers::StageNo;

// Stations of one type, as many as are found at run time. None past number 64 is part of the row.
#[derive(Drop)]
pub struct Bank<S> {
    stations: Vec<S>,
}

impl<S: Station> Bank<S> {
    // The row of these stations, as they are.
    pub fn new(stations: Vec<S>) -> Bank<S>
        ensures { ⟦<Bank<S> as Row>⟧.meanings result ≡ banked S.Station.meaning stations.items }
    {
        Bank { stations }
    }
}

impl<S: Station> Row for Bank<S> {
    ghost meanings = { λ r. banked S.Station.meaning r.stations.items };

    ghost lawful = { λ r. banked_lawful S.Station.meaning r.stations.items S.Station.lawful };

    ghost few = { λ r. banked_few S.Station.meaning r.stations.items };

    #[tactic(auto, using(crate::specs::Numbering::banked_length))]
    fn len(&self) -> u32 {
        self.stations.len().min(64) as u32
    }

    fn load(&mut self, stage: StageNo, arrival: u32) -> Result<u32, RowFault> {
        if stage.0 == 0 || stage.0 > self.len() {
            return Err(RowFault::NoStation(stage));
        }
        self.stations[stage.0 as usize - 1]
            .load(arrival)
            .map_err(|fault| RowFault::Refused(stage, fault))
    }

    #[tactic(auto, using(crate::proofs::Numbering::fresh_more, crate::proofs::Numbering::banked_fresh))]
    fn fresh(&mut self) {
        for station in self.stations.iter_mut() {
            station.fresh();
        }
    }
}
