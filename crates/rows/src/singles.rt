ghost use Rattle.std.specs.Prelude.{◌≡◌, [], ◌∷◌};
ghost use Rattle.std.proofs.Common.{rules};

use crate::loading::{Row, RowFault};
use stations::loading::Station;
use stations::numbers::StageNo;

// One station is a row of length 1.
#[derive(Drop)]
pub struct Single<S> {
    station: S,
}

impl<S: Station> Single<S> {
    // The row of this station, as it is.
    pub fn new(station: S) -> Single<S>
        ensures { ⟦<Single<S> as Row>⟧.meanings result ≡ S.Station.meaning station ∷ [] }
    {
        Single { station }
    }
}

impl<S: Station> Row for Single<S> {
    ghost meanings = { λ r. S.Station.meaning r.station ∷ [] };

    ghost lawful = { Prim.search rules };

    ghost few = { Prim.search rules };

    fn len(&self) -> u32 {
        1
    }

    fn load(&mut self, stage: StageNo, arrival: u32) -> Result<u32, RowFault> {
        if stage.0 != 1 {
            return Err(RowFault::NoStation(stage));
        }
        Ok(self.station.load(arrival)?)
    }

    fn fresh(&mut self) {
        self.station.fresh();
    }
}
