ghost use Rattle.std.specs.Prelude.{◌≡◌, None};
ghost use Rattle.stations.specs.Layer.{Pass, Layer, layered};
ghost use Rattle.stations.specs.Rule.{freshened};
ghost use Rattle.stations.specs.Layering.{through_lawful};

use crate::loading::{LoadFault, Station, admit};

// What a layer does with the minutes that pass it.
pub trait Through {
    ghost pass: { Self → Pass };

    // The arrival that the station below is loaded with.
    fn down(&self, arrival: u32) -> u32
        ensures { result ≡ (pass self.now).down arrival };

    // The departure that is answered where the part leaves the station below at `departure`.
    fn up(&self, departure: u32) -> u32
        ensures { result ≡ (pass self.now).up departure };

    ghost layer: { (p : Self) → Layer (pass p) };
}

// A layer over any station.
#[derive(Drop)]
pub struct Over<P, S> {
    by: P,
    below: S,
    last: Option<u32>,
}

impl<P: Through, S: Station> Over<P, S> {
    // The layer over the station, which is made fresh.
    pub fn new(by: P, mut below: S) -> Over<P, S>
        ensures { ⟦<Over<P, S> as Station>⟧.meaning result
            ≡ freshened (layered (P.Through.pass by) None (S.Station.meaning below)) }
    {
        below.fresh();
        Over {
            by,
            below,
            last: None,
        }
    }
}

impl<P: Through, S: Station> Station for Over<P, S> {
    ghost meaning = { λ o. layered (P.Through.pass o.by) o.last (S.Station.meaning o.below) };

    ghost lawful = { λ s.
        through_lawful (P.Through.pass s.by) (P.Through.layer s.by) (S.Station.meaning s.below).fresh
        (S.Station.lawful s.below) };

    #[tactic(auto, using(crate::proofs::LayerLoads::layer_passes))]
    fn load(&mut self, arrival: u32) -> Result<u32, LoadFault> {
        admit(self.last, arrival)?;
        let departure = self.below.load(self.by.down(arrival))?;
        self.last = Some(arrival);
        Ok(self.by.up(departure))
    }

    fn fresh(&mut self) {
        self.below.fresh();
        self.last = None;
    }
}
