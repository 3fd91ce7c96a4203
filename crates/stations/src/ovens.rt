ghost use Rattle.std.specs.Prelude.{◌≡◌, ◌≤◌};
ghost use Rattle.calendar.specs.Settings.{Makes};
ghost use Rattle.stations.specs.ByHand.{OvenByHand};
ghost use Rattle.stations.specs.Fresh.{oven_refusal, fresh_oven};
ghost use Rattle.stations.specs.Serving.{oven};
ghost use Rattle.stations.specs.ServingLaw.{StartsInTurn};
ghost use Rattle.stations.specs.Serves.{oven_steady};

use crate::loading::Station;
use crate::served::{Served, Work};
use calendar::clock::END;
use calendar::settings::{Piece, SettingFault, on_range};

// An oven starts at multiples of its cycle and bakes a part for some minutes of it.
#[derive(Clone, Copy)]
pub struct OvenWork {
    cycle: u32,
    bake: u32,
    ghost turns: { 1 ≤ cycle },
    ghost daily: { cycle ≤ 1440 },
    ghost bakes: { 1 ≤ bake },
    ghost within: { bake ≤ cycle },
}

impl Work for OvenWork {
    ghost pace = { λ w. oven w.cycle w.bake };

    ghost steady = { λ w. oven_steady w.cycle w.bake w.turns w.bakes };

    #[tactic(auto, using(crate::proofs::Serves::next_rounds))]
    fn earliest(&self, arrival: u32) -> u32 {
        arrival.min(END).next_multiple_of(self.cycle)
    }

    fn turn(&self) -> u32 {
        self.cycle
    }

    fn stay(&self) -> u32 {
        self.bake
    }
}

// An oven of some places.
pub type Oven = Served<OvenWork>;

impl Served<OvenWork> {
    // A fresh oven with a cycle of 1 to 1,440 minutes, 1 to 16 places and 1 minute to a cycle of baking, or which
    // setting is off its range.
    pub fn new(cycle: u32, places: u32, bake: u32) -> Result<Oven, SettingFault>
        ensures { Makes (oven_refusal cycle places bake)
            (λ o. (⟦<Oven as Station>⟧.meaning o ≡ fresh_oven cycle places bake)
            × StartsInTurn cycle places bake (fresh_oven cycle places bake).rule) result }
    {
        on_range(Piece::Oven, 1, cycle, 1, 1440)?;
        on_range(Piece::Oven, 2, places, 1, 16)?;
        on_range(Piece::Oven, 3, bake, 1, cycle)?;
        Ok(Served::with_places(OvenWork { cycle, bake }, places as usize))
    }
}

// The departures from a fresh oven that were worked by hand.
pub fn oven_by_hand()
    ensures { OvenByHand }
{}
