ghost use Rattle.std.specs.Prelude.{◌≡◌, ◌≤◌};
ghost use Rattle.calendar.specs.Settings.{Makes};
ghost use Rattle.stations.specs.ByHand.{MachineByHand};
ghost use Rattle.stations.specs.Fresh.{machine_refusal, fresh_machine};
ghost use Rattle.stations.specs.Serving.{machine};
ghost use Rattle.stations.specs.ServingLaw.{LeavesInTurn};
ghost use Rattle.stations.specs.Serves.{machine_steady};

use crate::loading::Station;
use crate::served::{Served, Work};
use calendar::clock::END;
use calendar::settings::{Piece, SettingFault, on_range};

// A part stays on a machine for some minutes, and its place is free again when it leaves.
#[derive(Clone, Copy)]
pub struct MachineWork {
    minutes: u32,
    ghost works: { 1 ≤ minutes },
    ghost within: { minutes ≤ 1440 },
}

impl Work for MachineWork {
    ghost pace = { λ w. machine w.minutes };

    ghost steady = { λ w. machine_steady w.minutes w.works };

    fn earliest(&self, arrival: u32) -> u32 {
        arrival.min(END)
    }

    fn turn(&self) -> u32 {
        self.minutes
    }

    fn stay(&self) -> u32 {
        self.minutes
    }
}

// A machine of some places.
pub type Machine = Served<MachineWork>;

impl Served<MachineWork> {
    // A fresh machine of 1 to 8 places and 1 to 1,440 minutes, or which setting is off its range.
    pub fn new(places: u32, minutes: u32) -> Result<Machine, SettingFault>
        ensures { Makes (machine_refusal places minutes)
            (λ m. (⟦<Machine as Station>⟧.meaning m ≡ fresh_machine places minutes)
            × LeavesInTurn places minutes (fresh_machine places minutes).rule) result }
    {
        on_range(Piece::Machine, 1, places, 1, 8)?;
        on_range(Piece::Machine, 2, minutes, 1, 1440)?;
        Ok(Served::with_places(MachineWork { minutes }, places as usize))
    }
}

// The departures from a fresh machine that were worked by hand.
pub fn machine_by_hand()
    ensures { MachineByHand }
{}
