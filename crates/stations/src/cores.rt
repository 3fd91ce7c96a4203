ghost use Rattle.std.specs.Prelude.{◌≡◌};
ghost use Rattle.calendar.specs.Settings.{Makes};
ghost use Rattle.stations.specs.Cores.{core_pace};
ghost use Rattle.stations.specs.Fresh.{machine_refusal, fresh_machine, oven_refusal, fresh_oven};
ghost use Rattle.stations.specs.declared.cores.CoreWork.TheVariants.{Machine, Oven};
ghost use Rattle.stations.specs.Serves.{machine_steady, oven_steady};

use crate::loading::Station;
use crate::machines::{Machine, MachineWork};
use crate::ovens::{Oven, OvenWork};
use crate::served::{Served, Work};
use calendar::settings::SettingFault;

// What works on the parts of a station of the shop. An enum and no `dyn Work`: making a station takes no heap.
#[derive(Clone, Copy)]
pub enum CoreWork {
    Machine(MachineWork),
    Oven(OvenWork),
}

impl Work for CoreWork {
    ghost pace = { core_pace };

    ghost steady = { elim [
      | Machine w ↦ machine_steady w.minutes w.works
      | Oven w ↦ oven_steady w.cycle w.bake w.turns w.bakes
    ] };

    fn earliest(&self, arrival: u32) -> u32 {
        match self {
            CoreWork::Machine(work) => work.earliest(arrival),
            CoreWork::Oven(work) => work.earliest(arrival),
        }
    }

    fn turn(&self) -> u32 {
        match self {
            CoreWork::Machine(work) => work.turn(),
            CoreWork::Oven(work) => work.turn(),
        }
    }

    fn stay(&self) -> u32 {
        match self {
            CoreWork::Machine(work) => work.stay(),
            CoreWork::Oven(work) => work.stay(),
        }
    }
}

// A machine or an oven.
pub type Core = Served<CoreWork>;

impl Served<CoreWork> {
    // A fresh machine, or which setting is off its range.
    pub fn machine(places: u32, minutes: u32) -> Result<Core, SettingFault>
        ensures { Makes (machine_refusal places minutes)
            (λ c. ⟦<Core as Station>⟧.meaning c ≡ fresh_machine places minutes) result }
    {
        Ok(Machine::new(places, minutes)?.map_work(CoreWork::Machine))
    }

    // A fresh oven, or which setting is off its range.
    pub fn oven(cycle: u32, places: u32, bake: u32) -> Result<Core, SettingFault>
        ensures { Makes (oven_refusal cycle places bake)
            (λ c. ⟦<Core as Station>⟧.meaning c ≡ fresh_oven cycle places bake) result }
    {
        Ok(Oven::new(cycle, places, bake)?.map_work(CoreWork::Oven))
    }
}
