ghost use Rattle.std.specs.Prelude.{◌≡◌, MatchResult};
ghost use Rattle.std.specs.Option.{option_map};
ghost use Rattle.calendar.specs.Settings.{Makes};
ghost use Rattle.calendar.specs.WeekOf.{shifts_of};
ghost use Rattle.jobs.specs.Make.{core_refusal, core_meaning, Weekly, Unnamed, Made, MakeRefused, stage_number};
ghost use Rattle.jobs.specs.declared.making.StageFault.TheVariants.{UnknownWeek, Setting};

use calendar::house::{HouseWeek, UnknownWeek as NoHouseWeek};
use calendar::settings::SettingFault;
use calendar::week::Week;
use forms::stages::{CoreForm, StageForm};
use stations::cores::Core;
use stations::loading::Station;
use stations::moves::Way;
use stations::piles::{Pile, piled};

// Why no station can be made of a stage's line.
#[derive(Clone, Copy, PartialEq, Eq, Debug)]
pub enum StageFault {
    // The week that it names is none of the house.
    UnknownWeek,
    // A setting of one of its pieces is at fault.
    Setting(SettingFault),
}

impl From<SettingFault> for StageFault {
    ghost from_gives = { λ s r. r ≡ Setting s };

    fn from(fault: SettingFault) -> StageFault {
        StageFault::Setting(fault)
    }
}

impl From<NoHouseWeek> for StageFault {
    ghost from_gives = { λ _ r. r ≡ UnknownWeek };

    fn from(_none: NoHouseWeek) -> Self {
        Self::UnknownWeek
    }
}

impl StageFault {
    // The number of the refusal.
    pub fn number(&self) -> u32
        ensures { result ≡ stage_number self.now }
    {
        match self {
            StageFault::UnknownWeek => 16,
            StageFault::Setting(fault) => fault.number(),
        }
    }
}

// The week of that name. A stage that names none is always open.
fn week_named(name: Option<&[u8]>) -> Result<Week, NoHouseWeek>
    ensures { let named = option_map (λ x. x.now) name.entry in
        MatchResult result (λ w. Weekly named (shifts_of w)) (λ _. Unnamed named) }
{
    match name {
        None => Ok(Week::all()),
        Some(word) => Ok(HouseWeek::try_from(word)?.week()),
    }
}

// The fresh core that a stage's line describes.
fn core_of(form: CoreForm) -> Result<Core, SettingFault>
    ensures { Makes (core_refusal form) (λ c. ⟦<Core as Station>⟧.meaning c ≡ core_meaning form) result }
{
    match form {
        CoreForm::Machine { places, minutes } => Core::machine(places, minutes),
        CoreForm::Oven {
            cycle,
            places,
            bake,
        } => Core::oven(cycle, places, bake),
    }
}

// The fresh station that a stage's line describes, or the first fault: the name of the week is tried first, then the
// settings as they stand.
pub fn make_station(form: StageForm<'_>) -> Result<Pile, StageFault>
    ensures { let week = option_map (λ x. x.now) form.entry.week in
        MatchResult result
        (λ p. Made form.entry.core form.entry.travel week (⟦<Pile as Station>⟧.meaning p))
        (MakeRefused form.entry.core form.entry.travel week) }
{
    let week = week_named(form.week)?;
    let core = core_of(form.core)?;
    let way = Way::new(form.travel.unwrap_or(0))?;
    Ok(piled(core, week, way))
}
