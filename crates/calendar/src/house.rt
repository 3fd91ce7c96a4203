ghost use Rattle.std.specs.Prelude.{◌≡◌, MatchResult, ◌≢◌};
ghost use Rattle.calendar.specs.House.{house_name, house_shifts};
ghost use Rattle.calendar.specs.WeekOf.{shifts_of};
ghost use Rattle.calendar.specs.declared.house.HouseWeek.{HouseWeek as HouseWeekType};

use crate::week::Week;

// The weeks of the house, which a stage names by a word.
#[derive(Clone, Copy, PartialEq, Eq, Debug)]
pub enum HouseWeek {
    All,
    Early,
}

// The fault of a name that names no house week.
#[derive(Clone, Copy, PartialEq, Eq, Debug)]
pub struct UnknownWeek;

impl<'a> TryFrom<&'a [u8]> for HouseWeek {
    type Error = UnknownWeek;

    ghost try_from_gives = { λ name r.
        MatchResult r (λ k. name.now ≡ house_name k) (λ _. (k : HouseWeekType) → name.now ≢ house_name k) };

    fn try_from(name: &'a [u8]) -> Result<HouseWeek, UnknownWeek> {
        match name {
            b"all" => Ok(HouseWeek::All),
            b"early" => Ok(HouseWeek::Early),
            _ => Err(UnknownWeek),
        }
    }
}

impl HouseWeek {
    // The week itself.
    pub fn week(self) -> Week
        ensures { shifts_of result ≡ house_shifts self }
    {
        match self {
            HouseWeek::All => Week::all(),
            HouseWeek::Early => Week::early(),
        }
    }
}
