ghost use Rattle.std.specs.Prelude.{◌≡◌, ◌<◌, ◌≤◌, ◌^◌, true, length, None};
ghost use Rattle.std.specs.Option.{option_map};
ghost use Rattle.std.specs.Result.{result_err};
ghost use Rattle.calendar.specs.Clock.{cut};
ghost use Rattle.calendar.specs.Settings.{told, Makes};
ghost use Rattle.calendar.specs.Week.{ordered, open_before, opened, total, reached, time_by};
ghost use Rattle.calendar.specs.WeekRefused.{count_off, shift_past, first_past, shift_unordered, first_unordered, week_refusal};
ghost use Rattle.calendar.specs.WeekOf.{shifts_of, all_week, early_week};
ghost use Rattle.calendar.specs.WeekLaw.{Adjoint, Opens};
ghost use Rattle.calendar.specs.ByHand.{EarlyByHand};

use crate::clock::later_by;
use crate::settings::{Piece, SettingFault, on_range};
use crate::shifts::Shift;
use crate::week::Week;

// The minutes of a week.
const WEEK: u32 = 10_080;

// Lets 1 to 16 shifts pass. With none the first is at fault, with too many the seventeenth.
fn count_in_range(count: usize) -> Result<(), SettingFault>
    ensures { option_map told (result_err result) ≡ count_off count }
{
    let position = if count == 0 { 1 } else { 17 };
    on_range(Piece::Week, position, count.min(17) as u32, 1, 16)
}

// Lets a shift pass that begins and ends inside the week.
fn shift_in_week(position: u32, shift: Shift) -> Result<(), SettingFault>
    ensures { option_map told (result_err result) ≡ shift_past position shift }
{
    on_range(Piece::Week, position, shift.begin, 0, WEEK)?;
    on_range(Piece::Week, position, shift.end, 0, WEEK)
}

// Lets shifts pass that all begin and end inside the week.
// At most 16 bounds their positions, here and below; a type for it would be named in this file alone.
fn all_in_week(shifts: &[Shift]) -> Result<(), SettingFault>
    requires { length shifts.now ≤ 16 }
    ensures { option_map told (result_err result) ≡ first_past 1 shifts.now }
{
    for (index, shift) in shifts.iter().enumerate() {
        shift_in_week(index as u32 + 1, *shift)?;
    }
    Ok(())
}

// Lets a shift pass that begins at `low` or later and below its end.
fn shift_in_order(position: u32, low: u32, shift: Shift) -> Result<(), SettingFault>
    ensures { option_map told (result_err result) ≡ shift_unordered position low shift }
{
    if shift.begin < low || shift.begin >= shift.end {
        return Err(SettingFault::ShiftOrder {
            position,
            begin: shift.begin,
        });
    }
    Ok(())
}

// Lets shifts pass that each begin below their end and after the end of the one before.
#[tactic(auto, using(crate::proofs::Refusing::past_none))]
fn all_in_order(shifts: &[Shift]) -> Result<(), SettingFault>
    requires { (length shifts.now ≤ 16) × (first_past 1 shifts.now ≡ None) }
    ensures { option_map told (result_err result) ≡ first_unordered 1 0 shifts.now }
{
    let mut low = 0;
    for (index, shift) in shifts.iter().enumerate() {
        shift_in_order(index as u32 + 1, low, *shift)?;
        low = shift.end + 1;
    }
    Ok(())
}

// How many minutes are open before a minute of the week.
fn opened_before(shifts: &[Shift], minute: u32) -> u32
    requires { opened shifts.now minute < 2 ^ 32 }
    ensures { result ≡ opened shifts.now minute }
{
    shifts
        .iter()
        .map(|shift| minute.min(shift.end).saturating_sub(shift.begin))
        .sum()
}

// The minute of the week by which `work` open minutes have passed.
#[tactic(auto, using(crate::proofs::Weeks::tested_shift_fits))]
fn minute_by(shifts: &[Shift], work: u32) -> u32
    requires { (ordered 0 shifts.now ≡ true) × ((1 ≤ work) × (work ≤ total shifts.now)) }
    ensures { result ≡ reached shifts.now work }
{
    let mut left = work;
    for shift in shifts {
        let length = shift.end - shift.begin;
        if left <= length {
            return shift.begin + left;
        }
        left -= length;
    }
    unreachable!()
}

const CLOSED: Shift = Shift { begin: 0, end: 0 };

// The house week that is always open.
const ALL: [Shift; 1] = [Shift {
    begin: 0,
    end: WEEK,
}];

// The house week of an early shift, from 6:00 to 14:00, on five days.
const EARLY: [Shift; 5] = [
    Shift {
        begin: 360,
        end: 840,
    },
    Shift {
        begin: 1800,
        end: 2280,
    },
    Shift {
        begin: 3240,
        end: 3720,
    },
    Shift {
        begin: 4680,
        end: 5160,
    },
    Shift {
        begin: 6120,
        end: 6600,
    },
];

// The week of shifts that make one.
#[tactic(auto, using(crate::proofs::Weeks::tested_opened_fits))]
fn week_of(shifts: &[Shift]) -> Week
    requires count { (1 ≤ length shifts.now) × (length shifts.now ≤ 16) }
    requires rising { ordered 0 shifts.now ≡ true }
    ensures { shifts_of result ≡ shifts.now }
{
    let mut table = [CLOSED; 16];
    table[..shifts.len()].copy_from_slice(shifts);
    Week {
        table,
        count: shifts.len(),
        minutes: opened_before(shifts, WEEK),
    }
}

impl Week {
    // The week of these shifts, or why they are none.
    #[tactic(auto, using(crate::proofs::Refusing::lawful_ordered))]
    pub fn new(shifts: &[Shift]) -> Result<Week, SettingFault>
        ensures { Makes (week_refusal shifts.now) (λ w. shifts_of w ≡ shifts.now) result }
    {
        count_in_range(shifts.len())?;
        all_in_week(shifts)?;
        all_in_order(shifts)?;
        Ok(week_of(shifts))
    }

    // The house week that is always open.
    pub fn all() -> Week
        ensures { shifts_of result ≡ all_week }
    {
        week_of(&ALL)
    }

    // The house week of an early shift on five days.
    pub fn early() -> Week
        ensures { shifts_of result ≡ early_week }
    {
        week_of(&EARLY)
    }

    // How many minutes of one week are open: at least one, and never more than there are.
    pub fn open_minutes(&self) -> u32
        ensures value { result ≡ total (shifts_of self.now) }
        ensures opens { (1 ≤ result) × Opens (shifts_of self.now) }
    {
        self.minutes
    }

    // How many minutes are open before `time`.
    #[tactic(auto, using(crate::proofs::Weeks::tested_opened_fits, crate::proofs::Weeks::week_counts))]
    pub fn open_before(&self, time: u32) -> u32
        ensures { result ≡ open_before (shifts_of self.now) time }
    {
        time / WEEK * self.open_minutes() + opened_before(&self.table[..self.count], time % WEEK)
    }

    // The earliest minute by which `work` open minutes have passed, cut at the end of the clock.
    #[tactic(auto, using(crate::proofs::Weeks::week_adjoint))]
    pub fn time_by(&self, work: u32) -> u32
        ensures value { result ≡ cut (time_by (shifts_of self.now) work) }
        ensures adjoint { Adjoint (shifts_of self.now) }
    {
        if work == 0 {
            return 0;
        }
        let weekly = self.open_minutes();
        let weeks = (work - 1) / weekly;
        let minute = minute_by(&self.table[..self.count], (work - 1) % weekly + 1);
        later_by(weeks.saturating_mul(WEEK), minute)
    }
}

// The minutes of the early week that were worked by hand.
pub fn early_week_by_hand()
    ensures { EarlyByHand }
{}
