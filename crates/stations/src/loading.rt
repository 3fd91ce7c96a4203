ghost use Rattle.std.specs.Prelude.{◌≡◌, Some};
ghost use Rattle.std.specs.Option.{option_map};
ghost use Rattle.std.specs.Result.{result_err};
ghost use Rattle.stations.specs.Rule.{Meaning, Lawful, before, freshened};
ghost use Rattle.stations.specs.Load.{number, refusal, load_reason, Loaded};

use calendar::clock::END;
use std::fmt;

// Why a load is refused.
#[derive(Clone, Copy, PartialEq, Eq, Debug)]
pub enum LoadFault {
    // The arrival is past the end of the clock.
    PastEnd,
    // The arrival is before the last one since the station was fresh.
    OutOfOrder,
}

impl LoadFault {
    // The number of the refusal.
    pub fn number(&self) -> u32
        ensures { result ≡ number self.now }
    {
        match self {
            LoadFault::PastEnd => 3,
            LoadFault::OutOfOrder => 4,
        }
    }
}

impl fmt::Display for LoadFault {
    ghost output = { λ e. Some (load_reason e) };

    fn fmt<W: fmt::Write>(&self, f: &mut fmt::Formatter<W>) -> fmt::Result {
        f.write_str(match self {
            LoadFault::PastEnd => "past the end of the clock",
            LoadFault::OutOfOrder => "before the last arrival",
        })
    }
}

// A station takes parts in the order of their arrivals and tells when each one leaves. Its meaning is a rule.
pub trait Station {
    ghost meaning: { Self → Meaning };

    // Takes the part that arrives at `arrival`, and answers the minute at which it leaves.
    fn load(&mut self, arrival: u32) -> Result<u32, LoadFault>
        ensures { Loaded (meaning self.old) arrival result (meaning self.new) };

    // Makes the station as if no part had ever come.
    fn fresh(&mut self)
        ensures { meaning self.new ≡ freshened (meaning self.old) };

    ghost lawful: { (s : Self) → Lawful (meaning s).fresh };
}

// Grants an arrival on the clock that is not before the last one.
pub fn admit(last: Option<u32>, arrival: u32) -> Result<(), LoadFault>
    ensures { option_map number (result_err result) ≡ refusal (before last) arrival }
{
    if arrival > END {
        return Err(LoadFault::PastEnd);
    }
    match last {
        Some(earlier) if arrival < earlier => Err(LoadFault::OutOfOrder),
        _ => Ok(()),
    }
}
