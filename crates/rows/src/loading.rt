ghost use Rattle.std.specs.Prelude.{◌≡◌, ℕ, ◌≤◌, List, map, length};
ghost use Rattle.stations.specs.Rule.{Meaning, freshened};
ghost use Rattle.rows.specs.Row.{AllLawful};
ghost use Rattle.rows.specs.RowLoad.{RowLoaded, numbered, row_number};
ghost use Rattle.rows.specs.declared.loading.RowFault.TheVariants.{Refused};

use stations::loading::LoadFault;
use stations::numbers::StageNo;

// Why a load in a row is refused.
#[derive(Clone, Copy, PartialEq, Eq, Debug)]
pub enum RowFault {
    // The row has no station of this number.
    NoStation(StageNo),
    // The station of this number in the row refuses.
    Refused(StageNo, LoadFault),
}

impl RowFault {
    // The number of the refusal.
    pub fn number(&self) -> u32
        ensures { result ≡ row_number self.now }
    {
        match self {
            RowFault::NoStation(_) => 5,
            RowFault::Refused(_, fault) => fault.number(),
        }
    }

    // The same fault of the station under another number.
    pub fn renumbered(self, stage: StageNo) -> RowFault
        ensures { result ≡ numbered stage self }
    {
        match self {
            RowFault::NoStation(_) => RowFault::NoStation(stage),
            RowFault::Refused(_, fault) => RowFault::Refused(stage, fault),
        }
    }
}

// The fault of a lone station, which is station 1 of its row.
impl From<LoadFault> for RowFault {
    ghost from_gives = { λ f r. r ≡ Refused (record { 0 = 1 }) f };

    fn from(fault: LoadFault) -> RowFault {
        RowFault::Refused(StageNo(1), fault)
    }
}

// Stations in a row, numbered from 1, at most 64. Its meaning is the list of what its stations mean.
pub trait Row {
    ghost meanings: { Self → List Meaning };

    // How many stations there are.
    fn len(&self) -> u32
        ensures { result ≡ length (meanings self.now) };

    // Loads the station of that number, and answers as it does.
    fn load(&mut self, stage: StageNo, arrival: u32) -> Result<u32, RowFault>
        ensures { RowLoaded (meanings self.old) stage arrival result (meanings self.new) };

    // Makes every station fresh.
    fn fresh(&mut self)
        ensures { meanings self.new ≡ map freshened (meanings self.old) };

    ghost lawful: { (r : Self) → AllLawful (meanings r) };

    ghost few: { (r : Self) → length (meanings r) ≤ 64 };
}
