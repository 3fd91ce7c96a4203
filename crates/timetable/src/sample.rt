use calendar::settings::SettingFault;
use calendar::week::Week;
use ledger::bookings::Booking;
use rows::joins::Joined;
use rows::singles::Single;
use stations::cores::Core;
use stations::moves::Way;
use stations::piles::{Pile, piled};
use std::io;

// The parts that are booked.
pub(crate) const BOOKINGS: [Booking; 6] = [
    Booking {
        call: 400,
        due: 410,
    },
    Booking {
        call: 400,
        due: 410,
    },
    Booking {
        call: 430,
        due: 440,
    },
    Booking {
        call: 500,
        due: 510,
    },
    Booking {
        call: 510,
        due: 520,
    },
    Booking {
        call: 800,
        due: 810,
    },
];

// Three stations in a row.
pub(crate) type SampleRow = Joined<Joined<Single<Pile>, Single<Pile>>, Single<Pile>>;

// A machine, an oven at the end of a way, and a bench that is open in the early week.
pub(crate) fn sample_row() -> Result<SampleRow, SettingFault> {
    let machine = piled(Core::machine(1, 20)?, Week::all(), Way::new(0)?);
    let oven = piled(Core::oven(30, 2, 25)?, Week::all(), Way::new(5)?);
    let bench = piled(Core::machine(2, 15)?, Week::early(), Way::new(0)?);
    Ok(Joined::new(
        Joined::new(Single::new(machine), Single::new(oven)),
        Single::new(bench),
    ))
}

// Tells what the row is made of.
// Written out, and not from the row: it tells one sample in words of its own, as "1 place" beside "2 places".
pub(crate) fn tell_row(rt: &HostRuntime) -> io::Result<()> {
    println!(rt; "station 1: machine of 1 place, 20 minutes")?;
    println!(rt; "station 2: oven of 2 places, cycle 30, bake 25, move 5")?;
    println!(rt; "station 3: machine of 2 places, 15 minutes, week early")
}
