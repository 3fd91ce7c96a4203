ghost use Rattle.std.specs.Prelude.{◌≡◌, ◌≤◌};
ghost use Rattle.calendar.specs.Settings.{first_off, Makes};
ghost use Rattle.calendar.specs.declared.settings.Piece.TheVariants as pieces;
ghost use Rattle.stations.specs.Pieces.{move_settings, moving};
ghost use Rattle.stations.specs.Layering.{move_layer};

use crate::layers::{Over, Through};
use calendar::clock::later_by;
use calendar::settings::{Piece, SettingFault, on_range};

// The way to a station, in minutes.
#[derive(Clone, Copy)]
pub struct Way {
    minutes: u32,
    ghost few: { minutes ≤ 1440 },
}

impl Way {
    // A way of 0 to 1,440 minutes, or that the setting is off its range.
    pub fn new(minutes: u32) -> Result<Way, SettingFault>
        ensures { Makes (first_off pieces.Move 1 (move_settings minutes)) (λ w. (w.minutes ≡ minutes)) result }
    {
        on_range(Piece::Move, 1, minutes, 0, 1440)?;
        Ok(Way { minutes })
    }
}

impl Through for Way {
    ghost pass = { λ w. moving w.minutes };

    ghost layer = { λ w. move_layer w.minutes };

    fn down(&self, arrival: u32) -> u32 {
        later_by(arrival, self.minutes)
    }

    fn up(&self, departure: u32) -> u32 {
        departure
    }
}

// A station with a way to it.
pub type Move<S> = Over<Way, S>;
