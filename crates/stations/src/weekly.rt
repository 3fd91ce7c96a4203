ghost use Rattle.stations.specs.Pieces.{weekly};
ghost use Rattle.stations.specs.Layering.{week_layer};

use crate::layers::{Over, Through};
use calendar::week::Week;

impl Through for Week {
    ghost pass = { weekly };

    ghost layer = { λ w. week_layer w };

    fn down(&self, arrival: u32) -> u32 {
        self.open_before(arrival)
    }

    fn up(&self, departure: u32) -> u32 {
        self.time_by(departure)
    }
}

// A station that works in the open minutes of a week only.
pub type InWeek<S> = Over<Week, S>;
