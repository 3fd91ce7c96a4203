ghost use Rattle.std.specs.Prelude.{◌≡◌, None};
ghost use Rattle.stations.specs.Layer.{layered};
ghost use Rattle.stations.specs.Pieces.{moving, weekly};
ghost use Rattle.stations.specs.Rule.{freshened};

use crate::cores::Core;
use crate::layers::Over;
use crate::loading::Station;
use crate::moves::{Move, Way};
use crate::weekly::InWeek;
use calendar::week::Week;

// A station of the shop: a move over a week over a core.
pub type Pile = Move<InWeek<Core>>;

// A station with a week and a way to it, made fresh.
pub fn piled<S: Station>(station: S, week: Week, way: Way) -> Move<InWeek<S>>
    ensures { ⟦<Move<InWeek<S>> as Station>⟧.meaning result
        ≡ freshened (layered (moving way.minutes) None (layered (weekly week) None (S.Station.meaning station))) }
{
    Over::new(way, Over::new(week, station))
}
