ghost use Rattle.std.specs.Prelude.{◌≡◌, ◌≤◌, [], None};
ghost use Rattle.arrayvec.specs.ArrayVec.{array_vec_len};
ghost use Rattle.calendar.specs.Clock.{cut};
ghost use Rattle.stations.specs.Serving.{Pace, Steady, serving};
ghost use Rattle.stations.specs.Serves.{served_lawful};

use crate::loading::{LoadFault, Station, admit};
use crate::places::Places;
use calendar::clock::later_by;

// How a station works on a part. Its meaning is a pace.
pub trait Work {
    ghost pace: { Self → Pace };

    // The first minute at which a part that arrives at `arrival` may start. An arrival past the clock counts as its
    // end.
    fn earliest(&self, arrival: u32) -> u32
        ensures { result ≡ (pace self.now).from (cut arrival) };

    // How long after its start a part's place is free again.
    fn turn(&self) -> u32
        ensures { result ≡ (pace self.now).turn };

    // How long after its start a part leaves.
    fn stay(&self) -> u32
        ensures { result ≡ (pace self.now).stay };

    ghost steady: { (w : Self) → Steady (pace w) };
}

// A station whose parts take its places in turn.
#[derive(Drop)]
pub struct Served<W> {
    pub(crate) work: W,
    pub(crate) places: Places,
    pub(crate) last: Option<u32>,
}

impl<W: Work> Served<W> {
    // A fresh station with so many places.
    pub(crate) fn with_places(work: W, count: usize) -> Served<W>
        requires { (1 ≤ count) × (count ≤ 16) }
        ensures { ⟦<Served<W> as Station>⟧.meaning result ≡ serving count (W.Work.pace work) [] None }
    {
        Served {
            work,
            places: Places::new(count),
            last: None,
        }
    }
}

impl<W> Served<W> {
    // The station with its work turned into another kind.
    pub(crate) fn map_work<V, F: FnOnce(W) -> V>(self, turn_into: F) -> Served<V>
        requires { F.pre turn_into self.work }
        ensures work { F.post turn_into self.work result.work }
        ensures places { result.places ≡ self.places }
        ensures last { result.last ≡ self.last }
    {
        let Served { work, places, last } = self;
        Served {
            work: turn_into(work),
            places,
            last,
        }
    }
}

impl<W: Work> Station for Served<W> {
    ghost meaning = { λ s. serving (array_vec_len s.places.free) (W.Work.pace s.work) s.places.free.items s.last };

    ghost lawful = { λ s. served_lawful (array_vec_len s.places.free) (W.Work.pace s.work) (W.Work.steady s.work) };

    fn load(&mut self, arrival: u32) -> Result<u32, LoadFault> {
        admit(self.last, arrival)?;
        let start = self
            .places
            .take(self.work.earliest(arrival), self.work.turn());
        self.last = Some(arrival);
        Ok(later_by(start, self.work.stay()))
    }

    fn fresh(&mut self) {
        self.places.clear();
        self.last = None;
    }
}
