// The cards of a line, and the waits that several controls have by them.
ghost use Rattle.std.specs.Prelude.{◌≡◌, ◌+◌, [], ◌∷◌};
ghost use Rattle.stations.specs.Lists.{at};
ghost use Rattle.controls.specs.Lists.{somes};
ghost use Rattle.controls.specs.declared.events.Event.TheVariants.{Completion};
ghost use Rattle.controls.specs.declared.events.Wait.TheVariants.{After};
ghost use Rattle.controls.specs.Stages.{is_stage, before, delivery, next_release, carded};

use crate::events::{Event, Wait};
use stations::numbers::StageNo;

// The cards of a line: how many stages it has, and the counts at the places, those of the first kind first.
#[derive(Clone, Copy)]
pub struct Cards<'c> {
    pub stages: u32,
    pub counts: &'c [u32],
}

impl Cards<'_> {
    // The count at a place, counted from 1; one that is not there is 0.
    pub(crate) fn count_at(&self, place: usize) -> u32
        ensures { result ≡ at self.now.counts.now place }
    {
        place
            .checked_sub(1)
            .and_then(|index| self.counts.get(index))
            .copied()
            .unwrap_or(0)
    }

    // The second count of a stage; the second counts follow the first ones of all stages.
    pub(crate) fn second_count(&self, stage: StageNo) -> u32
        ensures { result ≡ at self.now.counts.now (self.now.stages + stage.0) }
    {
        self.count_at(self.stages as usize + stage.0 as usize)
    }

    // Whether each stage's count among those that follow the first so many is 1 or more.
    pub(crate) fn all_carded(&self, first: u32) -> bool
        ensures { result ≡ carded first self.now.counts.now self.now.stages }
    {
        // Not 1..=stages: the library lists the items of a range a..b alone, and this proof did not close.
        (1..self.stages as usize + 1).all(|i| self.count_at(first as usize + i) > 0)
    }

    // Whether the line has the stage.
    pub(crate) fn has_stage(&self, stage: StageNo) -> bool
        ensures { result ≡ is_stage self.now.stages stage }
    {
        1 <= stage.0 && stage.0 <= self.stages
    }

    // The release of the next stage, after the last one the delivery.
    pub(crate) fn next_release(&self, stage: StageNo) -> Event
        ensures { result ≡ next_release self.now.stages stage }
    {
        if stage.0 < self.stages {
            Event::Release(StageNo(stage.0 + 1))
        } else {
            Event::Delivery
        }
    }

    // The wait on the completion of a stage, with its stock for the lag.
    fn on_stock(&self, stage: StageNo) -> Wait
        ensures { result ≡ After (Completion stage) (at self.now.counts.now stage.0) }
    {
        Wait::After(Event::Completion(stage), self.count_at(stage.0 as usize))
    }

    // The wait of the stage's release on the completion of the stage before.
    pub(crate) fn on_stock_before(&self, stage: StageNo) -> Option<Wait>
        ensures { somes (result ∷ []) ≡ before self.now.counts.now stage.0 }
    {
        if stage.0 >= 2 {
            Some(self.on_stock(StageNo(stage.0 - 1)))
        } else {
            None
        }
    }

    // The waits of the delivery.
    pub(crate) fn delivery_waits(&self) -> [Option<Wait>; 3]
        ensures { somes result ≡ delivery self.now.stages self.now.counts.now }
    {
        [
            Some(Wait::Call),
            Some(self.on_stock(StageNo(self.stages))),
            None,
        ]
    }
}
