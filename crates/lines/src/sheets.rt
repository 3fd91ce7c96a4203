ghost use Rattle.std.specs.Prelude.{◌≡◌, ◌+◌, ◌-◌, ◌*◌, ◌<◌, ◌≤◌};
ghost use Rattle.controls.specs.Events.{InLine};
ghost use Rattle.lines.specs.Sheet.{row_of};

use controls::events::Event;
use stations::numbers::StageNo;

// The most rows that a sheet has: pass, release and completion of 8 stages, and the delivery.
pub(crate) const MOST_ROWS: usize = 25;

// The stages of a line, 8 at most. They tell the rows of its sheet.
#[derive(Clone, Copy)]
pub(crate) struct Stages {
    pub(crate) count: u32,
    ghost few: { count ≤ 8 },
}

// The place of a stage among the stages, counted from 0.
fn index_of(stage: StageNo) -> usize
    ensures { result ≡ stage.0 - 1 }
{
    (stage.0 as usize).saturating_sub(1)
}

// The stage at a place, counted from 0.
fn stage_at(index: usize) -> StageNo
    requires { index < 8 }
    ensures { result.0 ≡ index + 1 }
{
    StageNo(index as u32 + 1)
}

impl Stages {
    // How many rows the sheet has.
    pub(crate) fn rows(self) -> usize
        ensures { result ≡ 3 * self.count + 1 }
    {
        3 * self.count as usize + 1
    }

    // The row of an event on the sheet, counted from 0. An event that the line does not have may have any.
    pub(crate) fn row_of(self, event: Event) -> usize
        ensures row { result ≡ row_of self.count event }
        ensures few { InLine self.count event → result < 3 * self.count + 1 }
    {
        let n = self.count as usize;
        match event {
            Event::Pass(stage) => index_of(stage),
            Event::Release(stage) => n + index_of(stage),
            Event::Completion(stage) => n + n + index_of(stage),
            Event::Delivery => n + n + n,
        }
    }

    // The event of a row; that of a row past the last is the delivery.
    pub(crate) fn event_at(self, row: usize) -> Event
        ensures inside { InLine self.count result }
        ensures back { row < 3 * self.count + 1 → row_of self.count result ≡ row }
    {
        let n = self.count as usize;
        if row < n {
            Event::Pass(stage_at(row))
        } else if row < n + n {
            Event::Release(stage_at(row - n))
        } else if row < n + n + n {
            Event::Completion(stage_at(row - n - n))
        } else {
            Event::Delivery
        }
    }
}
