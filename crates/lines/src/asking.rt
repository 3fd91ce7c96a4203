ghost use Rattle.std.specs.Prelude.{◌≡◌, ◌≤◌, true, length};
ghost use Rattle.controls.specs.declared.events.Event.{Event as EventType};
ghost use Rattle.controls.specs.Control.{Fits};
ghost use Rattle.controls.specs.Events.{InLine};
ghost use Rattle.controls.specs.Lists.{somes};
ghost use Rattle.lines.specs.Asked.{Tells};
ghost use Rattle.lines.specs.Order.{Orderly};
ghost use Rattle.lines.specs.Sheet.{row_of};

use crate::sheets::{MOST_ROWS, Stages};
use controls::cards::Cards;
use controls::control::Control;
use controls::events::Wait;

// What each event of a part waits for, as a control told it; the waits stand by the rows of the sheet.
#[derive(Clone, Copy)]
pub(crate) struct WaitTable {
    pub(crate) stages: Stages,
    pub(crate) told: [[Option<Wait>; 3]; MOST_ROWS],
    ghost orderly: { ∥ Orderly stages.count told ∥₁ },
}

// The waits of every event, by the rows of the sheet; none past the last row.
fn told_by<C: Control>(control: &C, cards: Cards<'_>) -> [[Option<Wait>; 3]; MOST_ROWS]
    requires { cards.stages ≤ 8 }
    ensures { Tells cards.entry.stages
        ((C.meaning control.now).waits cards.entry.stages cards.entry.counts.now) result }
{
    let stages = Stages {
        count: cards.stages,
    };
    // A loop: by `array::from_fn`, also asked for these rows alone, a run of a short line took a fifth more instructions.
    let mut told = [[None; 3]; MOST_ROWS];
    for row in 0..stages.rows() {
        told[row] = control.waits(cards, stages.event_at(row));
    }
    told
}

// Asks the control for the waits of every event. It is asked here, and not again.
pub(crate) fn ask<C: Control>(control: &C, cards: Cards<'_>) -> WaitTable
    requires few { cards.stages ≤ 8 }
    requires fits { Fits (C.meaning control.now) cards.stages cards.counts.now }
    requires lawful { (C.meaning control.now).lawful cards.stages cards.counts.now ≡ true }
    ensures stages { result.stages.count ≡ cards.entry.stages }
    ensures tells { Tells cards.entry.stages
        ((C.meaning control.now).waits cards.entry.stages cards.entry.counts.now) result.told }
{
    WaitTable {
        stages: Stages {
            count: cards.stages,
        },
        told: told_by(control, cards),
    }
}
