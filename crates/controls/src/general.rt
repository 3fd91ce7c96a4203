ghost use Rattle.std.specs.Prelude.{◌≡◌};
ghost use Rattle.controls.specs.General.{next_pass, general};
ghost use Rattle.controls.specs.GeneralLaws.{general_laws};
ghost use Rattle.std.proofs.Common.{rules};

use crate::cards::Cards;
use crate::control::Control;
use crate::events::{Event, Wait};
use stations::numbers::StageNo;

// Generalized kanban: a call is passed from the last stage to the first, each time with a card, and a stage is given a
// part when the call is passed to it. It has the counts S1..SN, the stocks of finished parts, then K1..KN, the cards.
#[derive(Clone, Copy)]
pub struct General;

// What the pass to a stage waits on: the pass to the next one, at the last one the call.
fn next_pass(stages: u32, stage: StageNo) -> Wait
    ensures { result ≡ next_pass stages stage }
{
    if stage.0 < stages {
        Wait::After(Event::Pass(StageNo(stage.0 + 1)), 0)
    } else {
        Wait::Call
    }
}

impl Control for General {
    ghost COUNTS_PER_STAGE = { 2 };

    const COUNTS_PER_STAGE: u32 = 2;

    ghost meaning = { λ _. general };

    ghost some = { Prim.search rules };

    ghost few = { Prim.search rules };

    ghost counted = { Prim.search rules };

    ghost lawful = { λ c. general_laws };

    fn is_lawful(&self, cards: Cards<'_>) -> bool {
        cards.all_carded(cards.stages)
    }

    fn waits(&self, cards: Cards<'_>, event: Event) -> [Option<Wait>; 3] {
        match event {
            Event::Pass(stage) if cards.has_stage(stage) => {
                let card = Wait::After(Event::Completion(stage), cards.second_count(stage));
                [Some(next_pass(cards.stages, stage)), Some(card), None]
            }
            Event::Release(stage) if cards.has_stage(stage) => {
                let pass = Wait::After(Event::Pass(stage), 0);
                [Some(pass), cards.on_stock_before(stage), None]
            }
            Event::Delivery => cards.delivery_waits(),
            _ => [None, None, None],
        }
    }
}
