ghost use Rattle.controls.specs.Kanban.{kanban};
ghost use Rattle.controls.specs.KanbanLaws.{kanban_laws};
ghost use Rattle.std.proofs.Common.{rules};

use crate::cards::Cards;
use crate::control::Control;
use crate::events::{Event, Wait};

// Kanban: each stage is given a part when the next one is, the last one at a delivery. It has the counts K1..KN, the
// cards, which are the stocks of finished parts too.
#[derive(Clone, Copy)]
pub struct Kanban;

impl Control for Kanban {
    ghost COUNTS_PER_STAGE = { 1 };

    const COUNTS_PER_STAGE: u32 = 1;

    ghost meaning = { λ _. kanban };

    ghost some = { Prim.search rules };

    ghost few = { Prim.search rules };

    ghost counted = { Prim.search rules };

    ghost lawful = { λ c. kanban_laws };

    fn is_lawful(&self, cards: Cards<'_>) -> bool {
        cards.all_carded(0)
    }

    fn waits(&self, cards: Cards<'_>, event: Event) -> [Option<Wait>; 3] {
        match event {
            Event::Pass(stage) if cards.has_stage(stage) => [Some(Wait::Call), None, None],
            Event::Release(stage) if cards.has_stage(stage) => {
                let next = Wait::After(cards.next_release(stage), 0);
                [Some(next), cards.on_stock_before(stage), None]
            }
            Event::Delivery => cards.delivery_waits(),
            _ => [None, None, None],
        }
    }
}
