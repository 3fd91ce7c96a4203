ghost use Rattle.controls.specs.Extended.{extended};
ghost use Rattle.controls.specs.ExtendedLaws.{extended_laws};
ghost use Rattle.std.proofs.Common.{rules};

use crate::cards::Cards;
use crate::control::Control;
use crate::events::{Event, Wait};

// Extended kanban: each stage is given a part at every call, no more parts ahead of the next stage than it has spare
// cards. It has the counts S1..SN, the stocks of finished parts, then F1..FN, the spare cards.
#[derive(Clone, Copy)]
pub struct Extended;

impl Control for Extended {
    ghost COUNTS_PER_STAGE = { 2 };

    const COUNTS_PER_STAGE: u32 = 2;

    ghost meaning = { λ _. extended };

    ghost some = { Prim.search rules };

    ghost few = { Prim.search rules };

    ghost counted = { Prim.search rules };

    ghost lawful = { λ c. extended_laws };

    fn is_lawful(&self, cards: Cards<'_>) -> bool {
        let half = cards.stages as usize;
        // Not 1..=half: as in `Cards::all_carded`, the proof did not close.
        (1..half + 1).all(|i| cards.count_at(i) > 0 || cards.count_at(half + i) > 0)
    }

    fn waits(&self, cards: Cards<'_>, event: Event) -> [Option<Wait>; 3] {
        match event {
            Event::Pass(stage) if cards.has_stage(stage) => [Some(Wait::Call), None, None],
            Event::Release(stage) if cards.has_stage(stage) => {
                let spare = Wait::After(cards.next_release(stage), cards.second_count(stage));
                [Some(Wait::Call), Some(spare), cards.on_stock_before(stage)]
            }
            Event::Delivery => cards.delivery_waits(),
            _ => [None, None, None],
        }
    }
}
