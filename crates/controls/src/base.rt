ghost use Rattle.controls.specs.Base.{base};
ghost use Rattle.controls.specs.BaseLaws.{base_laws};
ghost use Rattle.std.proofs.Common.{rules};

use crate::cards::Cards;
use crate::control::Control;
use crate::events::{Event, Wait};

// Base stock: each stage is given a part at every call. It has the counts S1..SN, the stocks of finished parts.
#[derive(Clone, Copy)]
pub struct Base;

impl Control for Base {
    ghost COUNTS_PER_STAGE = { 1 };

    const COUNTS_PER_STAGE: u32 = 1;

    ghost meaning = { λ _. base };

    ghost some = { Prim.search rules };

    ghost few = { Prim.search rules };

    ghost counted = { Prim.search rules };

    ghost lawful = { λ c. base_laws };

    fn is_lawful(&self, _cards: Cards<'_>) -> bool {
        true
    }

    fn waits(&self, cards: Cards<'_>, event: Event) -> [Option<Wait>; 3] {
        match event {
            Event::Pass(stage) if cards.has_stage(stage) => [Some(Wait::Call), None, None],
            Event::Release(stage) if cards.has_stage(stage) => {
                [Some(Wait::Call), cards.on_stock_before(stage), None]
            }
            Event::Delivery => cards.delivery_waits(),
            _ => [None, None, None],
        }
    }
}
