ghost use Rattle.std.specs.Prelude.{◌≡◌, ℕ, ◌≤◌};
ghost use Rattle.controls.specs.Control.{Meaning, LawfulControl};
ghost use Rattle.controls.specs.Lists.{somes};

use crate::cards::Cards;
use crate::events::{Event, Wait};

// A control tells what each event of a part waits for, by the counts of its cards. A count that is not there is 0.
pub trait Control {
    ghost COUNTS_PER_STAGE: { ℕ };

    // How many counts the control has for a stage.
    const COUNTS_PER_STAGE: u32;

    ghost meaning: { Self → Meaning };

    // Whether the line can work with these cards.
    fn is_lawful(&self, cards: Cards<'_>) -> bool
        ensures { result ≡ (meaning self.now).lawful cards.entry.stages cards.entry.counts.now };

    // What the event waits for in the line with these cards. A completion, and an event that the line does not have,
    // has no waits.
    // An array and no ArrayVec: an array is Copy, as the table of a plan is, and a vector of fixed capacity is not.
    // Each control writes its arms out: one method over closures would have to state the promise of each, no plainer.
    fn waits(&self, cards: Cards<'_>, event: Event) -> [Option<Wait>; 3]
        ensures { somes result ≡ (meaning self.now).waits cards.entry.stages cards.entry.counts.now event };

    ghost some: { 1 ≤ COUNTS_PER_STAGE };

    ghost few: { COUNTS_PER_STAGE ≤ 2 };

    ghost counted: { (c : Self) → (meaning c).per_stage ≡ COUNTS_PER_STAGE };

    ghost lawful: { (c : Self) → LawfulControl (meaning c) };
}
