ghost use Rattle.std.specs.Prelude.{◌≡◌, if◌then◌else◌, Ok, Err, vec_len, MatchResult};
ghost use Rattle.ledger.specs.Counts.{Fit, settable, counts_after};
ghost use Rattle.ledger.specs.declared.faults.BoardFault.TheVariants.{OffRange, NoMemory};

use crate::board::{Board, PlaceNo};
use crate::faults::BoardFault;
use std::alloc::Global;

impl Board {
    // A board that stands at these maxima.
    pub fn new(heap: Global, maxima: &[u32]) -> Result<Board, BoardFault>
        ensures { MatchResult result
            (λ b. Fit maxima.now × (b.counts.items ≡ maxima.now) × (b.maxima.items ≡ maxima.now))
            (λ e. elim e [ OffRange ↦ (Fit maxima.now → ⊥) | NoMemory ↦ Fit maxima.now ]) }
    {
        if maxima.len() < 1 || maxima.len() > 16 || maxima.iter().any(|maximum| *maximum > 64) {
            return Err(BoardFault::OffRange);
        }
        let counts = Vec::from_slice(heap, maxima)?;
        let maxima = Vec::from_slice(heap, maxima)?;
        Ok(Board { counts, maxima })
    }

    // The counts, in the order of the places.
    pub fn counts(&self) -> &[u32]
        ensures { result.now ≡ self.now.counts.items }
    {
        self.counts.as_slice()
    }

    // The maxima, in the order of the places.
    pub fn maxima(&self) -> &[u32]
        ensures { result.now ≡ self.now.maxima.items }
    {
        self.maxima.as_slice()
    }

    // Writes the count of one place.
    pub fn set(&mut self, place: PlaceNo, count: u32) -> Result<(), BoardFault>
        ensures answer { result ≡ (if settable self.old.maxima.items place.0 count then Ok tt else Err OffRange) }
        ensures counts { self.new.counts.items
            ≡ counts_after (settable self.old.maxima.items place.0 count) self.old.counts.items place.0 count }
        ensures maxima { self.new.maxima ≡ self.old.maxima }
    {
        let at = place.0 as usize;
        if at < 1 || at > self.counts.len() {
            return Err(BoardFault::OffRange);
        }
        if count > self.maxima[at - 1] {
            return Err(BoardFault::OffRange);
        }
        self.counts[at - 1] = count;
        Ok(())
    }
}
