ghost use Rattle.std.specs.Prelude.{◌≡◌, ◌+◌, ◌-◌, ◌*◌, ◌^◌, ◌<◌, ◌≤◌, length, MatchOption};
ghost use Rattle.stations.specs.Lists.{at};
ghost use Rattle.lines.specs.Missed.{calls};
ghost use Rattle.lines.specs.Sheet.{row_of, rows};

use crate::sheets::Stages;
use controls::events::Event;
use ledger::book::Book;

// A booked part: the book and the part's index in it.
#[derive(Clone, Copy)]
pub(crate) struct Part<'b> {
    pub(crate) book: &'b Book,
    pub(crate) index: usize,
    ghost booked: { index < length book.now.parts.items },
}

impl<'b> Part<'b> {
    // The minute at which the part is called.
    pub(crate) fn call(&self) -> u32
        ensures { result ≡ at (calls self.now.book.now.parts.items) (self.now.index + 1) }
    {
        self.book.parts()[self.index].call
    }

    // The part so many before it, if there is one.
    pub(crate) fn before(&self, lag: u32) -> Option<Part<'b>>
        ensures { MatchOption result (self.now.index < lag)
            (λ p. (p.book.now ≡ self.now.book.now) × (p.index + lag ≡ self.now.index)) }
    {
        let index = self.index.checked_sub(lag as usize)?;
        Some(Part {
            book: self.book,
            index,
        })
    }

    // The part's place in a row of the sheet.
    pub(crate) fn in_row(&self, row: usize) -> usize
        requires { row < 2 ^ 34 }
        ensures { result ≡ row * length self.now.book.now.parts.items + self.now.index }
    {
        row * self.book.parts().len() + self.index
    }

    // The place on the sheet of an event of the part.
    pub(crate) fn place(&self, stages: Stages, event: Event) -> usize
        ensures { result ≡ row_of stages.count event * length self.now.book.now.parts.items + self.now.index }
    {
        self.in_row(stages.row_of(event))
    }

    // The minute of an event of the part, as the sheet has it; 0 where it has none.
    pub(crate) fn minute(&self, stages: Stages, sheet: &[u32], event: Event) -> u32
        ensures { result ≡ at (rows stages.count (length self.now.book.now.parts.items) sheet.now event) (self.now.index + 1) }
    {
        sheet.get(self.place(stages, event)).copied().unwrap_or(0)
    }
}
