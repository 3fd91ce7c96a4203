ghost use Rattle.std.specs.Prelude.{◌≡◌, true, length, Decides, MatchResult};
ghost use Rattle.lines.specs.Faults.{line_number};
ghost use Rattle.lines.specs.Refusals.{RefusedBy, NoneHolds};
ghost use Rattle.lines.specs.Runs.{shop_of, NoLine, against_run, Ran, MoreCardsNothingLater};
ghost use Rattle.lines.specs.declared.faults.LineFault.TheVariants as faults;

use crate::asking::ask;
use crate::faults::LineFault;
use crate::line::Line;
use crate::misses::missed;
use crate::plans::Plan;
use controls::cards::Cards;
use controls::control::Control;
use ledger::board::Board;
use ledger::book::Book;
use rows::loading::Row;
use stations::numbers::PartNo;

// Whether a line cannot have so many stages on a row of so many stations.
fn no_line(stages: u32, stations: u32) -> bool
    ensures { Decides result (NoLine stages stations) }
{
    stages < 1 || stages > 8 || stations < stages
}

impl<R: Row + Drop, C: Control + Drop> Line<R, C> {
    // The line of these, if the stages are 1 to 8 and the row has a station for each.
    pub fn new(row: R, control: C, stages: u32) -> Result<Line<R, C>, LineFault>
        ensures { MatchResult result
            (λ l. (l.row ≡ row) × (l.control ≡ control) × (l.stages ≡ stages)
            × (NoLine stages (length (R.Row.meanings row)) → ⊥))
            (λ e. (e ≡ faults.Stages) × NoLine stages (length (R.Row.meanings row))) }
    {
        if no_line(stages, row.len()) {
            return Err(LineFault::Stages);
        }
        Ok(Line {
            row,
            control,
            stages,
        })
    }
}

impl<R: Row, C: Control> Line<R, C> {
    // Whether the booked parts can be run with these cards on the sheet; else the first refusal.
    fn admit(&self, book: &Book, cards: Cards<'_>, sheet: &[u32]) -> Result<(), LineFault>
        requires { cards.stages ≡ self.now.stages }
        ensures { let against = against_run
            (shop_of (C.Control.meaning self.now.control) self.now.stages (R.Row.meanings self.now.row))
            (length book.now.parts.items) cards.entry.counts.now (length sheet.now) in
            MatchResult result (λ _. NoneHolds against) (λ e. RefusedBy against (line_number e)) }
    {
        if no_line(self.stages, self.row.len()) {
            return Err(LineFault::Stages);
        }
        if cards.counts.len() != C::COUNTS_PER_STAGE as usize * self.stages as usize {
            return Err(LineFault::Places);
        }
        if !self.control.is_lawful(cards) {
            return Err(LineFault::Unlawful);
        }
        if sheet.len() < (3 * self.stages as usize + 1) * book.parts().len() {
            return Err(LineFault::ShortSheet);
        }
        Ok(())
    }

    // Works out the booked parts with the counts of the board, from fresh stations. The sheet's first numbers become the
    // rows pass, release and completion of each stage and delivery, each in part order. Answers how many parts miss their
    // due minute, and the first of them: two answers, as the rules of a run name them.
    pub fn run(
        &mut self,
        book: &Book,
        board: &Board,
        sheet: &mut [u32],
    ) -> Result<(u32, Option<PartNo>), LineFault>
        ensures ran { Ran (shop_of (C.Control.meaning self.old.control) self.old.stages (R.Row.meanings self.old.row))
            book.now.parts.items board.now.counts.items sheet.old (R.Row.meanings self.old.row) result
            sheet.new (R.Row.meanings self.new.row) }
        ensures same { (self.new.control ≡ self.old.control) × (self.new.stages ≡ self.old.stages) }
        ensures later { MoreCardsNothingLater
            (shop_of (C.Control.meaning self.old.control) self.old.stages (R.Row.meanings self.old.row))
            book.now.parts.items board.now.counts.items result sheet.new }
    {
        let cards = Cards {
            stages: self.stages,
            counts: board.counts(),
        };
        self.admit(book, cards, sheet)?;
        let table = ask(&self.control, cards);
        let plan = Plan::by(&table);
        plan.evaluate(&mut self.row, sheet, book);
        let parts = book.parts().len();
        let start = 3 * self.stages as usize * parts;
        Ok(missed(book, &sheet[start..start + parts]))
    }
}
