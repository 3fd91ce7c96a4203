ghost use Rattle.std.specs.Prelude.{◌≡◌, ℕ, ◌+◌, ◌<◌, ◌≤◌, map, length, drop, slice_index_or};
ghost use Rattle.controls.specs.Lists.{latest, somes};
ghost use Rattle.controls.specs.Events.{InLine};
ghost use Rattle.controls.specs.Times.{wait_end, Times};
ghost use Rattle.controls.specs.declared.events.Event.TheVariants.{Release, Delivery};
ghost use Rattle.lines.specs.Missed.{calls};
ghost use Rattle.lines.specs.Parts.{bookings};
ghost use Rattle.lines.specs.Running.{told_end, placed, plan_waits, Advances};
ghost use Rattle.lines.specs.Sheet.{rows, room};
ghost use Rattle.lines.specs.Stations.{fresh_rules, RowLoadedWith};

use crate::parts::Part;
use crate::plans::Plan;
use crate::sheets::Stages;
use controls::events::{Event, Wait};
use ledger::book::Book;
use rows::loading::Row;

impl Stages {
    // The minute at which a wait of the part ends.
    fn wait_end(self, part: &Part<'_>, sheet: &[u32], wait: Option<Wait>) -> u32
        ensures { result ≡ told_end (calls (bookings part.now)) (rows self.count (length (bookings part.now)) sheet.now)
            (part.now.index + 1) wait }
    {
        match wait {
            None => 0,
            Some(Wait::Call) => part.call(),
            Some(Wait::After(source, lag)) => match part.before(lag) {
                None => 0,
                Some(earlier) => earlier.minute(self, sheet, source),
            },
        }
    }

    // The latest minute at which one of the waits of the part ends.
    fn latest_wait(self, part: &Part<'_>, sheet: &[u32], waits: &[Option<Wait>; 3]) -> u32
        ensures { result ≡ latest (map
            (wait_end (calls (bookings part.now)) (rows self.count (length (bookings part.now)) sheet.now) (part.now.index + 1))
            (somes waits.now)) }
    {
        let mut latest: u32 = 0;
        for wait in waits {
            latest = latest.max(self.wait_end(part, sheet, *wait));
        }
        latest
    }
}

// Two `&mut` and a width: a struct of row and sheet would say in each contract that it holds the same ones still.
impl Plan<'_> {
    // Works out an event of the plan for the part.
    fn place_event<R: Row>(&self, row: &mut R, sheet: &mut [u32], part: &Part<'_>, event: Event)
        requires in_line { InLine self.now.table.now.stages.count event }
        requires wide { room self.now.table.now.stages.count (length (bookings part.now)) ≤ length sheet.old }
        ensures { (k : ℕ) → k < length self.now.events.items → slice_index_or self.now.events.items k Delivery ≡ event
            → Advances self.now (bookings part.now) part.now.index (placed self.now k) sheet.old (R.meanings row.old)
            part.now.index (placed self.now (k + 1)) sheet.new (R.meanings row.new) }
    {
        let table = self.table;
        let stages = table.stages;
        let at = stages.row_of(event);
        let place = part.in_row(at);
        match event {
            Event::Completion(stage) => {
                let released = part.place(stages, Event::Release(stage));
                // The station grants the load: the releases of a stage never fall.
                if let Ok(departure) = row.load(stage, sheet[released]) {
                    sheet[place] = departure;
                }
            }
            _ => {
                let waits = &table.told[at];
                sheet[place] = stages.latest_wait(part, sheet, waits);
            }
        }
    }

    // Works out the part.
    fn run_part<R: Row>(&self, row: &mut R, sheet: &mut [u32], part: &Part<'_>)
        requires { room self.now.table.now.stages.count (length (bookings part.now)) ≤ length sheet.old }
        ensures { Advances self.now (bookings part.now) part.now.index (placed self.now 0) sheet.old (R.meanings row.old)
            (part.now.index + 1) (placed self.now 0) sheet.new (R.meanings row.new) }
    {
        for event in self.events.as_slice() {
            self.place_event(row, sheet, part, *event);
        }
    }

    // Works out all booked parts, from fresh stations.
    pub(crate) fn evaluate<R: Row>(&self, row: &mut R, sheet: &mut [u32], book: &Book)
        requires wide { room self.now.table.now.stages.count (length book.now.parts.items) ≤ length sheet.old }
        requires stages_in_bounds { self.now.table.now.stages.count ≤ length (R.meanings row.old) }
        ensures times { Times self.now.table.now.stages.count (plan_waits self.now) (fresh_rules (R.meanings row.old))
            (calls book.now.parts.items) (rows self.now.table.now.stages.count (length book.now.parts.items) sheet.new) }
        ensures others { drop (room self.now.table.now.stages.count (length book.now.parts.items)) sheet.new
            ≡ drop (room self.now.table.now.stages.count (length book.now.parts.items)) sheet.old }
        ensures row { RowLoadedWith self.now.table.now.stages.count
            (λ i. rows self.now.table.now.stages.count (length book.now.parts.items) sheet.new (Release i))
            (R.meanings row.old) (R.meanings row.new) }
    {
        row.fresh();
        // The index is the part's place in every row of the sheet, and not only in the book.
        for index in 0..book.parts().len() {
            self.run_part(row, sheet, &Part { book, index });
        }
    }
}
