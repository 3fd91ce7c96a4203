ghost use Rattle.std.specs.Prelude.{◌≡◌, [], true, slice_index_or};
ghost use Rattle.std.specs.List.{list_all};
ghost use Rattle.lines.specs.Order.{source_placed, Ready, Next, InOrder};
ghost use Rattle.lines.specs.Sheet.{row_of};
ghost use Rattle.lines.specs.Tables.{table_waits, stands};

use crate::asking::WaitTable;
use crate::sheets::MOST_ROWS;
use arrayvec::ArrayVec;
use controls::events::{Event, Wait};

// An order of a part's events under way: which are placed, by the rows of the sheet, and how they follow so far.
// The flags lie beside the waits and not with them: they are of one search, the waits of the whole plan.
#[derive(Drop)]
pub(crate) struct Placing<'t> {
    table: &'t WaitTable,
    placed: [bool; MOST_ROWS],
    events: ArrayVec<Event, MOST_ROWS>,
}

impl WaitTable {
    // The waits of an event.
    pub(crate) fn waits_of(&self, event: Event) -> &[Option<Wait>]
        ensures { result.now ≡ slice_index_or self.now.told (row_of self.now.stages.count event) [] }
    {
        self.told
            .get(self.stages.row_of(event))
            .map_or(&[], |waits| waits.as_slice())
    }

    // The events of a part, each once and after those of its own part that it needs.
    pub(crate) fn in_order(&self) -> ArrayVec<Event, MOST_ROWS>
        ensures { InOrder self.now.stages.count (table_waits self.now) result.items }
    {
        let mut placing = Placing {
            table: self,
            placed: [false; MOST_ROWS],
            events: ArrayVec::new(),
        };
        while let Some(event) = placing.next() {
            placing.placed[self.stages.row_of(event)] = true;
            placing.events.push(event);
        }
        placing.events
    }
}

impl Placing<'_> {
    // Whether an event is placed.
    fn has(&self, event: Event) -> bool
        ensures { result ≡ stands self.now event }
    {
        let row = self.table.stages.row_of(event);
        self.placed.get(row).copied().unwrap_or(false)
    }

    // Whether a wait of lag 0 is on an event that is placed.
    fn is_over(&self, wait: Option<Wait>) -> bool
        ensures { result ≡ source_placed (stands self.now) wait }
    {
        match wait {
            Some(Wait::After(source, 0)) => self.has(source),
            _ => true,
        }
    }

    // Whether all waits of lag 0 are on events that are placed.
    fn are_over(&self, waits: &[Option<Wait>]) -> bool
        ensures { result ≡ list_all (source_placed (stands self.now)) waits.now }
    {
        waits.iter().all(|wait| self.is_over(*wait))
    }

    // Whether all that an event needs of its own part is placed.
    fn is_ready(&self, event: Event) -> bool
        ensures ready { result ≡ true → Ready (table_waits self.now.table.now) (stands self.now) event }
        ensures unready { Ready (table_waits self.now.table.now) (stands self.now) event → result ≡ true }
    {
        match event {
            Event::Completion(stage) => self.has(Event::Release(stage)),
            _ => self.are_over(self.table.waits_of(event)),
        }
    }

    // An event that is not placed and is ready, if there is one.
    fn next(&self) -> Option<Event>
        ensures { Next self.now.table.now.stages.count (table_waits self.now.table.now) (stands self.now) result }
    {
        // A chain of `map` and `find` over the rows was tried, and its proof did not close.
        for row in 0..self.table.stages.rows() {
            let event = self.table.stages.event_at(row);
            if !self.placed[row] && self.is_ready(event) {
                return Some(event);
            }
        }
        None
    }
}
