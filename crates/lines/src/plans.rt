ghost use Rattle.std.specs.Prelude.{◌≡◌};
ghost use Rattle.lines.specs.Asked.{asked};
ghost use Rattle.lines.specs.Order.{InOrder};

use crate::asking::WaitTable;
use crate::sheets::MOST_ROWS;
use arrayvec::ArrayVec;
use controls::events::Event;

// How every part of a run is worked out: what each event waits for, and the events in an order in which each comes after
// those of its own part that it needs.
#[derive(Drop)]
pub(crate) struct Plan<'t> {
    pub(crate) table: &'t WaitTable,
    pub(crate) events: ArrayVec<Event, MOST_ROWS>,
    ghost order: { ∥ InOrder table.now.stages.count (asked table.now.stages.count table.now.told) events.items ∥₁ },
}

impl<'t> Plan<'t> {
    // The plan by these waits.
    pub(crate) fn by(table: &'t WaitTable) -> Plan<'t>
        ensures { result.table.now ≡ table.now }
    {
        Plan {
            table,
            events: table.in_order(),
        }
    }
}
