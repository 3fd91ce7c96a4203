ghost use Rattle.std.specs.Prelude.{◌≡◌, ◌≤◌, true, take};
ghost use Rattle.calendar.specs.Week.{ordered, total};

use crate::shifts::Shift;

pub mod calls;

// Shifts that repeat every 10,080 minutes: the first `count` of `table`, and how many minutes they are open.
// Every week that exists has them in rising order, none empty, none touching the next, all inside the week.
#[derive(Clone, Copy)]
pub struct Week {
    // An array with a length beside it: a week is `Copy`, which an `ArrayVec` is not.
    table: [Shift; 16],
    count: usize,
    minutes: u32,
    ghost fit: { count ≤ 16 },
    ghost rising: { ordered 0 (take count table) ≡ true },
    ghost sum: { minutes ≡ total (take count table) },
    ghost opens: { 1 ≤ minutes },
}
