ghost use Rattle.std.specs.Prelude.{◌≡◌, ◌+◌, ◌-◌, ◌≤◌, max, ◌∷◌, replicate, slice_index, take};
ghost use Rattle.arrayvec.specs.ArrayVec.{array_vec_len};
ghost use Rattle.calendar.specs.Clock.{cut};

use arrayvec::ArrayVec;
use calendar::clock::later_by;

// The places of a station: for each, when it is free again, the one taken last first.
#[derive(Drop)]
pub struct Places {
    pub free: ArrayVec<u32, 16>,
    ghost some: { 1 ≤ array_vec_len free },
    ghost fit: { array_vec_len free ≤ 16 },
}

impl Places {
    // So many places, all free.
    pub fn new(count: usize) -> Places
        requires { (1 ≤ count) × (count ≤ 16) }
        ensures { result.free.items ≡ replicate count 0 }
    {
        let mut free = ArrayVec::from([0; 16]);
        free.truncate(count);
        Places { free }
    }

    // Takes the place that was taken as many parts ago as there are places, from `earliest` on, for `turn` minutes, and
    // answers the start.
    pub fn take(&mut self, earliest: u32, turn: u32) -> u32
        ensures start { result ≡ max earliest (slice_index self.old.free.items (array_vec_len self.old.free - 1)) }
        ensures taken { self.new.free.items
            ≡ cut (result + turn) ∷ take (array_vec_len self.old.free - 1) self.old.free.items }
    {
        let times = self.free.as_mut_slice();
        // The last time comes to the front, where the new one takes its place.
        times.rotate_right(1);
        let start = earliest.max(times[0]);
        times[0] = later_by(start, turn);
        start
    }

    // Makes every place free.
    pub fn clear(&mut self)
        ensures { self.new.free.items ≡ replicate (array_vec_len self.old.free) 0 }
    {
        for time in self.free.as_mut_slice() {
            *time = 0;
        }
    }
}
