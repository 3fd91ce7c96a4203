// One part: the minute at which it is asked for, and the minute by which it is due.
#[derive(Clone, Copy, PartialEq, Eq, Debug)]
pub struct Booking {
    pub call: u32,
    pub due: u32,
}
