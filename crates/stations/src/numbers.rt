// The number of a stage, and of its station in the row, counted from 1.
#[derive(Clone, Copy, PartialEq, Eq, Debug)]
pub struct StageNo(pub u32);

// The number of a part, in the order of the bookings, counted from 1.
#[derive(Clone, Copy, PartialEq, Eq, Debug)]
pub struct PartNo(pub u32);
