// The minutes of the week from `begin` to before `end`.
#[derive(Clone, Copy, PartialEq, Eq, Debug)]
pub struct Shift {
    pub begin: u32,
    pub end: u32,
}
