use stations::loading::LoadFault;

// What an entry of an arrival list comes to.
// `Leaves` and `Refused` are two cases, and no `Result` in one: each case is a line that is told.
#[derive(Clone, Copy)]
pub enum Answer {
    // The part leaves at `departure`.
    Leaves { arrival: u32, departure: u32 },
    // The part is not taken.
    Refused { arrival: u32, fault: LoadFault },
    // The station was made fresh.
    Freshened,
}
