ghost use Rattle.std.specs.Prelude.{◌<◌, ◌≤◌, vec_len, vec_capacity};
ghost use Rattle.std.specs.List.{All, AllAdjacentBelow};
ghost use Rattle.calendar.specs.Clock.{E};

use crate::bookings::Booking;

pub mod calls;

// The booked parts in the order of their numbers, at most 128, with room for all of them from the start. In every book
// that exists calls never fall, and each part is called at or before its due minute, which is before the end of the
// clock.
#[derive(Drop)]
pub struct Book {
    parts: Vec<Booking>,
    ghost room: { (vec_len parts ≤ 128) × (128 ≤ vec_capacity parts) },
    ghost dues: { All (λ b. (b.call ≤ b.due) × (b.due < E)) parts.items },
    ghost order: { AllAdjacentBelow (λ a b. a.call ≤ b.call) parts.items (vec_len parts) },
}
