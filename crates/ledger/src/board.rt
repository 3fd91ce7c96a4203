ghost use Rattle.std.specs.Prelude.{◌≡◌, ℕ, ◌<◌, ◌≤◌, vec_len, slice_index};
ghost use Rattle.std.specs.List.{All};

pub mod calls;

// The number of a place on the board, counted from 1.
#[derive(Clone, Copy, PartialEq, Eq, Debug)]
pub struct PlaceNo(pub u32);

// The counts of cards at 1 to 16 places, each with a maximum of at most 64 that never changes. Every board that exists
// has each count at or below its maximum.
#[derive(Drop)]
pub struct Board {
    // Two lists, and not one of pairs: a control is asked with the counts as a slice.
    counts: Vec<u32>,
    maxima: Vec<u32>,
    ghost same: { vec_len counts ≡ vec_len maxima },
    ghost places: { (1 ≤ vec_len maxima) × (vec_len maxima ≤ 16) },
    ghost within: { (k : ℕ) → k < vec_len maxima → slice_index counts.items k ≤ slice_index maxima.items k },
    ghost ranges: { All (λ maximum. maximum ≤ 64) maxima.items },
}
