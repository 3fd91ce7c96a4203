ghost use Rattle.std.specs.Prelude.{◌≤◌};

pub mod slices;

// The counts in the order of their places: the first `count` of `values`. No `ArrayVec`, since that is not `Copy`.
#[derive(Clone, Copy)]
pub struct Counts {
    pub values: [u32; 16],
    pub count: usize,
    ghost few: { count ≤ 16 },
}
