pub mod calls;

// A row of stations under a control, of whose stations the first so many are the stages.
#[derive(Drop)]
pub struct Line<R, C> {
    row: R,
    control: C,
    stages: u32,
}
