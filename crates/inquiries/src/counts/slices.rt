ghost use Rattle.std.specs.Prelude.{◌≡◌};
ghost use Rattle.inquiries.specs.Inquiry.{counts_of};

use crate::counts::Counts;

impl Counts {
    // The counts themselves.
    pub fn as_slice(&self) -> &[u32]
        ensures { result.now ≡ counts_of self.now }
    {
        &self.values[..self.count]
    }
}
