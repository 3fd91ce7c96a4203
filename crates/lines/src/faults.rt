ghost use Rattle.std.specs.Prelude.{◌≡◌};
ghost use Rattle.lines.specs.Faults.{line_number};

// Why a line is not made, or a call on a line is refused.
#[derive(Clone, Copy, PartialEq, Eq, Debug)]
pub enum LineFault {
    // The stages are not 1 to 8, or more than the row has stations.
    Stages,
    // The board has not as many places as the control.
    Places,
    // The line cannot work with the counts.
    Unlawful,
    // The sheet is too short for the times of the booked parts.
    ShortSheet,
}

impl LineFault {
    // The number of the refusal.
    pub fn number(&self) -> u32
        ensures { result ≡ line_number self.now }
    {
        match self {
            LineFault::Stages => 5,
            LineFault::Places => 11,
            LineFault::Unlawful => 12,
            LineFault::ShortSheet => 13,
        }
    }
}
