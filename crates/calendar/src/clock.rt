ghost use Rattle.std.specs.Prelude.{◌≡◌, ◌+◌};
ghost use Rattle.calendar.specs.Clock.{cut};

// The last minute of the clock.
pub const END: u32 = 1_000_000;

// The time `minutes` after `time`, cut at the end of the clock.
pub fn later_by(time: u32, minutes: u32) -> u32
    ensures { result ≡ cut (time + minutes) }
{
    time.saturating_add(minutes).min(END)
}
