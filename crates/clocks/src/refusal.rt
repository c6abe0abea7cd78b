ghost use Rattle.std.specs.Prelude.{◌≡◌, Some};
ghost use Rattle.clocks.specs.Refusals.{refusal_number, refusal_text};

use std::error::Error;
use std::fmt;

/// Why a clock was not made.
#[derive(Clone, Copy, Debug, PartialEq, Eq)]
pub enum ClockRefusal {
    /// The latency or period is out of its range.
    OutOfRange = 13,
    /// The lag would be above 4,194,304.
    LagTooLong = 14,
}

impl ClockRefusal {
    /// The number by which a report names the refusal.
    pub fn number(self) -> u32
        ensures { result ≡ refusal_number self }
    {
        self as u32
    }
}

impl fmt::Display for ClockRefusal {
    ghost output = { λ r. Some (refusal_text r) };

    fn fmt<W: fmt::Write>(&self, f: &mut fmt::Formatter<W>) -> fmt::Result {
        match self {
            ClockRefusal::OutOfRange => f.write_str("latency or period out of range"),
            ClockRefusal::LagTooLong => f.write_str("lag above 4194304"),
        }
    }
}

impl Error for ClockRefusal {}
