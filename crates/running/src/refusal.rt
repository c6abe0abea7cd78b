ghost use Rattle.std.specs.Prelude.{◌≡◌, Some};
ghost use Rattle.running.specs.Refusals.{run_refusal_number, run_refusal_text, as_run};

use sources::OfferRefusal;
use std::error::Error;
use std::fmt;

/// Why a running network refused a call.
#[derive(Clone, Copy, Debug, PartialEq, Eq)]
pub enum RunRefusal {
    /// No flow has that number.
    NoSuchFlow = 9,
    /// A packet of no flits, or of more than the flow's largest.
    PacketSize = 10,
    /// The flow's slots in all open frames are spent.
    WindowSpent = 11,
    /// All 16,777,216 cycles are made.
    RunOver = 12,
}

impl RunRefusal {
    /// The number under which callers know the refusal.
    pub fn number(self) -> u32
        ensures { result ≡ run_refusal_number self }
    {
        self as u32
    }
}

impl fmt::Display for RunRefusal {
    ghost output = { λ r. Some (run_refusal_text r) };

    fn fmt<W: fmt::Write>(&self, f: &mut fmt::Formatter<W>) -> fmt::Result {
        match self {
            RunRefusal::NoSuchFlow => f.write_str("no such flow"),
            RunRefusal::PacketSize => f.write_str("packet empty or too large"),
            RunRefusal::WindowSpent => f.write_str("window spent"),
            RunRefusal::RunOver => f.write_str("run over"),
        }
    }
}

impl Error for RunRefusal {}

impl From<OfferRefusal> for RunRefusal {
    ghost from_gives = { λ x y. y ≡ as_run x };

    fn from(refusal: OfferRefusal) -> Self {
        match refusal {
            OfferRefusal::PacketSize => RunRefusal::PacketSize,
            OfferRefusal::WindowSpent => RunRefusal::WindowSpent,
        }
    }
}
