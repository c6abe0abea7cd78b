ghost use Rattle.std.specs.Prelude.{◌≡◌, Some};
ghost use Rattle.sources.specs.Refusals.{offer_refusal_number, offer_refusal_text};

use std::error::Error;
use std::fmt;

/// Why a source refused a packet.
#[derive(Clone, Copy, Debug, PartialEq, Eq)]
pub enum OfferRefusal {
    /// A packet of no flits, or of more than the flow's largest.
    PacketSize = 10,
    /// The flow's slots in all open frames are spent.
    WindowSpent = 11,
}

/// Why the window of a source did not shift.
#[derive(Clone, Copy, Debug, PartialEq, Eq)]
pub enum ShiftRefusal {
    /// A flit waits for the head frame.
    HeadFrameWaits,
    /// The run has made its last shift.
    RunOver,
}

impl OfferRefusal {
    /// The number under which callers know the refusal.
    pub fn number(self) -> u32
        ensures { result ≡ offer_refusal_number self }
    {
        self as u32
    }
}

impl fmt::Display for OfferRefusal {
    ghost output = { λ r. Some (offer_refusal_text r) };

    fn fmt<W: fmt::Write>(&self, f: &mut fmt::Formatter<W>) -> fmt::Result {
        match self {
            OfferRefusal::PacketSize => f.write_str("packet empty or too large"),
            OfferRefusal::WindowSpent => f.write_str("window spent"),
        }
    }
}

impl Error for OfferRefusal {}
