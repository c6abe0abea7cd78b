//! Why an account refuses a call.
ghost use Rattle.std.specs.Prelude.{◌≡◌, Some};
ghost use Rattle.accounts.specs.Refusals.{number_of, text_of};

use std::error::Error;
use std::fmt;

/// Why an account refused a call. A refused call changes nothing.
#[derive(Clone, Copy, Debug, PartialEq, Eq)]
pub enum AccountRefusal {
    /// The window is not 2 to 8 frames.
    WindowRange = 1,
    /// The slots of a frame are not 1 to 4,096.
    SlotsRange = 3,
    /// The largest packet is not 1 to 64 flits.
    LargestRange = 4,
    /// The packet has no flit, or more than the largest has.
    SizeRange = 10,
    /// The slots of all open frames are spent.
    WindowSpent = 11,
    /// The run has made its last shift.
    RunOver = 12,
}

impl AccountRefusal {
    /// The number by which a caller knows this refusal.
    pub fn number(self) -> u32
        ensures { result ≡ number_of self }
    {
        self as u32
    }

    /// What a reader sees of it.
    fn text(self) -> &'static str
        ensures { result.now ≡ text_of self }
    {
        match self {
            AccountRefusal::WindowRange => "window not 2 to 8 frames",
            AccountRefusal::SlotsRange => "slots not 1 to 4096",
            AccountRefusal::LargestRange => "largest packet not 1 to 64 flits",
            AccountRefusal::SizeRange => "packet empty or too large",
            AccountRefusal::WindowSpent => "window spent",
            AccountRefusal::RunOver => "run over",
        }
    }
}

impl fmt::Display for AccountRefusal {
    ghost output = { λ e. Some (text_of e) };

    fn fmt<W: fmt::Write>(&self, f: &mut fmt::Formatter<W>) -> fmt::Result {
        f.write_str(self.text())
    }
}

impl Error for AccountRefusal {}
