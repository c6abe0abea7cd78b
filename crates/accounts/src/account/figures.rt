//! What an account promises, in figures.
ghost use Rattle.std.specs.Prelude.{◌≡◌, ◌+◌, ◌-◌, ◌*◌};
ghost use Rattle.accounts.specs.Accounts.{opening};
ghost use Rattle.accounts.specs.Credits.{credit, SpentExactly, FrameGiven};
ghost use Rattle.accounts.specs.Laws.{share_of, HoldAtMost, stretch_least, stretch_most, Bring};
ghost use Rattle.accounts.specs.Ledgers.{Sound};

use super::Account;

/// Bounds on a number of flits, from below and from above.
#[derive(Clone, Copy, Debug, PartialEq, Eq)]
pub struct Bounds {
    pub least: u64,
    pub most: u64,
}

impl Account {
    /// The balance with the slots of all frames that the window still opens to the flow. A packet is refused for a
    /// spent window exactly when this is 0 or below.
    pub fn credit(&self) -> i64
        ensures figure { result ≡ credit self.now }
        ensures spent { SpentExactly self.now }
        ensures frame { FrameGiven self.now }
        ensures sound { Sound self.now }
    {
        self.balance + self.slots_in(self.frames_ahead()) as i64
    }

    /// A bound that no `frames` successive frames pass: so many flits of this flow they hold at most, whatever is
    /// offered.
    pub fn share(&self, frames: u32) -> u64
        ensures figure { result ≡ share_of self.now frames }
        ensures holds { HoldAtMost (opening self.now) frames result }
        ensures sound { Sound self.now }
    {
        self.slots_in(frames) + self.slack()
    }

    /// Bounds, from below and from above, on the flits of this flow that come with `shifts` shifts, in a stretch from one refusal for a
    /// spent window to another, with one more between any two neighbouring shifts.
    pub fn stretch(&self, shifts: u32) -> Bounds
        ensures least { result.least ≡ stretch_least self.now shifts }
        ensures most { result.most ≡ stretch_most self.now shifts }
        ensures holds { Bring (opening self.now) shifts result.least result.most }
        ensures sound { Sound self.now }
    {
        let slots = self.slots_in(shifts);
        let slack = self.slack();
        Bounds {
            least: slots.saturating_sub(slack),
            most: slots + slack,
        }
    }

    /// The slots of so many frames.
    fn slots_in(&self, frames: u32) -> u64
        ensures { result ≡ frames * self.now.slots }
    {
        u64::from(frames) * u64::from(self.slots)
    }

    /// How far the flits of some frames may pass their slots: the largest packet but for one flit.
    fn slack(&self) -> u64
        ensures value { result ≡ self.now.largest - 1 }
        ensures sound { Sound self.now }
    {
        u64::from(self.largest) - 1
    }

    /// The frames that the window still opens to the flow.
    fn frames_ahead(&self) -> u32
        ensures { result ≡ self.now.head + self.now.window - 1 - self.now.frame }
    {
        (self.head + u64::from(self.window) - 1 - self.frame) as u32
    }
}
