//! What an account holds.
ghost use Rattle.std.specs.Prelude.{◌≡◌};
ghost use Rattle.accounts.specs.Ledgers.{Sound};

use super::Account;

impl Account {
    /// The slots of the flow in each frame.
    pub fn slots(&self) -> u32
        ensures value { result ≡ self.now.slots }
        ensures sound { Sound self.now }
    {
        self.slots
    }

    /// The flits of the flow's largest packet.
    pub fn largest(&self) -> u32
        ensures value { result ≡ self.now.largest }
        ensures sound { Sound self.now }
    {
        self.largest
    }

    /// The number of open frames.
    pub fn window(&self) -> u32
        ensures value { result ≡ self.now.window }
        ensures sound { Sound self.now }
    {
        self.window
    }

    /// The head frame, the first of the open ones.
    pub fn head(&self) -> u64
        ensures value { result ≡ self.now.head }
        ensures sound { Sound self.now }
    {
        self.head
    }

    /// The injection frame: at first 1, then that of the packet accepted last, or a later one after a shift.
    pub fn frame(&self) -> u64
        ensures value { result ≡ self.now.frame }
        ensures sound { Sound self.now }
    {
        self.frame
    }

    /// What is left of the slots up to the injection frame; below 0 what is overdrawn.
    pub fn balance(&self) -> i64
        ensures value { result ≡ self.now.balance }
        ensures sound { Sound self.now }
    {
        self.balance
    }
}
