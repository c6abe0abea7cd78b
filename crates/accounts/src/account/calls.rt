//! Opening an account, offering packets to it and shifting its window.
ghost use Rattle.std.specs.Prelude.{◌≡◌, ◌+◌, ◌-◌, ◌≤◌, pos, ◌≤ℤ◌, IfOk};
ghost use Rattle.accounts.specs.Accounts.{fresh, outside, opened};
ghost use Rattle.accounts.specs.Credits.{SpentExactly, FrameGiven};
ghost use Rattle.accounts.specs.Examples.{TwoFramesFilled, OverdraftPaidBack, NothingCarriedOver};
ghost use Rattle.accounts.specs.Laws.{ForEver, Shares, Stretches};
ghost use Rattle.accounts.specs.Ledgers.{Limits, Sound};
ghost use Rattle.accounts.specs.Offers.{ready, offer_answer, offer_leaves};
ghost use Rattle.accounts.specs.Shifts.{capped, shift_answer, shift_leaves};

use super::Account;
use crate::refusal::AccountRefusal;

/// The shifts of one run.
pub const RUN_SHIFTS: u64 = 16_777_216;

/// Whether a term is out of its range.
// A function of its own: with `contains` in `new` itself its three refusals and their order are not found.
fn is_outside(term: u32, least: u32, most: u32) -> bool
    ensures { result ≡ outside least most term }
{
    !(least..=most).contains(&term)
}

impl Account {
    /// Opens the account of a flow: head frame 0, injection frame 1 and the slots of that frame. The window is 2 to 8
    /// frames, the slots are 1 to 4,096 and the largest packet has 1 to 64 flits; the first of the three that is out of
    /// range is refused. The contract tells what the account promises of every list of calls made on it.
    #[tactic(auto, using(crate::proofs::Worked::two_frames_filled, crate::proofs::Worked::overdraft_paid_back, crate::proofs::Worked::nothing_carried_over))]
    pub fn new(slots: u32, largest: u32, window: u32) -> Result<Account, AccountRefusal>
        ensures answer { result ≡ opened slots largest window }
        ensures sound { IfOk result Sound }
        ensures limits { IfOk result (ForEver Limits) }
        ensures spent { IfOk result (ForEver SpentExactly) }
        ensures frames { IfOk result (ForEver FrameGiven) }
        ensures shares { IfOk result Shares }
        ensures stretches { IfOk result Stretches }
        ensures filled { TwoFramesFilled }
        ensures overdraft { OverdraftPaidBack }
        ensures carried { NothingCarriedOver }
    {
        if is_outside(window, 2, 8) {
            return Err(AccountRefusal::WindowRange);
        }
        if is_outside(slots, 1, 4096) {
            return Err(AccountRefusal::SlotsRange);
        }
        if is_outside(largest, 1, 64) {
            return Err(AccountRefusal::LargestRange);
        }
        Ok(Account {
            slots,
            largest,
            window,
            head: 0,
            frame: 1,
            balance: i64::from(slots),
        })
    }

    /// The account of the fewest slots, the smallest packets and the shortest window, just opened.
    pub fn smallest() -> Account
        ensures answer { result ≡ fresh 1 1 2 }
        ensures sound { Sound result }
    {
        Account {
            slots: 1,
            largest: 1,
            window: 2,
            head: 0,
            frame: 1,
            balance: 1,
        }
    }

    /// Offers a packet of `size` flits, and tells the frame that it gets. A size of 0 or above the largest is refused,
    /// and so is a packet for which the window is spent.
    pub fn offer(&mut self, size: u32) -> Result<u64, AccountRefusal>
        ensures answer { result ≡ offer_answer self.old size }
        ensures leaves { self.new ≡ offer_leaves self.old size }
        ensures sound { Sound self.new }
    {
        if !(1..=self.largest).contains(&size) {
            return Err(AccountRefusal::SizeRange);
        }
        let (frame, balance) = self.place();
        if balance <= 0 {
            return Err(AccountRefusal::WindowSpent);
        }
        self.frame = frame;
        self.balance = balance - i64::from(size);
        Ok(frame)
    }

    /// Shifts the window: the next frame becomes the head frame. An account that stands in that frame goes on to the
    /// one after it, with at most one frame's slots. A shift past the last of the run is refused.
    pub fn shift(&mut self) -> Result<(), AccountRefusal>
        ensures answer { result ≡ shift_answer self.old }
        ensures leaves { self.new ≡ shift_leaves self.old }
        ensures sound { Sound self.new }
    {
        if self.head >= RUN_SHIFTS {
            return Err(AccountRefusal::RunOver);
        }
        let balance = self.refilled();
        self.head += 1;
        if self.frame == self.head {
            self.frame += 1;
            self.balance = balance;
        }
        Ok(())
    }

    /// The balance with the slots of one more frame, and with no more than those.
    fn refilled(&self) -> i64
        ensures { result ≡ capped self.now }
    {
        let slots = i64::from(self.slots);
        slots.min(self.balance + slots)
    }

    /// The frame of the next packet, and the balance that it finds there: on from frame to frame while the balance is
    /// 0 or below, at most to the last open frame. It works on copies, since a refused offer leaves all as it was.
    fn place(&self) -> (u64, i64)
        ensures frame { result.0 ≡ (ready self.now).frame }
        ensures balance { result.1 ≡ (ready self.now).balance }
        ensures after { self.now.head + 1 ≤ result.0 }
        ensures within { result.0 ≤ self.now.head + self.now.window - 1 }
        ensures high { result.1 ≤ℤ pos self.now.slots }
    {
        let slots = i64::from(self.slots);
        let head = self.head;
        let window = u64::from(self.window);
        let mut frame = self.frame;
        let mut balance = self.balance;
        while balance <= 0 && frame < head + window - 1 {
            balance += slots;
            frame += 1;
        }
        (frame, balance)
    }
}
