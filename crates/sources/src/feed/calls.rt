ghost use Rattle.std.specs.Prelude.{◌≡◌, [], ◌∷◌, sum, IfOk, position, nat_lt};
ghost use Rattle.accounts.specs.Accounts.{fresh, opened};
ghost use Rattle.routes.specs.Crossings.{crossing};
ghost use Rattle.sources.specs.Lines.{fresh_line, opened_line, offer_answer, offered, first_place, first_frame, leave_answer, left_by, delivered_before, delivering, shift_answer, shifted_line, Waits};
ghost use Rattle.sources.specs.Sources.{SoundLine};

use super::{PLACES, Source};
use crate::refusal::{OfferRefusal, ShiftRefusal};
use accounts::{Account, AccountRefusal};
use routes::{Crossing, Route};

/// The first place with a flit.
fn first_filled(flits: &[u64]) -> Option<usize>
    ensures { result ≡ position (λ n. nat_lt 0 n) flits.now }
{
    flits.iter().position(|count| *count > 0)
}

impl Default for Source {
    ghost is_default = { λ s. s ≡ fresh_line (fresh 1 1 2) (0 ∷ []) };

    fn default() -> Source {
        Source::vacant()
    }
}

impl Source {
    /// The source of a new flow with its slots, its largest packet and its route, in a window of frames.
    pub fn new(
        slots: u32,
        largest: u32,
        window: u32,
        route: Route,
    ) -> Result<Source, AccountRefusal>
        ensures answer { result ≡ opened_line (opened slots largest window) route }
        ensures sound { IfOk result SoundLine }
    {
        let account = Account::new(slots, largest, window)?;
        // Its channels tell that the route is one, which the source keeps.
        let _ = route.channels();
        Ok(Source::untouched(account, route))
    }

    /// A source for a place where there is no flow.
    pub fn vacant() -> Source
        ensures answer { result ≡ fresh_line (fresh 1 1 2) (0 ∷ []) }
        ensures sound { SoundLine result }
    {
        let account = Account::smallest();
        Source::untouched(account, Route::shortest())
    }

    /// A source at which nothing waits and nothing is counted.
    fn untouched(account: Account, route: Route) -> Source
        requires { SoundLine (fresh_line account route) }
        ensures { result ≡ fresh_line account route }
    {
        Source {
            account,
            route,
            waiting: [0; PLACES],
            sent: 0,
            accepted: 0,
            delivered: 0,
            refused: 0,
        }
    }

    /// How the flow crosses the channel, if it does.
    pub fn crossing(&self, channel: u32) -> Option<Crossing>
        ensures answer { result ≡ crossing self.now.route channel }
        ensures sound { SoundLine self.now }
    {
        self.route.crossing(channel)
    }

    /// Offers a packet of `size` flits, which then wait for the frame that is answered.
    pub fn offer(&mut self, size: u32) -> Result<u64, OfferRefusal>
        ensures answer { result ≡ offer_answer self.old size }
        ensures state { self.new ≡ offered self.old size }
        ensures sound { SoundLine self.new }
    {
        match self.account.offer(size) {
            Ok(frame) => {
                let ahead = (frame - self.account.head()) as usize;
                self.waiting[ahead] += u64::from(size);
                self.accepted += u64::from(size);
                Ok(frame)
            }
            Err(AccountRefusal::WindowSpent) => {
                self.refused = self.refused.saturating_add(1);
                Err(OfferRefusal::WindowSpent)
            }
            Err(_) => Err(OfferRefusal::PacketSize),
        }
    }

    /// How many flits wait.
    pub fn waiting(&self) -> u64
        ensures value { result ≡ sum self.now.waiting }
        ensures sound { SoundLine self.now }
    {
        self.accepted - self.sent
    }

    /// The place of the earliest flit that waits, counted from the head frame.
    pub fn first_place(&self) -> Option<usize>
        ensures answer { result ≡ first_place self.now }
        ensures waits { Waits self.now.waiting result }
        ensures sound { SoundLine self.now }
    {
        first_filled(&self.waiting)
    }

    /// The frame of the earliest flit that waits.
    pub fn first_frame(&self) -> Option<u64>
        ensures answer { result ≡ first_frame self.now }
        ensures sound { SoundLine self.now }
    {
        self.first_place()
            .map(|place| self.account.head() + place as u64)
    }

    /// Lets the earliest flit that waits leave, and tells its number.
    pub fn leave(&mut self) -> Option<u64>
        ensures answer { result ≡ leave_answer self.old }
        ensures state { self.new ≡ left_by self.old }
        ensures sound { SoundLine self.new }
    {
        let place = self.first_place()?;
        let number = self.sent;
        self.waiting[place] -= 1;
        self.sent += 1;
        Some(number)
    }

    /// Counts a flit that left as delivered, and tells how many were delivered before; none where all that left have arrived.
    pub fn deliver(&mut self) -> Option<u64>
        ensures answer { result ≡ delivered_before self.old }
        ensures state { self.new ≡ delivering self.old }
        ensures sound { SoundLine self.new }
    {
        if self.delivered >= self.sent {
            return None;
        }
        let before = self.delivered;
        self.delivered += 1;
        Some(before)
    }

    /// Shifts the window; a refusal changes nothing.
    pub fn shift(&mut self) -> Result<(), ShiftRefusal>
        ensures answer { result ≡ shift_answer self.old }
        ensures state { self.new ≡ shifted_line self.old }
        ensures sound { SoundLine self.new }
    {
        if self.waiting[0] > 0 {
            return Err(ShiftRefusal::HeadFrameWaits);
        }
        self.account.shift().map_err(|_| ShiftRefusal::RunOver)?;
        self.waiting.rotate_left(1);
        Ok(())
    }
}
