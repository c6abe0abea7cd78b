ghost use Rattle.std.specs.Prelude.{◌≡◌, ◌≤◌, true, [], ◌∷◌, length, Some, IfOk};
ghost use Rattle.routes.specs.Channels.{known, rises, well_formed, crosses};
ghost use Rattle.routes.specs.Routes.{route_checked, route_answer, route_refusal_number, route_refusal_text};

use super::Route;
use lists::FixedList;
use std::error::Error;
use std::fmt;

/// How many channels a route may have.
pub const MOST_HOPS: usize = 16;

/// How many channels there are.
pub const CHANNELS: u32 = 320;

/// Why a list of channels is no route.
#[derive(Clone, Copy, Debug, PartialEq, Eq)]
pub enum RouteRefusal {
    /// No channel at all, or more than 16.
    Length = 5,
    /// A channel above 319.
    UnknownChannel = 6,
    /// A channel whose number is not above the one before it.
    NotRising = 7,
}

impl RouteRefusal {
    /// The number under which callers know the refusal.
    pub fn number(self) -> u32
        ensures { result ≡ route_refusal_number self }
    {
        self as u32
    }
}

impl fmt::Display for RouteRefusal {
    ghost output = { λ r. Some (route_refusal_text r) };

    fn fmt<W: fmt::Write>(&self, f: &mut fmt::Formatter<W>) -> fmt::Result {
        match self {
            RouteRefusal::Length => f.write_str("a route has 1 to 16 channels"),
            RouteRefusal::UnknownChannel => f.write_str("channels go from 0 to 319"),
            RouteRefusal::NotRising => f.write_str("the numbers of a route rise"),
        }
    }
}

impl Error for RouteRefusal {}

/// Whether every channel is below 320.
fn all_known(channels: &[u32]) -> bool
    ensures { result ≡ known channels.now }
{
    channels.iter().all(|channel| *channel < CHANNELS)
}

/// Whether each channel's number is above the one before it.
fn all_rising(channels: &[u32]) -> bool
    ensures { result ≡ rises channels.now }
{
    channels.is_sorted_by(|before, after| before < after)
}

/// The checks of a list of channels, in their order.
fn checked(channels: &[u32]) -> Result<(), RouteRefusal>
    ensures { result ≡ route_checked channels.now }
{
    if !(1..=MOST_HOPS).contains(&channels.len()) {
        return Err(RouteRefusal::Length);
    }
    if !all_known(channels) {
        return Err(RouteRefusal::UnknownChannel);
    }
    if !all_rising(channels) {
        return Err(RouteRefusal::NotRising);
    }
    Ok(())
}

impl Route {
    /// The route over the channels, in the order of crossing.
    pub fn new(channels: &[u32]) -> Result<Route, RouteRefusal>
        ensures answer { result ≡ route_answer channels.now }
        ensures sound { IfOk result (λ cs. well_formed cs ≡ true) }
    {
        checked(channels)?;
        let channels = FixedList::from_slice(channels).ok_or(RouteRefusal::Length)?;
        Ok(Route { channels })
    }

    /// The route over channel 0 alone.
    pub fn shortest() -> Route
        ensures value { result ≡ 0 ∷ [] }
        ensures sound { well_formed result ≡ true }
    {
        let mut channels = FixedList::new();
        // A new list has places.
        let _ = channels.push(0);
        Route { channels }
    }

    /// The channels in the order of crossing.
    pub fn channels(&self) -> &[u32]
        ensures value { result.now ≡ self.now }
        ensures sound { well_formed self.now ≡ true }
    {
        self.channels.as_slice()
    }

    /// How many channels the route crosses.
    pub fn hops(&self) -> u32
        ensures value { result ≡ length self.now }
        ensures few { result ≤ 16 }
        ensures sound { well_formed self.now ≡ true }
    {
        self.channels.len() as u32
    }

    /// Whether the route crosses the channel.
    pub fn crosses(&self, channel: u32) -> bool
        ensures answer { result ≡ crosses self.now channel }
        ensures sound { well_formed self.now ≡ true }
    {
        self.channels().contains(&channel)
    }
}
