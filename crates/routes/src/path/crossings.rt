ghost use Rattle.std.specs.Prelude.{◌≡◌, true, length, nat_le, position};
ghost use Rattle.routes.specs.Channels.{well_formed};
ghost use Rattle.routes.specs.Crossings.{hop, crossing, Below};

use super::Route;
use crate::crossing::Crossing;

/// The place of the first channel in the list that is not below the one asked for, counted from 0.
fn not_below(channels: &[u32], channel: u32) -> Option<usize>
    ensures answer { result ≡ position (λ hop. nat_le channel hop) channels.now }
    ensures below { Below (length channels.now) result }
{
    channels.iter().position(|hop| *hop >= channel)
}

impl Route {
    /// The hop at which the route crosses the channel, counted from 0.
    // The numbers of a route rise: the search ends at the first that is not below the channel.
    fn hop_of(&self, channel: u32) -> Option<usize>
        ensures answer { result ≡ hop self.now channel }
        ensures below { Below (length self.now) result }
    {
        let channels = self.channels();
        let hop = not_below(channels, channel)?;
        (channels[hop] == channel).then_some(hop)
    }

    /// How the route crosses the channel, if it does.
    pub fn crossing(&self, channel: u32) -> Option<Crossing>
        ensures answer { result ≡ crossing self.now channel }
        ensures sound { well_formed self.now ≡ true }
    {
        let channels = self.channels();
        let hop = self.hop_of(channel)?;
        Some(Crossing {
            before: channels[..hop].last().copied(),
            last: hop + 1 == channels.len(),
        })
    }
}
