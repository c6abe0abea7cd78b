ghost use Rattle.std.specs.Prelude.{◌≡◌, ◌<◌, false, slice_index_or};
ghost use Rattle.network.specs.Floors.{net_of};
ghost use Rattle.network.specs.Marks.{Marks};
ghost use Rattle.running.specs.Cycles.{head_empty, started};
ghost use Rattle.running.specs.Runs.{nothing_held};
ghost use Rattle.running.specs.Sounds.{held_flits};

use super::Fabric;
use crate::floor::Floor;
use plan::Plan;

/// Marks the channels that some flow of the plan crosses.
fn mark_channels(plan: &Plan) -> [bool; 320]
    ensures { Marks plan.now.flows result }
{
    // Not `array::from_fn`: what it tells of its calls does not say that each one reads this plan.
    let mut used = [false; 320];
    for (channel, used) in used.iter_mut().enumerate() {
        *used = plan.load(channel as u32) > 0;
    }
    used
}

impl Fabric {
    /// The fabric of a network that starts from the plan.
    pub(crate) fn new(plan: &Plan) -> Fabric
        ensures { net_of result.floor ≡ started plan.now }
    {
        Fabric {
            floor: Floor::new(plan),
            held: [0; 8],
            used: mark_channels(plan),
        }
    }

    /// The floor, for reading.
    pub(crate) fn floor(&self) -> &Floor
        ensures { result.now ≡ self.now.floor }
    {
        &self.floor
    }

    /// Whether a flow may cross the channel.
    pub(crate) fn is_used(&self, channel: u32) -> bool
        requires { channel < 320 }
        ensures { result ≡ slice_index_or self.now.used channel false }
    {
        self.used[channel as usize]
    }

    /// How many flits are held, at sources and in buffers.
    pub(crate) fn held(&self) -> u64
        ensures { result ≡ held_flits (net_of self.now.floor) }
    {
        self.held.iter().sum()
    }

    /// Whether no flit is held.
    pub(crate) fn nothing_held(&self) -> bool
        ensures { result ≡ nothing_held (net_of self.now.floor) }
    {
        self.held() == 0
    }

    /// Whether no flit of the head frame is held.
    pub(crate) fn head_empty(&self) -> bool
        ensures { result ≡ head_empty (net_of self.now.floor) }
    {
        self.held[0] == 0
    }
}
