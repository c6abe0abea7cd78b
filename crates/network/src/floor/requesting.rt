ghost use Rattle.std.specs.Prelude.{◌≡◌};
ghost use Rattle.network.specs.Floors.{net_of};
ghost use Rattle.running.specs.Requests.{stands, has_space, requests, served, requesters};

use super::Floor;
use arbiters::FlowSet;

impl Floor {
    /// Whether a flit of the flow stands ready in the open frame: at its source, or behind the channel before.
    fn stands(&self, ahead: usize, flow: u32, before: Option<u32>) -> bool
        ensures { result ≡ stands (net_of self.now) ahead flow before }
    {
        match before {
            None => self.earliest(flow) == Some(ahead),
            Some(channel) => self
                .buffers
                .front(channel, ahead)
                .is_some_and(|flit| flit.flow == flow),
        }
    }

    /// Whether the channel has space for a flit of the open frame; a flow's last channel always has.
    fn has_space(&self, channel: u32, ahead: usize, last: bool) -> bool
        ensures { result ≡ has_space (net_of self.now) channel ahead last }
    {
        last || self.buffers.len(channel, ahead) < self.depth
    }

    /// Whether the flow requests the channel in the open frame.
    fn requests(&self, channel: u32, ahead: usize, flow: u32) -> bool
        ensures { result ≡ requests (net_of self.now) channel ahead flow }
    {
        self.crossing(flow, channel).is_some_and(|crossing| {
            self.stands(ahead, flow, crossing.before)
                && self.has_space(channel, ahead, crossing.last)
        })
    }

    /// The first open frame, counting from the head, in which a flow requests the channel.
    pub(crate) fn served(&self, channel: u32) -> Option<usize>
        ensures { result ≡ served (net_of self.now) channel }
    {
        let mut found = None;
        'search: for ahead in 0..self.window {
            for flow in 0..self.flow_count() {
                if self.requests(channel, ahead, flow) {
                    found = Some(ahead);
                    break 'search;
                }
            }
        }
        found
    }

    /// All flows that request the channel in the open frame.
    pub(crate) fn requesters(&self, channel: u32, ahead: usize) -> FlowSet
        ensures { result ≡ requesters (net_of self.now) channel ahead }
    {
        let mut flows = FlowSet::new();
        for flow in 0..self.flow_count() {
            if self.requests(channel, ahead, flow) {
                flows.insert(flow);
            }
        }
        flows
    }
}
