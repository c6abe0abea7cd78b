ghost use Rattle.std.specs.Prelude.{◌≡◌, IfOk, ◌≤◌};
ghost use Rattle.network.specs.Floors.{net_of};
ghost use Rattle.network.specs.Lines.{InReach};
ghost use Rattle.network.specs.Reading.{counts_of};
ghost use Rattle.routes.specs.Crossings.{crossing};
ghost use Rattle.running.specs.Nets.{flows, line, route};
ghost use Rattle.running.specs.Offers.{offer_answer, offer_leaves, with_line, with_lines};
ghost use Rattle.sources.specs.Lines.{first_place, leave_answer, left_by, delivering};

use super::Floor;
use crate::counts::Counts;
use routes::Crossing;
use running::RunRefusal;
use sources::Source;

impl Floor {
    /// The sources of the flows, in order.
    fn flows(&self) -> &[Source]
        ensures { result.now ≡ (net_of self.now).lines }
    {
        &self.sources[..self.count]
    }

    /// How many flows there are.
    pub(crate) fn flow_count(&self) -> u32
        ensures value { result ≡ flows (net_of self.now) }
        ensures few { result ≤ 64 }
    {
        self.count as u32
    }

    /// The counts of a flow; none where there is no such flow.
    pub(crate) fn counts(&self, flow: u32) -> Option<Counts>
        ensures { result ≡ counts_of (net_of self.now) flow }
    {
        let source = self.flows().get(flow as usize)?;
        Some(Counts {
            accepted: source.accepted(),
            delivered: source.delivered(),
            refused: source.refused(),
        })
    }

    /// How the flow's route crosses the channel, if it does.
    pub(crate) fn crossing(&self, flow: u32, channel: u32) -> Option<Crossing>
        ensures { result ≡ crossing (route (net_of self.now) flow) channel }
    {
        self.flows().get(flow as usize)?.crossing(channel)
    }

    /// The open frame of the flow's earliest waiting flit.
    pub(crate) fn earliest(&self, flow: u32) -> Option<usize>
        ensures { result ≡ first_place (line (net_of self.now) flow) }
    {
        self.flows().get(flow as usize)?.first_place()
    }

    /// Offers a packet to the flow's source.
    pub(crate) fn offer(&mut self, flow: u32, size: u32) -> Result<u64, RunRefusal>
        ensures answer { result ≡ offer_answer (net_of self.old) flow size }
        ensures state { net_of self.new ≡ offer_leaves (net_of self.old) flow size }
        ensures reach { IfOk result (InReach (line (net_of self.old) flow)) }
    {
        if flow as usize >= self.count {
            return Err(RunRefusal::NoSuchFlow);
        }
        Ok(self.sources[flow as usize].offer(size)?)
    }

    /// Lets the flow's earliest flit leave its source.
    pub(crate) fn leave(&mut self, flow: u32) -> Option<u64>
        ensures answer { result ≡ leave_answer (line (net_of self.old) flow) }
        ensures state { net_of self.new ≡ with_line (net_of self.old) flow (left_by (line (net_of self.old) flow)) }
    {
        if flow as usize >= self.count {
            return None;
        }
        self.sources[flow as usize].leave()
    }

    /// Counts a flit of the flow as delivered.
    pub(crate) fn deliver(&mut self, flow: u32)
        ensures { net_of self.new ≡ with_line (net_of self.old) flow (delivering (line (net_of self.old) flow)) }
    {
        if (flow as usize) < self.count {
            self.sources[flow as usize].deliver();
        }
    }
}
