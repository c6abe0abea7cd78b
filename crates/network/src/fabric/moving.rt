ghost use Rattle.std.specs.Prelude.{◌≡◌, ◌<◌, ◌≤◌, true, false, length};
ghost use Rattle.network.specs.Floors.{net_of};
ghost use Rattle.network.specs.Landings.{ends, carried, Granted};
ghost use Rattle.routes.specs.Crossings.{crossing};
ghost use Rattle.running.specs.Crossed.{crossed};
ghost use Rattle.running.specs.Cycles.{head_empty, shifted_net, cycle_made, run_over};
ghost use Rattle.running.specs.Moves.{moved, arrive, arrivals};
ghost use Rattle.running.specs.Nets.{route};
ghost use Rattle.running.specs.Offers.{offer_answer, offer_leaves};
ghost use Rattle.running.specs.Requests.{requests};
ghost use Rattle.running.specs.Valid.{Valid, InWindow};

use super::Fabric;
use running::{Grant, RunRefusal};

impl Fabric {
    /// Offers a packet of the flow; accepted, its flits are held for the frame that is answered.
    pub(crate) fn offer(&mut self, flow: u32, size: u32) -> Result<u64, RunRefusal>
        ensures answer { result ≡ offer_answer (net_of self.old.floor) flow size }
        ensures state { net_of self.new.floor ≡ offer_leaves (net_of self.old.floor) flow size }
    {
        let frame = self.floor.offer(flow, size)?;
        self.held[(frame - self.floor.head()) as usize] += u64::from(size);
        Ok(frame)
    }

    /// Counts a cycle.
    pub(crate) fn count_cycle(&mut self)
        requires { run_over (net_of self.old.floor) ≡ false }
        ensures { net_of self.new.floor ≡ cycle_made (net_of self.old.floor) }
    {
        self.floor.count_cycle();
    }

    /// Shifts the window: every flow, the buffers and the counts of held flits.
    pub(crate) fn shift(&mut self)
        requires empty { head_empty (net_of self.old.floor) ≡ true }
        requires made { (net_of self.old.floor).head < (net_of self.old.floor).cycles }
        ensures { net_of self.new.floor ≡ shifted_net (net_of self.old.floor) }
    {
        self.floor.shift();
        // The head frame holds nothing, so its count is that of the frame that opens.
        self.held.rotate_left(1);
    }

    /// Moves the granted flit over its channel; whether that delivered it.
    fn advance(&mut self, channel: u32, grant: Grant) -> bool
        requires asked { requests (net_of self.old.floor) channel grant.ahead grant.flow ≡ true }
        requires in_window { grant.ahead < (net_of self.old.floor).window }
        ensures answer { result ≡ ends (crossing (route (net_of self.old.floor) grant.flow) channel) }
        ensures state { net_of self.new.floor ≡ crossed (net_of self.old.floor) channel grant }
    {
        let Some(crossing) = self.floor.crossing(grant.flow, channel) else {
            return false;
        };
        let Some(flit) = self.floor.depart(grant, crossing.before) else {
            return false;
        };
        self.floor.land(channel, grant, flit, crossing.last);
        if crossing.last {
            self.held[grant.ahead] -= 1;
        }
        crossing.last
    }

    /// Moves the flit that the channel grants, if it grants one, and counts it if that delivers it.
    fn carry(&mut self, channel: u32, grant: Option<Grant>) -> u32
        requires { Granted (net_of self.old.floor) channel grant }
        ensures answer { result ≡ length (arrive (net_of self.old.floor) channel grant) }
        ensures few { result ≤ 1 }
        ensures state { net_of self.new.floor ≡ carried (net_of self.old.floor) channel grant }
    {
        let Some(grant) = grant else {
            return 0;
        };
        u32::from(self.advance(channel, grant))
    }

    /// Moves all granted flits, channel by channel, and counts those delivered.
    pub(crate) fn move_all(&mut self, grants: &[Option<Grant>; 320]) -> u32
        requires valid { Valid (net_of self.old.floor) grants.now }
        requires in_window { InWindow (net_of self.old.floor) grants.now }
        ensures answer { result ≡ length (arrivals (net_of self.old.floor) grants.now 320) }
        ensures state { net_of self.new.floor ≡ moved (net_of self.old.floor) grants.now }
    {
        let mut delivered = 0;
        for (channel, grant) in grants.iter().enumerate() {
            delivered += self.carry(channel as u32, *grant);
        }
        delivered
    }
}
