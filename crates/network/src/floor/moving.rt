ghost use Rattle.std.specs.Prelude.{◌≡◌, ◌<◌, false, map};
ghost use Rattle.network.specs.Floors.{net_of, turned_net};
ghost use Rattle.network.specs.Landings.{departing, departed, landed};
ghost use Rattle.running.specs.Cycles.{cycle_made, run_over};
ghost use Rattle.running.specs.Offers.{with_lines};
ghost use Rattle.sources.specs.Lines.{shifted_line};

use super::Floor;
use lanes::Flit;
use running::Grant;

/// How many cycles a run has.
pub const RUN_CYCLES: u32 = 16_777_216;

impl Floor {
    /// The head frame.
    pub(crate) fn head(&self) -> u64
        ensures { result ≡ (net_of self.now).head }
    {
        self.head
    }

    /// How many cycles are made.
    pub(crate) fn cycles(&self) -> u32
        ensures { result ≡ (net_of self.now).cycles }
    {
        self.cycles
    }

    /// Whether all cycles of the run are made.
    pub(crate) fn is_over(&self) -> bool
        ensures { result ≡ run_over (net_of self.now) }
    {
        self.cycles >= RUN_CYCLES
    }

    /// Counts a cycle.
    pub(crate) fn count_cycle(&mut self)
        requires { run_over (net_of self.old) ≡ false }
        ensures { net_of self.new ≡ cycle_made (net_of self.old) }
    {
        self.cycles += 1;
    }

    /// Shifts the window of every flow.
    fn shift_sources(&mut self)
        ensures { net_of self.new ≡ with_lines (net_of self.old) (map shifted_line (net_of self.old).lines) }
    {
        for row in 0..self.count {
            // A source that may not shift stays; where the head frame is empty there is none.
            let _ = self.sources[row].shift();
        }
    }

    /// Shifts the window: that of every flow, and the buffers.
    pub(crate) fn shift(&mut self)
        requires { (net_of self.old).head < (net_of self.old).cycles }
        ensures { net_of self.new ≡ turned_net (net_of self.old) }
    {
        self.shift_sources();
        self.buffers.turn();
        self.head += 1;
    }

    /// Lets the granted flit leave its source, or the buffer of the channel before.
    pub(crate) fn depart(&mut self, grant: Grant, before: Option<u32>) -> Option<Flit>
        ensures answer { result ≡ departing (net_of self.old) grant before }
        ensures state { net_of self.new ≡ departed (net_of self.old) grant before }
    {
        let Some(channel) = before else {
            let number = self.leave(grant.flow)?;
            let flow = grant.flow;
            return Some(Flit { flow, number });
        };
        self.buffers.pop(channel, grant.ahead)
    }

    /// Lets the flit into the channel's buffer, or delivers it at its flow's last channel.
    pub(crate) fn land(&mut self, channel: u32, grant: Grant, flit: Flit, last: bool)
        ensures { net_of self.new ≡ landed (net_of self.old) channel grant flit last }
    {
        if last {
            self.deliver(grant.flow);
        } else {
            // There is space, or the flow had not asked.
            let _ = self.buffers.push(channel, grant.ahead, flit);
        }
    }
}
