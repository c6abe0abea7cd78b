ghost use Rattle.std.specs.Prelude.{◌≡◌};
ghost use Rattle.network.specs.Networks.{run_of};
ghost use Rattle.network.specs.Reading.{counts_of};
ghost use Rattle.running.specs.Nets.{flows};
ghost use Rattle.running.specs.Sounds.{held_flits};

use super::Network;
use crate::counts::Counts;
use arbiters::Arbiter;
use clocks::WindowClock;

impl<A: Arbiter, C: WindowClock> Network<A, C> {
    /// The head frame, which is also the number of shifts made.
    pub fn head_frame(&self) -> u64
        ensures { result ≡ (run_of self.now).net.head }
    {
        self.fabric.floor().head()
    }

    /// How many cycles are made.
    pub fn cycles(&self) -> u32
        ensures { result ≡ (run_of self.now).net.cycles }
    {
        self.fabric.floor().cycles()
    }

    /// How many flows there are.
    pub fn flow_count(&self) -> u32
        ensures { result ≡ flows (run_of self.now).net }
    {
        self.fabric.floor().flow_count()
    }

    /// How many flits are held, at sources and in buffers.
    pub fn held(&self) -> u64
        ensures { result ≡ held_flits (run_of self.now).net }
    {
        self.fabric.held()
    }

    /// The counts of a flow; none where there is no such flow.
    pub fn counts(&self, flow: u32) -> Option<Counts>
        ensures { result ≡ counts_of (run_of self.now).net flow }
    {
        self.fabric.floor().counts(flow)
    }
}
