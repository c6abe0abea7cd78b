ghost use Rattle.std.specs.Prelude.{◌≡◌, false, length};
ghost use Rattle.network.specs.Networks.{run_of};
ghost use Rattle.running.specs.Cycles.{started_run, offered_run, cycle_answer, cycle_leaves, cycled, shifts_now, delivered_now, run_over};
ghost use Rattle.running.specs.Offers.{offer_answer};
ghost use Rattle.running.specs.Runs.{run_answer, run_leaves, Ran};

use super::Network;
use crate::fabric::Fabric;
use crate::granting::grant_all;
use crate::telling::tell_clock;
use arbiters::Arbiter;
use clocks::WindowClock;
use plan::Plan;
use running::{Ending, RunRefusal};

impl<A: Arbiter, C: WindowClock> Network<A, C> {
    /// Starts the plan, which is used up, with an arbiter and a window clock.
    pub fn start(plan: Plan, arbiter: A, clock: C) -> Network<A, C>
        ensures { run_of result ≡ started_run plan arbiter clock }
    {
        Network {
            fabric: Fabric::new(&plan),
            arbiter,
            clock,
        }
    }

    /// Offers a packet of `size` flits of the flow, and answers its frame.
    pub fn offer(&mut self, flow: u32, size: u32) -> Result<u64, RunRefusal>
        ensures answer { result ≡ offer_answer (run_of self.old).net flow size }
        ensures state { run_of self.new ≡ offered_run (run_of self.old) flow size }
    {
        self.fabric.offer(flow, size)
    }

    /// Makes a cycle of a run that is not over.
    fn make_cycle(&mut self) -> (bool, u32)
        requires { run_over (run_of self.old).net ≡ false }
        ensures answer { result ≡ (shifts_now A.Arbiter C.WindowClock (run_of self.old), length (delivered_now A.Arbiter C.WindowClock (run_of self.old))) }
        ensures state { run_of self.new ≡ cycled A.Arbiter C.WindowClock (run_of self.old) }
    {
        let shifted = tell_clock(&mut self.fabric, &mut self.clock);
        let grants = grant_all(&self.fabric, &mut self.arbiter);
        let delivered = self.fabric.move_all(&grants);
        (shifted, delivered)
    }

    /// One cycle: whether the window shifted, and how many flits were delivered; refused once the run is over.
    pub fn cycle(&mut self) -> Result<(bool, u32), RunRefusal>
        ensures answer { result ≡ cycle_answer A.Arbiter C.WindowClock (run_of self.old) }
        ensures state { run_of self.new ≡ cycle_leaves A.Arbiter C.WindowClock (run_of self.old) }
    {
        if self.fabric.floor().is_over() {
            return Err(RunRefusal::RunOver);
        }
        Ok(self.make_cycle())
    }

    /// Makes cycles until no flit is held, the allowance is used up, or the run is over; answers how many it made
    /// and which of these ended it.
    pub fn run(&mut self, allowance: u32) -> (u32, Ending)
        ensures answer { result ≡ run_answer A.Arbiter C.WindowClock allowance (run_of self.old) }
        ensures state { run_of self.new ≡ run_leaves A.Arbiter C.WindowClock allowance (run_of self.old) }
        ensures ran { Ran A.Arbiter C.WindowClock allowance (run_of self.old) result }
    {
        for made in 0..allowance {
            if self.fabric.nothing_held() {
                return (made, Ending::Empty);
            }
            if self.fabric.floor().is_over() {
                return (made, Ending::Over);
            }
            self.make_cycle();
        }
        if self.fabric.nothing_held() {
            return (allowance, Ending::Empty);
        }
        (allowance, Ending::Spent)
    }
}
