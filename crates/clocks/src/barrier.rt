ghost use Rattle.std.specs.Prelude.{◌<◌, ◌≤◌};

use crate::clock::WindowClock;
use crate::refusal::ClockRefusal;

/// Shifts at the `latency`-th empty cycle running; a busy cycle or a shift restarts the count.
#[derive(Debug, Drop)]
pub struct Barrier {
    latency: u8,
    run: u8,
    ghost ok: { (latency ≤ 64) × (run < latency) },
}

impl Barrier {
    ghost use Rattle.std.specs.Prelude.{◌≡◌, IfOk};
    ghost use Rattle.std.specs.Result.{result_err};
    ghost use Rattle.clocks.specs.Barriers.{barrier_refusal, FreshBarrier};
    ghost use Rattle.clocks.specs.Edges.{BarrierOfTwo};
    ghost use Rattle.clocks.specs.Rules.{BarrierRule};

    /// A barrier of latency 1 to 64, its count at 0.
    #[tactic(auto, using(crate::proofs::Rules::barrier_rule, crate::proofs::Edges::barrier_of_two))]
    pub fn new(latency: u32) -> Result<Self, ClockRefusal>
        ensures refused { result_err result ≡ barrier_refusal latency }
        ensures made { IfOk result (FreshBarrier latency) }
        ensures rule { BarrierRule }
        ensures edge { BarrierOfTwo }
    {
        if !(1..=64).contains(&latency) {
            return Err(ClockRefusal::OutOfRange);
        }
        Ok(Barrier {
            latency: latency as u8,
            run: 0,
        })
    }
}

impl WindowClock for Barrier {
    ghost use Rattle.clocks.specs.Barriers.{barrier_lag, barrier_left, barrier_shifts, barrier_told};
    ghost use Rattle.std.proofs.Common.{rules};

    ghost lag = { barrier_lag };

    ghost left = { barrier_left };

    ghost shifts = { barrier_shifts };

    ghost told = { barrier_told };

    ghost positive = { Prim.search rules };

    ghost within = { Prim.search rules };

    ghost steady = { Prim.search rules };

    ghost busy = { Prim.search rules };

    ghost falls = { Prim.search rules };

    fn tick(&mut self, empty: bool) -> bool {
        if !empty {
            self.run = 0;
            return false;
        }
        self.run += 1;
        if self.run < self.latency {
            return false;
        }
        self.run = 0;
        true
    }

    fn lag(&self) -> u32 {
        u32::from(self.latency)
    }
}
