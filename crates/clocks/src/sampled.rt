ghost use Rattle.std.specs.Prelude.{◌<◌, ◌≤◌};

use crate::clock::{LONGEST_LAG, WindowClock};
use crate::refusal::ClockRefusal;

/// Tells the clock below in every `period`-th cycle, counted from its making, and stays in between.
#[derive(Debug, Drop)]
pub struct Sampled<C> {
    below: C,
    period: u8,
    since: u8,
    ghost ok: { (period ≤ 64) × (since < period) },
}

impl<C: WindowClock + Drop> Sampled<C> {
    ghost use Rattle.std.specs.Prelude.{◌≡◌, IfOk};
    ghost use Rattle.std.specs.Result.{result_err};
    ghost use Rattle.clocks.specs.Edges.{TwoOverTwo};
    ghost use Rattle.clocks.specs.Liveness.{ShiftsInTime};
    ghost use Rattle.clocks.specs.Rules.{SampledRule};
    ghost use Rattle.clocks.specs.Samples.{sampled_refusal, FreshSampled};

    /// A clock over `below` of period 1 to 64 and lag at most 4,194,304; a refusal uses `below` up.
    #[tactic(auto, using(crate::proofs::Rules::sampled_rule, crate::proofs::Edges::two_over_two))]
    pub fn new(below: C, period: u32) -> Result<Self, ClockRefusal>
        ensures refused { result_err result ≡ sampled_refusal period (C.WindowClock.lag below) }
        ensures made { IfOk result (FreshSampled period below) }
        ensures rule { SampledRule C.WindowClock.shifts C.WindowClock.told }
        ensures edge { TwoOverTwo }
        ensures in_time { ShiftsInTime C.WindowClock }
    {
        if !(1..=64).contains(&period) {
            return Err(ClockRefusal::OutOfRange);
        }
        if period * below.lag() > LONGEST_LAG {
            return Err(ClockRefusal::LagTooLong);
        }
        Ok(Sampled {
            below,
            period: period as u8,
            since: 0,
        })
    }
}

impl<C: WindowClock> WindowClock for Sampled<C> {
    ghost use Rattle.clocks.specs.Products.{at_least, sampled_falls};
    ghost use Rattle.clocks.specs.Samples.{sampled_lag, sampled_left, sampled_shifts, sampled_told, sampled_due};
    ghost use Rattle.std.proofs.Common.{arith, mul-le-mul_left, rules};
    ghost use Rattle.std.specs.Prelude.{true, refl};

    ghost lag = { sampled_lag C.WindowClock.lag };

    ghost left = { sampled_left C.WindowClock.left };

    ghost shifts = { sampled_shifts C.WindowClock.shifts };

    ghost told = { sampled_told C.WindowClock.told };

    ghost positive = { λ c. omega (arith, at_least c.period (C.WindowClock.left c.below) (C.WindowClock.positive c.below)) };

    ghost within = { λ c. omega (arith, mul-le-mul_left c.period (C.WindowClock.within c.below)) };

    ghost steady = { Prim.search rules };

    ghost busy = { Prim.search rules };

    ghost falls = { λ c h. sampled_falls C.WindowClock.left (C.WindowClock.told c.below true) c.below c.period c.since (sampled_due c) (C.WindowClock.shifts c.below true) refl c.ok.1 (C.WindowClock.positive c.below) (C.WindowClock.falls c.below) h };

    fn tick(&mut self, empty: bool) -> bool {
        self.since += 1;
        if self.since < self.period {
            return false;
        }
        self.since = 0;
        self.below.tick(empty)
    }

    fn lag(&self) -> u32 {
        (u32::from(self.period) * self.below.lag()).min(LONGEST_LAG + 1)
    }
}
