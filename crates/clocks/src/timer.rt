ghost use Rattle.std.specs.Prelude.{◌<◌};

use crate::clock::WindowClock;
use crate::refusal::ClockRefusal;

/// Shifts in the `period`-th cycle since the last shift, or in the first empty one after it.
#[derive(Debug, Drop)]
pub struct Timer {
    period: u16,
    since: u16,
    ghost ok: { since < period },
}

impl Timer {
    ghost use Rattle.std.specs.Prelude.{◌≡◌, IfOk};
    ghost use Rattle.std.specs.Result.{result_err};
    ghost use Rattle.clocks.specs.Edges.{TimerOfThree};
    ghost use Rattle.clocks.specs.Rules.{TimerRule};
    ghost use Rattle.clocks.specs.Timers.{timer_refusal, FreshTimer};

    /// A timer of period 1 to 65,535, its count at 0.
    #[tactic(auto, using(crate::proofs::Rules::timer_rule, crate::proofs::Edges::timer_of_three))]
    pub fn new(period: u32) -> Result<Self, ClockRefusal>
        ensures refused { result_err result ≡ timer_refusal period }
        ensures made { IfOk result (FreshTimer period) }
        ensures rule { TimerRule }
        ensures edge { TimerOfThree }
    {
        if !(1..=65_535).contains(&period) {
            return Err(ClockRefusal::OutOfRange);
        }
        Ok(Timer {
            period: period as u16,
            since: 0,
        })
    }
}

impl WindowClock for Timer {
    ghost use Rattle.clocks.specs.Timers.{timer_lag, timer_left, timer_shifts, timer_told};
    ghost use Rattle.std.proofs.Common.{rules};

    ghost lag = { timer_lag };

    ghost left = { timer_left };

    ghost shifts = { timer_shifts };

    ghost told = { timer_told };

    ghost positive = { Prim.search rules };

    ghost within = { Prim.search rules };

    ghost steady = { Prim.search rules };

    ghost busy = { Prim.search rules };

    ghost falls = { Prim.search rules };

    fn tick(&mut self, empty: bool) -> bool {
        if self.since + 1 < self.period {
            self.since += 1;
            return false;
        }
        if empty {
            self.since = 0;
        }
        empty
    }

    fn lag(&self) -> u32 {
        u32::from(self.period)
    }
}
