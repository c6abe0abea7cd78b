ghost use Rattle.std.specs.Prelude.{◌≡◌};
ghost use Rattle.guarantee.specs.Edges.{EdgeValues};
ghost use Rattle.guarantee.specs.Frozen.{figures_for, share_for};
ghost use Rattle.guarantee.specs.Promises.{Promised, PromisedFor};
ghost use Rattle.plan.specs.Tables.{SoundTable};

use arbiters::Arbiter;
use clocks::{LONGEST_LAG, WindowClock};
use plan::Plan;

/// Figures of a plan and a clock that hold whatever is offered, and whichever arbiter picks.
#[derive(Clone, Copy, Debug, PartialEq, Eq)]
pub struct Bounds {
    /// Any so many successive cycles hold a shift.
    pub epoch: u64,
    /// Once so many cycles are made after its offer, a flit has been delivered.
    pub delivery: u64,
}

/// Does nothing: proves the promise for every network with such an arbiter and such a clock, and for this plan and this
/// clock, and the table of edge values.
fn promise<A: Arbiter, C: WindowClock>(plan: &Plan, clock: &C)
    requires { SoundTable plan.now }
    ensures here { PromisedFor A.Arbiter C.WindowClock plan.now clock.now }
    ensures promised { Promised A.Arbiter C.WindowClock }
    ensures edges { EdgeValues }
{}

/// The figures for a network of this plan, this arbiter and this clock; none for a clock whose lag is above 4,194,304.
pub fn figures<A: Arbiter, C: WindowClock>(plan: &Plan, arbiter: &A, clock: &C) -> Option<Bounds>
    ensures figures { result ≡ figures_for plan.now (C.WindowClock.lag clock.now) }
    ensures here { PromisedFor A.Arbiter C.WindowClock plan.now clock.now }
    ensures promised { Promised A.Arbiter C.WindowClock }
    ensures edges { EdgeValues }
{
    let window = plan.settings().window;
    promise::<A, C>(plan, clock);
    let lag = clock.lag();
    if lag > LONGEST_LAG {
        return None;
    }
    let epoch = u64::from(plan.sheet().crossings) + u64::from(lag);
    Some(Bounds {
        epoch,
        delivery: u64::from(window) * epoch,
    })
}

/// A bound on a flow's accepted flits that belong to so many successive frames; none where there is no such flow.
pub fn share(plan: &Plan, flow: u32, frames: u32) -> Option<u64>
    ensures { result ≡ share_for plan.now flow frames }
{
    let row = plan.rows().get(flow as usize)?;
    Some(u64::from(frames) * u64::from(row.slots) + u64::from(row.largest) - 1)
}
