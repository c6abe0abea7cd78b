ghost use Rattle.std.specs.Prelude.{◌≡◌, false};
ghost use Rattle.network.specs.Floors.{net_of};
ghost use Rattle.running.specs.Cycles.{head_empty, run_over, clocked};

use crate::fabric::Fabric;
use clocks::WindowClock;

/// Counts the cycle, tells the clock whether the head frame is empty, and shifts the window if it says so.
pub(crate) fn tell_clock<C: WindowClock>(fabric: &mut Fabric, clock: &mut C) -> bool
    requires { run_over (net_of fabric.old.floor) ≡ false }
    ensures answer { result ≡ C.WindowClock.shifts clock.old (head_empty (net_of fabric.old.floor)) }
    ensures clock { clock.new ≡ C.WindowClock.told clock.old (head_empty (net_of fabric.old.floor)) }
    ensures state { net_of fabric.new.floor ≡ clocked (net_of fabric.old.floor) (C.WindowClock.shifts clock.old (head_empty (net_of fabric.old.floor))) }
{
    let empty = fabric.head_empty();
    fabric.count_cycle();
    let shifts = clock.tick(empty);
    if shifts {
        fabric.shift();
    }
    shifts
}
