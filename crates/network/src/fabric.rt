ghost use Rattle.network.specs.Floors.{net_of};
ghost use Rattle.network.specs.Marks.{Marked};
ghost use Rattle.running.specs.Sounds.{Sound};

use crate::floor::Floor;

pub mod holding;
pub mod moving;

/// What a network runs on, beside its arbiter and its clock: the floor that its flits move on, and the counters that
/// make its tests cheap.
#[derive(Clone, Copy)]
pub struct Fabric {
    floor: Floor,
    held: [u64; 8],
    used: [bool; 320],
    ghost marked: { Marked (net_of floor) used },
    ghost sound: { Sound (net_of floor) held },
}
