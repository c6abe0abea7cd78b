ghost use Rattle.std.specs.Prelude.{◌≡◌, ◌<◌, ◌≤◌, length, All};

use crate::buffer::Lane;

pub mod shelves;

// What waits is a function of channel and frame, which has no code, so no Model: clauses name it by `lane_of`.
/// The buffers of all 320 channels: a lane for each open frame. The lanes of a channel stand in a ring over the
/// frames, so that a shift of the window moves no flit.
#[derive(Clone, Copy)]
pub struct Buffers {
    window: usize,
    turn: usize,
    // Flat: an array of arrays takes the check four times as long.
    lanes: [Lane; 2560],
    ghost sized: { length lanes ≡ 2560 },
    ghost few: { All (λ lane. length lane ≤ 8) lanes },
    ghost ring: { (window ≤ 8) × (turn < window) },
}
