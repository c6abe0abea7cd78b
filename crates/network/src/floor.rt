ghost use Rattle.std.specs.Prelude.{◌≡◌, ◌≤◌, length, take};
ghost use Rattle.lanes.specs.Rings.{frames_of};
ghost use Rattle.network.specs.Lines.{SoundLines};

use lanes::Buffers;
use sources::Source;

pub mod moving;
pub mod requesting;
pub mod rows;
pub mod starting;

/// What a cycle moves on: the flows at their sources and the buffers of the channels, with the settings and the head
/// frame that they share.
#[derive(Clone, Copy)]
pub struct Floor {
    window: usize,
    depth: usize,
    head: u64,
    cycles: u32,
    count: usize,
    // Those of the flows stand first; the places behind them are vacant.
    sources: [Source; 64],
    buffers: Buffers,
    ghost ring: { frames_of buffers ≡ window },
    ghost few: { count ≤ 64 },
    ghost sized: { length sources ≡ 64 },
    ghost lines: { SoundLines (take count sources) },
}
