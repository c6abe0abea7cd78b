ghost use Rattle.std.specs.Prelude.{◌≡◌, ◌≤◌, length};
ghost use Rattle.lanes.specs.Lanes.{first_of, rest_of};
ghost use Rattle.lanes.specs.Rings.{frames_of, lane_of, empty_lanes, clamped, place_answer, Below, push_told, after_push, with_lane, turned};

use super::Buffers;
use crate::buffer::Lane;
use crate::flits::Flit;

/// How many channels have lanes.
const CHANNELS: u32 = 320;

/// How many lanes a channel has.
const FRAMES: usize = 8;

/// How many lanes there are.
const LANES: usize = 2560;

impl Buffers {
    /// Empty buffers for so many open frames: 1 to 8, the nearest of these where another number is asked for.
    pub fn new(window: u32) -> Buffers
        ensures state { lane_of result ≡ empty_lanes }
        ensures frames { frames_of result ≡ clamped window }
    {
        Buffers {
            window: (window as usize).clamp(1, FRAMES),
            turn: 0,
            lanes: [Lane::new(); LANES],
        }
    }

    /// Where the lane of the channel stands for the frame so far ahead of the head, if there is one.
    fn place_of(&self, channel: u32, ahead: usize) -> Option<usize>
        ensures answer { result ≡ place_answer self.now channel ahead }
        ensures below { Below 2560 result }
    {
        if channel >= CHANNELS || ahead >= self.window {
            return None;
        }
        let on = self.turn + ahead;
        let ring = if on < self.window {
            on
        } else {
            on - self.window
        };
        Some(channel as usize * FRAMES + ring)
    }

    /// The first flit that waits at the channel for the frame so far ahead of the head.
    pub fn front(&self, channel: u32, ahead: usize) -> Option<Flit>
        ensures { result ≡ first_of (lane_of self.now channel ahead) }
    {
        let place = self.place_of(channel, ahead)?;
        self.lanes[place].front()
    }

    /// How many flits wait at the channel for the frame so far ahead of the head.
    pub fn len(&self, channel: u32, ahead: usize) -> usize
        ensures value { result ≡ length (lane_of self.now channel ahead) }
        ensures few { result ≤ 8 }
    {
        // No `map_or`: its closure would have to be told that the place is one of the lanes.
        let Some(place) = self.place_of(channel, ahead) else {
            return 0;
        };
        self.lanes[place].len()
    }

    /// Lets a flit in behind those that wait at the channel for the frame so far ahead of the head; hands it
    /// back, with nothing changed, where 8 wait already or there is no such lane.
    pub fn push(&mut self, channel: u32, ahead: usize, flit: Flit) -> Result<(), Flit>
        ensures answer { result ≡ push_told self.old channel ahead flit }
        ensures state { lane_of self.new ≡ after_push self.old channel ahead flit }
        ensures frames { frames_of self.new ≡ frames_of self.old }
    {
        let place = self.place_of(channel, ahead).ok_or(flit)?;
        self.lanes[place].push(flit)
    }

    /// Lets the first flit out that waits at the channel for the frame so far ahead of the head.
    pub fn pop(&mut self, channel: u32, ahead: usize) -> Option<Flit>
        ensures answer { result ≡ first_of (lane_of self.old channel ahead) }
        ensures state { lane_of self.new ≡ with_lane (lane_of self.old) channel ahead (rest_of (lane_of self.old channel ahead)) }
        ensures frames { frames_of self.new ≡ frames_of self.old }
    {
        let place = self.place_of(channel, ahead)?;
        self.lanes[place].pop()
    }

    /// Shifts the window: every frame comes one nearer to the head, and the lanes of the head frame become those
    /// of the frame that opens.
    pub fn turn(&mut self)
        ensures state { lane_of self.new ≡ turned (frames_of self.old) (lane_of self.old) }
        ensures frames { frames_of self.new ≡ frames_of self.old }
    {
        let next = self.turn + 1;
        self.turn = if next < self.window { next } else { 0 };
    }
}
