use crate::flits::Flit;
use lists::FixedList;
use queue::LANE_PLACES;

pub mod queue;

/// The buffer of a channel for one open frame: first in, first out, up to 8 flits.
pub type Lane = FixedList<Flit, LANE_PLACES>;
