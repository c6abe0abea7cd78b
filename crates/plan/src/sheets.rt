use crate::table::ROWS;
use lists::{Blank, FixedList};

pub mod lines;

/// The figures of one flow.
#[derive(Clone, Copy, Debug, PartialEq, Eq)]
pub struct FlowFigures {
    /// How many channels the flow crosses.
    pub hops: u32,
    /// The slots that the flow has in all open frames together.
    pub inflight: u32,
}

impl Blank for FlowFigures {
    ghost blank = { record { hops = 0; inflight = 0 } };

    fn blank() -> FlowFigures {
        FlowFigures {
            hops: 0,
            inflight: 0,
        }
    }
}

/// A channel and the slots reserved on it.
#[derive(Clone, Copy, Debug, PartialEq, Eq)]
pub struct ChannelLoad {
    pub channel: u32,
    pub load: u32,
}

/// The figures of a plan that others freeze.
#[derive(Clone, Copy)]
pub struct Sheet {
    /// The most channel crossings that the flits of one frame can need.
    pub crossings: u32,
    /// The most loaded channel, the lowest number among equals; none for an empty plan.
    pub busiest: Option<ChannelLoad>,
    /// The figures of each flow, by its number.
    pub(crate) flows: FixedList<FlowFigures, ROWS>,
}
