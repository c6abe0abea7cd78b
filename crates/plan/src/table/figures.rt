ghost use Rattle.std.specs.Prelude.{◌≡◌, ◌≤◌, map};
ghost use Rattle.plan.specs.Tables.{SoundTable};
ghost use Rattle.plan.specs.Sheets.{flow_crossings, crossings, flow_figures, busiest, sheet_figures, MostLoaded};

use super::{Plan, ROWS};
use crate::rows::Row;
use crate::sheets::{ChannelLoad, FlowFigures, Sheet};
use lists::FixedList;
use routes::CHANNELS;

impl Row {
    /// The channel crossings that the flow's flits of one frame can need.
    fn crossings(&self) -> u32
        requires { (self.now.slots ≤ 4096) × ((1 ≤ self.now.largest) × (self.now.largest ≤ 64)) }
        ensures { result ≡ flow_crossings self.now }
    {
        (self.slots + self.largest - 1) * self.route.hops()
    }

    /// The flow's hops, and its slots in a window of frames.
    fn figures(&self, window: u32) -> FlowFigures
        requires { (self.now.slots ≤ 4096) × (window ≤ 8) }
        ensures { result ≡ flow_figures window self.now }
    {
        FlowFigures {
            hops: self.route.hops(),
            inflight: window * self.slots,
        }
    }
}

impl Plan {
    /// The channel crossings that the flits of one frame can need, over all flows.
    fn crossings(&self) -> u32
        ensures value { result ≡ crossings self.now.flows }
        ensures sound { SoundTable self.now }
    {
        self.rows().iter().map(|row| row.crossings()).sum()
    }

    /// The most loaded channel, the lowest number among equals.
    fn busiest(&self) -> Option<ChannelLoad>
        ensures { result ≡ busiest self.now.flows }
    {
        if self.rows.is_empty() {
            return None;
        }
        let mut most = ChannelLoad {
            channel: 0,
            load: self.load(0),
        };
        // Not `max_by_key`, which names the last among equals.
        for channel in 1..CHANNELS {
            let load = self.load(channel);
            if most.load < load {
                most = ChannelLoad { channel, load };
            }
        }
        Some(most)
    }

    /// The figures of each flow, by its number.
    fn lines(&self) -> FixedList<FlowFigures, ROWS>
        ensures { result ≡ map (flow_figures self.now.settings.window) self.now.flows }
    {
        let window = self.settings.window;
        let mut lines = FixedList::new();
        for row in self.rows() {
            // A sheet has as many places as a plan.
            let _ = lines.push(row.figures(window));
        }
        lines
    }

    /// The sheet of the plan: the figures that others freeze.
    pub fn sheet(&self) -> Sheet
        ensures figures { result ≡ sheet_figures self.now }
        ensures most { MostLoaded self.now.flows result.busiest }
        ensures sound { SoundTable self.now }
    {
        Sheet {
            crossings: self.crossings(),
            busiest: self.busiest(),
            flows: self.lines(),
        }
    }
}
