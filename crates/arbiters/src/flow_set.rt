ghost use Rattle.std.specs.Prelude.{◌≡◌};
ghost use Rattle.arbiters.specs.FlowSets.{first_between, has, no_flows, with_flow};

use std::marker::Model;

/// Flows have the numbers below this one.
pub const FLOWS: u32 = 64;

/// A set of flows. A contract sees of each flow whether it is a member.
#[derive(Clone, Copy, Debug)]
pub struct FlowSet {
    members: [bool; 64],
}

impl Model for FlowSet {
    ghost use Rattle.std.specs.Prelude.{◌≡◌, Bool, List, length};

    ghost Value = { List Bool };

    ghost view = { λ s. s.members };

    ghost invariant = { λ s. length s.members ≡ 64 };

    ghost inverse = { λ members. record { members = members } };
}

impl FlowSet {
    /// The empty set.
    pub fn new() -> Self
        ensures { result ≡ no_flows }
    {
        FlowSet {
            members: [false; 64],
        }
    }

    /// Adds a flow; a number above 63 is no flow, and changes nothing.
    pub fn insert(&mut self, flow: u32)
        ensures { self.new ≡ with_flow self.old flow }
    {
        if flow < FLOWS {
            self.members[flow as usize] = true;
        }
    }

    /// Whether the flow is a member; a number above 63 is none.
    pub fn contains(&self, flow: u32) -> bool
        ensures { result ≡ has self.now flow }
    {
        flow < FLOWS && self.members[flow as usize]
    }

    /// The first member from `start` on, below `end`.
    pub(crate) fn first_between(&self, start: u32, end: u32) -> Option<u32>
        ensures { result ≡ first_between self.now start end }
    {
        (start..end).find(|flow| self.contains(*flow))
    }
}
