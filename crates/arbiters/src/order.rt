ghost use Rattle.folds.specs.Orders.{EachOnce};

use crate::flow_set::FlowSet;
use std::array;

/// All flows in an order, each exactly once.
// A ghost field, and no Model: the laws of an arbiter hold of each of its values, whose orders have to bring the fact along.
#[derive(Clone, Copy)]
pub(crate) struct Order {
    flows: [u8; 64],
    ghost ok: { EachOnce 64 flows },
}

impl Order {
    ghost use Rattle.std.specs.Prelude.{◌≡◌, ◌<◌};
    ghost use Rattle.arbiters.specs.FlowSets.{has};
    ghost use Rattle.arbiters.specs.Recency.{order_granted, rising_order};
    ghost use Rattle.folds.specs.Firsts.{first_of};

    /// The flows from 0 to 63.
    pub(crate) fn rising() -> Self
        ensures { result ≡ rising_order }
    {
        Order {
            flows: array::from_fn(|flow| flow as u8),
        }
    }

    /// The first flow of the order that is in the set.
    pub(crate) fn first_in(&self, flows: &FlowSet) -> Option<u32>
        ensures { result ≡ first_of (has flows.now) self.now.flows }
    {
        self.flows
            .iter()
            .map(|flow| u32::from(*flow))
            .find(|flow| flows.contains(*flow))
    }

    /// Moves the flow to the end.
    pub(crate) fn grant(&mut self, flow: u8)
        requires { flow < 64 }
        ensures { self.new ≡ order_granted self.old flow }
    {
        if let Some(place) = self.flows.iter().position(|other| *other == flow) {
            self.flows[place..].rotate_left(1);
        }
    }
}
