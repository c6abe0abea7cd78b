ghost use Rattle.std.specs.Prelude.{◌≡◌};
ghost use Rattle.arbiters.specs.Edges.{RecencyOfTwo};
ghost use Rattle.arbiters.specs.Recency.{fresh_recency, recent_choice, recent_granted, order_of};
ghost use Rattle.arbiters.specs.Rules.{RecencyRule};
ghost use Rattle.arbiters.specs.FlowSets.{has};
ghost use Rattle.folds.specs.Firsts.{first_of};
ghost use Rattle.folds.proofs.Orders.{in_order};
ghost use Rattle.arbiters.specs.Answering.{within_some, member_below};
ghost use Rattle.arbiters.specs.Belonging.{recent_belongs, recent_nobody};
ghost use Rattle.std.proofs.Common.{arith, rules};

use crate::arbiter::{Arbiter, CHANNELS};
use crate::flow_set::{FLOWS, FlowSet};
use crate::order::Order;

/// Keeps for each channel an order of all flows; answers the first one in the set, and a grant moves that flow to the end.
#[derive(Drop)]
pub struct LeastRecentlyGranted {
    orders: [Order; 320],
}

impl LeastRecentlyGranted {
    /// Every channel with the order 0 to 63.
    pub fn new() -> Self
        ensures made { result ≡ fresh_recency }
        ensures rule { RecencyRule }
        ensures edge { RecencyOfTwo }
    {
        LeastRecentlyGranted {
            orders: [Order::rising(); 320],
        }
    }
}

impl Arbiter for LeastRecentlyGranted {
    ghost choice = { recent_choice };

    ghost granted = { recent_granted };

    ghost belongs = { recent_belongs };

    ghost chooses = { λ a c s f l h. within_some c (first_of (has s) (order_of a c).flows) l (in_order (has s) f (order_of a c).flows (omega (arith, (order_of a c).ok f (member_below s f h))) h) };

    ghost nobody = { recent_nobody };

    ghost nowhere = { Prim.search rules };

    ghost ignores = { Prim.search rules };

    fn pick(&self, channel: u32, flows: &FlowSet) -> Option<u32> {
        if channel >= CHANNELS {
            return None;
        }
        self.orders[channel as usize].first_in(flows)
    }

    fn grant(&mut self, channel: u32, flow: u32) {
        if channel < CHANNELS && flow < FLOWS {
            self.orders[channel as usize].grant(flow as u8);
        }
    }
}
