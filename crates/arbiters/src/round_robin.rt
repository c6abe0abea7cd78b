ghost use Rattle.std.specs.Prelude.{◌≡◌, slice_index};
ghost use Rattle.arbiters.specs.Edges.{RoundOfTwo};
ghost use Rattle.arbiters.specs.Rounds.{fresh_round, round_choice, round_granted, next_after};
ghost use Rattle.arbiters.specs.Rules.{RoundRule};
ghost use Rattle.arbiters.specs.Answering.{within_some};
ghost use Rattle.arbiters.specs.RoundsLemmas.{next_chooses};
ghost use Rattle.arbiters.specs.Belonging.{round_belongs, round_nobody};
ghost use Rattle.std.proofs.Common.{rules};

use crate::arbiter::{Arbiter, CHANNELS};
use crate::flow_set::{FLOWS, FlowSet};

/// Answers the first flow of the set after the last one granted on the channel, counting up and from 63 to 0.
#[derive(Debug, Drop)]
pub struct RoundRobin {
    last: [u8; 320],
}

impl RoundRobin {
    /// As after a grant to flow 63 on each channel.
    pub fn new() -> Self
        ensures made { result ≡ fresh_round }
        ensures rule { RoundRule }
        ensures edge { RoundOfTwo }
    {
        RoundRobin { last: [63; 320] }
    }
}

impl Arbiter for RoundRobin {
    ghost choice = { round_choice };

    ghost granted = { round_granted };

    ghost belongs = { round_belongs };

    ghost chooses = { λ a c s f l h. within_some c (next_after (slice_index a.last c) s) l (next_chooses (slice_index a.last c) s f h) };

    ghost nobody = { round_nobody };

    ghost nowhere = { Prim.search rules };

    ghost ignores = { Prim.search rules };

    fn pick(&self, channel: u32, flows: &FlowSet) -> Option<u32> {
        if channel >= CHANNELS {
            return None;
        }
        let last = u32::from(self.last[channel as usize]);
        flows
            .first_between(last + 1, FLOWS)
            .or_else(|| flows.first_between(0, last + 1))
    }

    fn grant(&mut self, channel: u32, flow: u32) {
        if channel < CHANNELS && flow < FLOWS {
            self.last[channel as usize] = flow as u8;
        }
    }
}
