//! Arbiters: who crosses a channel.
#![tactic(auto)]

pub mod arbiter;
pub mod flow_set;
pub mod least_recently_granted;
mod order;
pub mod round_robin;

pub use arbiter::{Arbiter, CHANNELS};
pub use flow_set::{FLOWS, FlowSet};
pub use least_recently_granted::LeastRecentlyGranted;
pub use round_robin::RoundRobin;
