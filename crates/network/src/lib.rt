//! The running network: starting a plan, offering packets, making cycles.
#![tactic(auto)]

pub mod counts;
pub mod fabric;
pub mod floor;
pub mod granting;
pub mod network;
pub mod telling;

pub use counts::Counts;
pub use floor::moving::RUN_CYCLES;
pub use network::Network;
pub use running::{Ending, RunRefusal};
