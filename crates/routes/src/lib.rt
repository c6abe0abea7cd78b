//! Routes: the channels that a flow crosses, in the order of crossing.
#![tactic(auto)]

pub mod crossing;
pub mod path;

pub use crossing::Crossing;
pub use path::Route;
pub use path::checks::{CHANNELS, RouteRefusal};
