//! The source of a flow: its account, the flits that wait there, and its counts.
#![tactic(auto)]

pub mod feed;
pub mod refusal;

pub use feed::Source;
pub use refusal::{OfferRefusal, ShiftRefusal};
