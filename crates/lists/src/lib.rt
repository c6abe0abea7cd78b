//! Lists in a fixed number of places, with no memory but their own.
#![tactic(auto)]

pub mod blank;
pub mod fixed;

pub use blank::Blank;
pub use fixed::FixedList;
