//! The promise over every list of calls, and the figures that it lets a planner freeze.
#![tactic(auto)]

pub mod bounding;

pub use bounding::{Bounds, figures, share};
