//! The flows that a label printer wants, for the programs that plan and run it.
#![tactic(auto)]

pub mod wishes;

pub use wishes::{WISHES, Wish};
