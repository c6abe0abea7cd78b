//! Flits, and the buffers that they wait in.
#![tactic(auto)]

pub mod buffer;
pub mod buffers;
pub mod flits;

pub use buffer::Lane;
pub use buffers::Buffers;
pub use flits::Flit;
