//! Window clocks: when the window of frames may shift.
#![tactic(auto)]

pub mod barrier;
pub mod clock;
pub mod refusal;
pub mod sampled;
pub mod timer;

pub use barrier::Barrier;
pub use clock::{LONGEST_LAG, WindowClock};
pub use refusal::ClockRefusal;
pub use sampled::Sampled;
pub use timer::Timer;
