//! The account of a flow: which frame each of its packets gets, and what that promises over frames.
#![tactic(auto)]

pub mod account;
pub mod refusal;

pub use account::Account;
pub use account::calls::RUN_SHIFTS;
pub use account::figures::Bounds;
pub use refusal::AccountRefusal;
