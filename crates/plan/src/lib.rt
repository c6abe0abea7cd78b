//! Slot tables: settings, reservations, loads and the sheet of figures.
#![tactic(auto)]

pub mod refusal;
pub mod rows;
pub mod setting;
pub mod sheets;
pub mod table;

pub use refusal::PlanRefusal;
pub use rows::Row;
pub use setting::Settings;
pub use sheets::{ChannelLoad, FlowFigures, Sheet};
pub use table::Plan;
