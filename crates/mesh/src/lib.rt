//! Routes on a square mesh of nodes: along x, then along y, then out.
#![tactic(auto)]

pub mod node;
pub mod refusal;
pub mod square;

pub use node::{Heading, Node};
pub use refusal::MeshRefusal;
pub use square::{LONGEST_SIDE, Mesh};
