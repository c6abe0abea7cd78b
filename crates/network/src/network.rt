use crate::fabric::Fabric;

pub mod calls;
pub mod reading;

/// A running network: an arbiter and a window clock, held by value beside the fabric that they drive.
#[derive(Drop)]
pub struct Network<A, C> {
    fabric: Fabric,
    arbiter: A,
    clock: C,
}
