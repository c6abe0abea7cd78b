/// What a channel grants in one cycle: that a flow's flit of one open frame crosses it.
#[derive(Clone, Copy, Debug, PartialEq, Eq)]
pub struct Grant {
    /// The open frame, counted from the head frame on.
    pub ahead: usize,
    /// The flow.
    pub flow: u32,
}
