/// How a route crosses a channel.
#[derive(Clone, Copy, Debug, PartialEq, Eq)]
pub struct Crossing {
    /// The channel before it; none for the first.
    pub before: Option<u32>,
    /// Whether the route ends with it.
    pub last: bool,
}
