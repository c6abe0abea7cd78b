/// How a bounded run ended; where several hold at once, the first of them is named.
#[derive(Clone, Copy, Debug, PartialEq, Eq)]
pub enum Ending {
    /// No flit is held.
    Empty,
    /// The allowance is used up.
    Spent,
    /// All 16,777,216 cycles are made.
    Over,
}
