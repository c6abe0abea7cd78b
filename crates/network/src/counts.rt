/// What a flow of a running network has counted.
#[derive(Clone, Copy, Debug, PartialEq, Eq)]
pub struct Counts {
    /// Flits accepted.
    pub accepted: u64,
    /// Flits delivered.
    pub delivered: u64,
    /// Packets refused for a spent window, counted up to 4,294,967,295.
    pub refused: u32,
}
