/// How many flits a lane can hold.
pub const LANE_PLACES: usize = 8;
