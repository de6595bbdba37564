//! The optimum of a curve.

/// The length for which a project costs least in total, and what shows it. Of several such lengths it is the shortest.
#[derive(Clone, Copy, Debug, PartialEq, Eq)]
pub struct Best {
    /// The length, in units.
    pub length: u64,
    /// The least cost of a schedule for the length.
    pub direct: u64,
    /// What the time of the project costs.
    pub time: i64,
    /// The sum of both.
    pub total: i64,
    /// How much higher the total is one unit shorter; `None` at the all-crash length.
    pub below: Option<i64>,
    /// How much higher the total is one unit longer; `None` at the all-normal length.
    pub above: Option<i64>,
}
