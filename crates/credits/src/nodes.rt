/// What one node had in an hour, in the fifteen-minute market and in real-time dispatch: the deviation of each, an
/// absolute value in thousandths of a MWh, and the congestion price of each in hundred-thousandths of a dollar.
// Side by side, as a line of a file has them: a struct for each market would be taken apart wherever both are weighed.
#[derive(Clone, Copy, Debug, PartialEq, Eq)]
pub struct NodeRecord {
    pub fifteen_minute_deviation: u32,
    pub dispatch_deviation: u32,
    pub fifteen_minute_price: i64,
    pub dispatch_price: i64,
}
