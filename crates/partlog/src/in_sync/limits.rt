/// For how many milliseconds a follower may lag before it leaves the set (Kafka's `replica.lag.time.max.ms`). One that has
/// lagged for just as many leaves it.
pub const MOST_LAG: u64 = 30_000;
