/// The size of a room: 1 to 193 gauges, 1 to 80 passes, and 2 to 17 scanners. The last gauge is the clock. With s scanners,
/// those of the shards have the numbers 0 to s - 2; the clock's is always number 16.
#[derive(Clone, Copy)]
pub struct Shape {
    pub gauges: u32,
    pub passes: u32,
    pub scanners: u32,
}
