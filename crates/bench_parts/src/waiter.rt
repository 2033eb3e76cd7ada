use std::sync::Wait;

/// What a thread acts by in a room where operations wait: a gauge that it alone raises, and one operation at a time.
pub trait Waiter: Sized + Send + Drop {
    fn gauge(&self) -> u32;

    /// Registers an operation that waits until a gauge is past this value. Whether it waits.
    fn register<R: Wait>(&mut self, rt: &R, gauge: u32, past: u64) -> bool;

    /// Raises the gauge by one, and has everybody answered whom that satisfies.
    fn raise<R: Wait>(&mut self, rt: &R);

    /// Whether the operation waits no longer.
    fn is_answered<R: Wait>(&mut self, rt: &R) -> bool;

    /// Sleeps until the operation waits no longer.
    fn sleep<R: Wait>(&mut self, rt: &R);
}
