use std::sync::Wait;

/// Where a worker stands: it took a request, or has answered it.
#[derive(Clone, Copy, Debug, PartialEq, Eq)]
pub enum Point {
    Took,
    Answered,
}

/// What workers pass at each point, where a test may hold them back. It changes nothing of what they do.
pub trait Turnstile {
    /// Waits.
    fn at<R: Wait>(&self, rt: &R, worker: u32, point: Point);
}

/// A turnstile that holds nobody back.
#[derive(Clone, Copy, Debug)]
pub struct OpenTurnstile;

impl Turnstile for OpenTurnstile {
    fn at<R: Wait>(&self, _: &R, _: u32, _: Point) {}
}
