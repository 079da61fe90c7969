/// What the times of a script are counted in.
#[derive(Clone, Copy, PartialEq, Eq)]
pub enum Clock {
    /// Whole frames.
    Frames,
    /// Seconds, at this many frames a second.
    Seconds { rate: u32 },
}
