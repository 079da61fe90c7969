ghost use Rattle.std.specs.Prelude.{◌≡◌, ◌<◌, ◌≤◌, ◌^◌, Option, IfSome, IsTrue};
ghost use Rattle.std.specs.Int.{div_ceil};
ghost use Rattle.sched_source.specs.Playback as spec;
ghost use Rattle.sched_source.specs.Playback.{IsPlayable};

/// The loop of a buffer source, in frames of its buffer: whether it loops (`loop`), the frame at which
/// the loop begins (`loopStart`), and the frame before which it ends (`loopEnd`).
///
/// Where these two are no loop within the buffer, the whole buffer loops.
#[derive(Clone, Copy, PartialEq, Eq)]
pub struct Loop {
    pub on: bool,
    pub first: i64,
    pub end: i64,
}

/// What a buffer source plays (AudioBufferSourceNode): its playback rate, which is whole, its loop, and
/// what `start` was given: the offset and the duration, and the length of the buffer. Until then the
/// offset and the length are 0.
#[derive(Clone, Copy, PartialEq, Eq)]
pub struct Content {
    pub(crate) rate: u32,
    pub(crate) points: Loop,
    pub(crate) offset: u64,
    pub(crate) duration: Option<u64>,
    pub(crate) length: u64,
}

impl Content {
    // What a source plays that was not started.
    pub(crate) fn unstarted(rate: u32, points: Loop) -> Content
        ensures { result ≡ spec.unstarted rate points }
    {
        Content {
            rate,
            points,
            offset: 0,
            duration: None,
            length: 0,
        }
    }

    // Whether `loopStart` and `loopEnd` are the loop's ends.
    #[tactic(auto, unfolding(crate::specs::Playback::has_points))]
    fn has_points(&self) -> bool
        ensures { result ≡ spec.has_points self.now }
    {
        let points = self.points;
        points.first >= 0
            && points.end > 0
            && points.first < points.end
            && points.first.unsigned_abs() < self.length
    }

    // The position at which the loop begins.
    #[tactic(auto, unfolding(crate::specs::Playback::loop_start))]
    pub(crate) fn loop_start(&self) -> u64
        ensures { result ≡ spec.loop_start self.now }
    {
        if self.has_points() {
            self.points.first.unsigned_abs()
        } else {
            0
        }
    }

    // The position before which the loop ends.
    #[tactic(auto, unfolding(crate::specs::Playback::loop_end))]
    pub(crate) fn loop_end(&self) -> u64
        ensures value { result ≡ spec.loop_end self.now }
        ensures within { result ≤ self.now.length }
    {
        if self.has_points() {
            self.points.end.unsigned_abs().min(self.length)
        } else {
            self.length
        }
    }

    // Whether it plays around a loop.
    pub(crate) fn is_looping(&self) -> bool
        ensures { result ≡ spec.is_looping self.now }
    {
        self.points.on && self.length > 0
    }

    // The end of what is played through: of the loop, or of the buffer.
    fn end(&self) -> u64
        ensures value { result ≡ spec.end_of self.now }
        ensures within { result ≤ self.now.length }
    {
        if self.points.on {
            self.loop_end()
        } else {
            self.length
        }
    }

    // The position at the start.
    fn first_position(&self) -> u64
        ensures value { result ≡ spec.first_position self.now }
        ensures within { result ≤ self.now.length }
    {
        self.offset.min(self.end())
    }

    // The position so many frames after the start, by one division.
    #[tactic(auto, using(crate::proofs::Positions::loop_order), unfolding(crate::specs::Playback::position))]
    pub(crate) fn position(&self, n: u64) -> u64
        requires content { IsPlayable self.now }
        requires fits { spec.position self.now n < 2 ^ 63 }
        ensures { result ≡ spec.position self.now n }
    {
        let at = self.first_position() as u128 + n as u128 * self.rate as u128;
        if !self.is_looping() {
            return at as u64;
        }
        let start = self.loop_start() as u128;
        let end = self.loop_end() as u128;
        if end <= at {
            (start + (at - start) % (end - start)) as u64
        } else {
            at as u64
        }
    }

    // How many frames of the buffer it plays, where there is a bound.
    fn content_played(&self) -> Option<u64>
        requires { IsPlayable self.now }
        ensures value { result ≡ spec.content_played self.now }
        ensures small { IfSome result (λ frames. frames ≤ 2 ^ 63) }
    {
        if self.is_looping() {
            return self.duration;
        }
        let left = self.length - self.first_position();
        match self.duration {
            Some(duration) => Some(left.min(duration)),
            None => Some(left),
        }
    }

    // In how many frames it plays them, where there is a bound.
    pub(crate) fn length_played(&self) -> Option<u64>
        requires { IsPlayable self.now }
        ensures value { result ≡ spec.length_played self.now }
        ensures small { IfSome result (λ frames. frames ≤ 2 ^ 63) }
    {
        match self.content_played() {
            Some(frames) => Some(frames_at(frames, self.rate)),
            None => None,
        }
    }
}

// In how many frames so many of a buffer are played at a rate: at 1 without a division, which would
// take longer than the copy of a quantum.
#[tactic(auto, using(crate::proofs::Positions::div_ceil_le, crate::proofs::Positions::div_ceil_one))]
fn frames_at(frames: u64, rate: u32) -> u64
    requires { 1 ≤ rate }
    ensures value { result ≡ div_ceil frames rate }
    ensures small { result ≤ frames }
{
    if rate == 1 {
        return frames;
    }
    frames.div_ceil(u64::from(rate))
}

// The content of a source that is started with these.
pub(crate) fn begun(
    content: Option<Content>,
    offset: i64,
    duration: Option<i64>,
    length: u64,
) -> Option<Content>
    requires content { IfSome content IsPlayable }
    requires length { length ≤ 2 ^ 62 }
    ensures value { result ≡ spec.begun content offset duration length }
    ensures playable { IfSome result IsPlayable }
{
    match content {
        Some(content) => Some(Content {
            offset: offset.unsigned_abs(),
            duration: absolute(duration),
            length,
            ..content
        }),
        None => None,
    }
}

// The content with another loop.
pub(crate) fn looped(content: Option<Content>, points: Loop) -> Option<Content>
    requires { IfSome content IsPlayable }
    ensures value { result ≡ spec.looped points content }
    ensures playable { IfSome result IsPlayable }
{
    match content {
        Some(content) => Some(Content { points, ..content }),
        None => None,
    }
}

fn absolute(duration: Option<i64>) -> Option<u64>
    ensures value { result ≡ spec.absolute duration }
    ensures small { IfSome result (λ frames. frames ≤ 2 ^ 63) }
{
    match duration {
        Some(duration) => Some(duration.unsigned_abs()),
        None => None,
    }
}
