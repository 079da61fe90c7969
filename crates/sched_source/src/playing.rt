ghost use Rattle.std.specs.Prelude.{◌≡◌, ◌<◌, ◌≤◌, ◌+◌, ◌-◌, ◌*◌, ◌%◌, ◌^◌, ◌++◌, ℕ, length, take, drop, pos, min, max, Option, Some, if◌then◌else◌, IsTrue};
ghost use Rattle.std.specs.Int.{div_ceil};
ghost use Rattle.sched_source.specs.Drawing.{at as sample, IsDrawn, around, index_of, end_index};
ghost use Rattle.sched_source.specs.Playback.{IsPlayable, position};
ghost use Rattle.sched_source.specs.Schedule.{is_between};

use crate::content::Content;
use wa_base::{Channel, Fix};

// The frames from which and before which a source sounds.
#[derive(Clone, Copy)]
pub(crate) struct Span {
    pub(crate) start: u64,
    pub(crate) end: Option<u64>,
}

// A position within a loop, and by how much it moves in a frame.
#[derive(Clone, Copy)]
struct Round {
    start: usize,
    end: usize,
    at: usize,
    jump: usize,
}

/// What a source plays of a channel of its buffer, from a frame on, and silence where it does not sound.
pub(crate) fn play_span(
    out: &mut [Fix],
    channel: &Channel<'_>,
    first: u64,
    span: Span,
    content: &Content,
)
    requires frames { length out.old ≤ 1024 }
    requires first { first ≤ 2 ^ 62 }
    requires content { IsPlayable content.now }
    requires channel { content.now.length ≡ length channel.now }
    requires inside { (frame : ℕ) → IsTrue (is_between (Some span.start) span.end frame) → position content.now (frame - span.start) < content.now.length }
    ensures { (m : ℕ) → m < length out.new → sample out.new m ≡ (if is_between (Some span.start) span.end (first + m) then sample channel.now (position content.now (first + m - span.start)) else pos 0) }
{
    let count = out.len();
    let from = first_index(span.start, first, count);
    let to = last_index(span.end, first, count).max(from);
    draw_silence(out, 0, from);
    draw_silence(out, to, count);
    if from == to {
        return;
    }
    draw_content(
        out,
        from,
        to,
        channel,
        content,
        first + from as u64 - span.start,
    );
}

// The index at which a frame comes, or the end where it comes later.
fn first_index(frame: u64, first: u64, count: usize) -> usize
    requires { count ≤ 1024 }
    ensures { result ≡ index_of frame first count }
{
    frame.saturating_sub(first).min(count as u64) as usize
}

fn last_index(end: Option<u64>, first: u64, count: usize) -> usize
    requires { count ≤ 1024 }
    ensures { result ≡ end_index end first count }
{
    match end {
        Some(end) => first_index(end, first, count),
        None => count,
    }
}

/// Silence.
pub(crate) fn silence(out: &mut [Fix])
    ensures { (m : ℕ) → m < length out.new → sample out.new m ≡ pos 0 }
{
    draw_silence(out, 0, out.len());
}

// Silence from one index to before another.
fn draw_silence(out: &mut [Fix], from: usize, to: usize)
    requires { (from ≤ to) × (to ≤ length out.old) }
    ensures { IsDrawn out.old out.new from to (λ m. pos 0) }
{
    for m in from..to {
        out[m] = 0;
    }
}

// Frames that are all played, of which the first comes so many after the start: straight on, and then
// around the loop.
fn draw_content(
    out: &mut [Fix],
    from: usize,
    to: usize,
    channel: &Channel<'_>,
    content: &Content,
    n: u64,
)
    requires ends { (from < to) × (to ≤ length out.old) }
    requires frames { length out.old ≤ 1024 }
    requires n { n ≤ 2 ^ 63 }
    requires content { IsPlayable content.now }
    requires channel { content.now.length ≡ length channel.now }
    requires inside { (m : ℕ) → from ≤ m → m < to → position content.now (n + (m - from)) < content.now.length }
    ensures { IsDrawn out.old out.new from to (λ m. sample channel.now (position content.now (n + (m - from)))) }
{
    let at = content.position(n) as usize;
    let rate = content.rate as usize;
    if !content.is_looping() {
        draw_straight(out, from, to, channel, at, rate);
        return;
    }
    let end = content.loop_end() as usize;
    let stop = from + frames_before(at, end, rate).min(to - from);
    draw_straight(out, from, stop, channel, at, rate);
    if stop == to {
        return;
    }
    let start = content.loop_start() as usize;
    let round = Round {
        start,
        end,
        at: content.position(n + (stop - from) as u64) as usize,
        jump: rate % (end - start),
    };
    draw_around(out, stop, to, channel, round);
}

// In how many frames a position comes to an end or past it.
fn frames_before(at: usize, end: usize, rate: usize) -> usize
    requires order { at < end }
    requires rate { 1 ≤ rate }
    ensures { result ≡ div_ceil (end - at) rate }
{
    (end - at).div_ceil(rate)
}

// The samples of a channel from a position on, each so many frames after the one before.
fn draw_straight(
    out: &mut [Fix],
    from: usize,
    to: usize,
    channel: &Channel<'_>,
    at: usize,
    rate: usize,
)
    requires ends { (from < to) × (to ≤ length out.old) }
    requires memory { length channel.now ≤ 2 ^ 62 }
    requires rate { rate < 2 ^ 32 }
    requires inside { (m : ℕ) → from ≤ m → m < to → at + (m - from) * rate < length channel.now }
    ensures { IsDrawn out.old out.new from to (λ m. sample channel.now (at + (m - from) * rate)) }
{
    if rate == 1 {
        channel.read(at, &mut out[from..to]);
        return;
    }
    let mut next = at;
    for m in from..to {
        out[m] = channel.get(next);
        next += rate;
    }
}

// The samples of a loop, over and over.
fn draw_around(out: &mut [Fix], from: usize, to: usize, channel: &Channel<'_>, round: Round)
    requires ends { (from ≤ to) × (to ≤ length out.old) }
    requires memory { length channel.now ≤ 2 ^ 62 }
    requires inside { (round.start ≤ round.at) × (round.at < round.end) × (round.end ≤ length channel.now) }
    requires jump { round.jump < round.end - round.start }
    ensures { IsDrawn out.old out.new from to (λ m. sample channel.now (around round.start round.end round.at round.jump (m - from))) }
{
    if round.jump == 1 {
        draw_rounds(out, from, to, channel, round);
        return;
    }
    draw_jumps(out, from, to, channel, round);
}

// The same where the position moves by one: each round is one copy.
fn draw_rounds(out: &mut [Fix], from: usize, to: usize, channel: &Channel<'_>, round: Round)
    requires ends { (from ≤ to) × (to ≤ length out.old) }
    requires memory { length channel.now ≤ 2 ^ 62 }
    requires inside { (round.start ≤ round.at) × (round.at < round.end) × (round.end ≤ length channel.now) }
    ensures { IsDrawn out.old out.new from to (λ m. sample channel.now (around round.start round.end round.at 1 (m - from))) }
{
    let mut m = from;
    let mut at = round.at;
    while m < to {
        let count = (round.end - at).min(to - m);
        channel.read(at, &mut out[m..m + count]);
        m += count;
        at = round.start;
    }
}

// The same where it moves by other jumps: a frame takes an addition and a comparison.
fn draw_jumps(out: &mut [Fix], from: usize, to: usize, channel: &Channel<'_>, round: Round)
    requires ends { (from ≤ to) × (to ≤ length out.old) }
    requires memory { length channel.now ≤ 2 ^ 62 }
    requires inside { (round.start ≤ round.at) × (round.at < round.end) × (round.end ≤ length channel.now) }
    requires jump { round.jump < round.end - round.start }
    ensures { IsDrawn out.old out.new from to (λ m. sample channel.now (around round.start round.end round.at round.jump (m - from))) }
{
    let mut at = round.at;
    for m in from..to {
        out[m] = channel.get(at);
        at = moved(at, &round);
    }
}

// The next position.
#[tactic(auto, using(crate::proofs::Rounds::moved_within, crate::proofs::Rounds::moved_past))]
fn moved(at: usize, round: &Round) -> usize
    requires inside { (round.now.start ≤ at) × (at < round.now.end) × (round.now.end ≤ 2 ^ 62) }
    requires jump { round.now.jump < round.now.end - round.now.start }
    ensures { result ≡ around round.now.start round.now.end at round.now.jump 1 }
{
    let next = at + round.jump;
    if next < round.end {
        next
    } else {
        next - (round.end - round.start)
    }
}
