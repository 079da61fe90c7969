ghost use Rattle.std.specs.Prelude.{◌≡◌, ◌≤◌, ◌<◌, ◌+◌, ℤ, List, length, take, drop, IfOk};
ghost use Rattle.node_table.specs.Convolutions.{convolution};
ghost use Rattle.convolve.specs.Responses.{IsResponse};
ghost use Rattle.convolve.specs.Lines.{in_front, silence, IsQuiet};

use crate::sums::output;
use std::alloc::Global;
use std::marker::Model;
use wa_base::{Fix, NoMemory};

// A line has room for at least so many frames besides those that it keeps.
const LEAST_SPARE: usize = 128;

// What is kept of a channel: the newest frames. Contracts see it as the list of them, the newest of all
// first.
#[derive(Drop)]
pub(crate) struct Line {
    // They lie from `start` on, and the next frame is written in front of them.
    samples: Vec<Fix>,
    start: usize,
    kept: usize,
    // So many of the newest are 0.
    quiet: usize,
}

impl Model for Line {
    ghost use Rattle.std.specs.Prelude.{List, ℤ};

    ghost Value = { List ℤ };

    ghost use Rattle.convolve.specs.LineInside.{frames_of, IsSound};

    ghost view = { frames_of };

    ghost invariant = { IsSound };
}

impl Line {
    // That of a channel that has heard nothing.
    pub(crate) fn new(alloc: Global, kept: usize) -> Result<Line, NoMemory>
        requires { kept ≤ 16384 }
        ensures { IfOk result (λ line. line ≡ silence kept) }
    {
        let spare = kept.max(LEAST_SPARE);
        Ok(Line {
            samples: vec![in alloc; 0; spare + kept]?,
            start: spare,
            kept,
            quiet: kept,
        })
    }

    // Hears one frame, and gives the output at it. Where all that is kept is 0, no product is made.
    pub(crate) fn hear(&mut self, response: &[Fix], x: Fix) -> Fix
        requires response { IsResponse response.now }
        requires kept { length self.old ≡ length response.now }
        ensures kept { self.new ≡ in_front x self.old }
        ensures output { result ≡ convolution response.now self.new }
    {
        self.push(x);
        if self.quiet == self.kept {
            return 0;
        }
        output(response, &self.samples[self.start..self.start + self.kept])
    }

    // Puts a frame in front; the oldest one is dropped.
    fn push(&mut self, x: Fix)
        ensures { self.new ≡ in_front x self.old }
    {
        let start = room_in_front(&mut self.samples, self.start, self.kept) - 1;
        self.samples[start] = x;
        self.start = start;
        self.quiet = quiet_after(self.quiet, self.kept, x);
    }
}

// Where the newest frames begin, once there is room in front of them: if need be they are moved to the
// end.
fn room_in_front(samples: &mut [Fix], start: usize, kept: usize) -> usize
    requires there { start + kept ≤ length samples.old }
    requires spare { kept < length samples.old }
    ensures some { 1 ≤ result }
    ensures there { result + kept ≤ length samples.old }
    ensures same { take kept (drop result samples.new) ≡ take kept (drop start samples.old) }
{
    if start > 0 {
        return start;
    }
    let end = samples.len() - kept;
    samples.copy_within(..kept, end);
    end
}

// How many of the newest frames are 0, of so many that are kept, after one more.
fn quiet_after(quiet: usize, kept: usize, x: Fix) -> usize
    requires { quiet ≤ kept }
    ensures few { result ≤ kept }
    ensures zeros { (frames : List ℤ) → length frames ≡ kept → IsQuiet quiet frames → IsQuiet result (in_front x frames) }
{
    if x != 0 {
        0
    } else if quiet < kept {
        quiet + 1
    } else {
        kept
    }
}
