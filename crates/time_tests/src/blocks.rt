ghost use Rattle.std.specs.Prelude.{◌≡◌, length, ◌+◌, ◌<◌, ◌≤◌, ◌^◌};
ghost use Rattle.param_cursor.specs.Cursors.{place_at};

use crate::random::{Random, timeline};
use crate::search::value_by_search;
use param_cursor::{Cursor, Drawn};
use param_events::Timeline;
use std::alloc::Global;
use std::marker::Brand;
use std::sync::ledger::{Blank, Ledger};
use std::test::Fail;
use wa_base::{Fix, NoMemory, Steps};

// Whether each value of a block is the one that a search finds.
fn is_as_found<L: Ledger>(out: &[Fix], first: u64, line: &Timeline, steps: &mut Steps<L>) -> bool {
    let mut is_same = true;
    for (m, value) in out.iter().enumerate() {
        let found = value_by_search(line, first.wrapping_add(m as u64), steps);
        is_same = is_same && *value as i128 == found;
    }
    is_same
}

// Whether a block, of one value, on a ramp or drawn, has the values that a search finds.
fn is_drawn_as_found<L: Ledger>(
    cursor: &mut Cursor,
    out: &mut [Fix],
    first: u64,
    line: &Timeline,
    steps: &mut Steps<L>,
) -> bool
    requires first { first ≤ 2 ^ 62 }
    requires frames { length out.old ≤ 1024 }
    requires stands { cursor.old ≡ place_at first line.now.events }
    ensures length { length out.new ≡ length out.old }
    ensures stands { cursor.new ≡ place_at (first + length out.new) line.now.events }
{
    match cursor.draw(out, first, line, steps) {
        Drawn::Stays(stay) => out.fill(stay.value),
        Drawn::Rises(ramp) => ramp.write(out),
        Drawn::Each => {}
    }
    is_as_found(out, first, line, steps)
}

// Whether three blocks, one after the other, have the values that a search finds.
fn blocks_are_as_found<L: Ledger>(
    line: &Timeline,
    first: u64,
    count: usize,
    steps: &mut Steps<L>,
) -> bool
    requires first { first ≤ 2 ^ 61 }
    requires count { count ≤ 1024 }
{
    let mut out = [0; 1_024];
    let block = &mut out[..count];
    let second = first + count as u64;
    let third = second + count as u64;
    let mut cursor = Cursor::new();
    cursor.reseek(first, line, steps);
    let one = is_drawn_as_found(&mut cursor, block, first, line, steps);
    cursor.fill(block, second, line, steps);
    let two = is_as_found(block, second, line, steps);
    one && two && is_drawn_as_found(&mut cursor, block, third, line, steps)
}

// Whether the blocks of so many random timelines have the values that a search finds.
fn all_are_as_found<L: Ledger>(
    alloc: Global,
    random: &mut Random,
    count: usize,
    blank: Blank,
) -> Result<bool, NoMemory>
    requires name { blank.name ≡ L.name }
    requires parts { blank.parts ≡ L.parts }
    requires some { 0 < L.parts }
    requires count { count ≤ 1024 }
{
    let mut steps: Steps<L> = Steps::new(blank);
    let mut is_same = true;
    for _ in 0..3_400 {
        let line = timeline(alloc, random)?;
        let near = random.below(320);
        let far = (1 << 40) - 20 + random.below(40);
        is_same = is_same
            && blocks_are_as_found(&line, near, count, &mut steps)
            && blocks_are_as_found(&line, far, count, &mut steps);
    }
    Ok(is_same)
}

// The same, by a counter that nobody reads.
fn are_as_found(alloc: Global, seed: u64, count: usize) -> Result<bool, NoMemory>
    requires { count ≤ 1024 }
{
    let mut random = Random::new(seed);
    all_are_as_found::<Brand>(alloc, &mut random, count, Blank::new(1))
}

#[test]
fn blocks_of_one_frame_are_as_a_search_finds_them(rt: HostRuntime) -> Result<(), Fail> {
    assert!(rt; are_as_found(rt.alloc(), 1, 1)?);
    Ok(())
}

#[test]
fn blocks_of_32_frames_are_as_a_search_finds_them(rt: HostRuntime) -> Result<(), Fail> {
    assert!(rt; are_as_found(rt.alloc(), 32, 32)?);
    Ok(())
}

#[test]
fn blocks_of_1024_frames_are_as_a_search_finds_them(rt: HostRuntime) -> Result<(), Fail> {
    assert!(rt; are_as_found(rt.alloc(), 1_024, 1_024)?);
    Ok(())
}
