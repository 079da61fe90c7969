ghost use Rattle.std.specs.Prelude.{◌≡◌, length, ◌<◌, ◌≤◌};

use param_cursor::Cursor;
use param_events::{ParamErr, Timeline};
use std::alloc::Global;
use std::marker::Brand;
use std::sync::ledger::{Blank, Ledger};
use std::test::Fail;
use wa_base::{Fix, Steps};

// From the least value at frame 0 to the greatest in 2^40 frames.
fn slow_ramp(alloc: Global) -> Result<Timeline, ParamErr> {
    let mut line = Timeline::new(alloc, 0);
    line.set_value(0, -2_147_483_648, 0)?;
    line.ramp(0, 2_147_483_647, 1 << 40)?;
    Ok(line)
}

// Fills a block from a frame on, where the cursor is moved to.
fn fill_at<L: Ledger>(out: &mut [Fix], first: u64, line: &Timeline, steps: &mut Steps<L>)
    requires first { first ≤ 1000 }
    requires frames { length out.old ≤ 1024 }
    ensures { length out.new ≡ length out.old }
{
    let mut cursor = Cursor::new();
    cursor.reseek(first, line, steps);
    cursor.fill(out, first, line, steps);
}

// Whether the first 129 frames have the least value, and the next one the value above it.
fn rises_after_129_frames<L: Ledger>(alloc: Global, blank: Blank) -> Result<bool, ParamErr>
    requires name { blank.name ≡ L.name }
    requires parts { blank.parts ≡ L.parts }
    requires some { 0 < L.parts }
{
    let mut steps: Steps<L> = Steps::new(blank);
    let line = slow_ramp(alloc)?;
    let mut quantum = [0; 128];
    fill_at(&mut quantum, 0, &line, &mut steps);
    let is_flat = quantum.iter().all(|value| *value == -2_147_483_648);
    fill_at(&mut quantum, 128, &line, &mut steps);
    Ok(is_flat && quantum[0] == -2_147_483_648 && quantum[1] == -2_147_483_647)
}

fn slow_ramp_rises(alloc: Global) -> Result<bool, ParamErr> {
    rises_after_129_frames::<Brand>(alloc, Blank::new(1))
}

#[test]
fn a_ramp_over_2_to_the_40_frames_rises_by_one_after_129(rt: HostRuntime) -> Result<(), Fail> {
    assert!(rt; matches!(slow_ramp_rises(rt.alloc()), Ok(true)));
    Ok(())
}

// 20,000 events: from frame 1,600 k on the value is k.
fn many_sets(alloc: Global) -> Result<Timeline, ParamErr> {
    let mut line = Timeline::new(alloc, 0);
    for k in 0..20_000 {
        line.set_value(0, k, 1_600 * k as i64)?;
    }
    Ok(line)
}

fn sum_of(values: &[Fix]) -> i64 {
    let mut sum: i64 = 0;
    for value in values {
        sum = sum.wrapping_add(*value as i64);
    }
    sum
}

// The sum of the values of 33,554,432 frames, block after block.
fn sum_of_blocks<L: Ledger>(line: &Timeline, steps: &mut Steps<L>) -> i64 {
    let mut out = [0; 1_024];
    let mut sum: i64 = 0;
    let mut cursor = Cursor::new();
    cursor.reseek(0, line, steps);
    for block in 0..32_768 {
        cursor.fill(&mut out, 1_024 * block, line, steps);
        sum = sum.wrapping_add(sum_of(&out));
    }
    sum
}

fn counted_sum<L: Ledger>(alloc: Global, blank: Blank) -> Result<i64, ParamErr>
    requires name { blank.name ≡ L.name }
    requires parts { blank.parts ≡ L.parts }
    requires some { 0 < L.parts }
{
    let mut steps: Steps<L> = Steps::new(blank);
    let line = many_sets(alloc)?;
    Ok(sum_of_blocks(&line, &mut steps))
}

fn sum_of_many_sets(alloc: Global) -> Result<i64, ParamErr> {
    counted_sum::<Brand>(alloc, Blank::new(1))
}

// A scan of all events for every frame would take hours.
#[test]
fn each_block_looks_at_its_own_events(rt: HostRuntime) -> Result<(), Fail> {
    assert!(rt; matches!(sum_of_many_sets(rt.alloc()), Ok(351_071_085_568)));
    Ok(())
}
