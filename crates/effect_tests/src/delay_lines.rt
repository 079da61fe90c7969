use crate::tried::Tried;
use std::alloc::Global;
use std::test::Fail;
use wa_base::{Fix, Interp, NoMemory};

const SPEAKERS: Interp = Interp::Speakers;

// A line for delays of at most 8 frames and blocks of 4, with so many of the numbers from 1 on written
// to its one channel.
fn counting(alloc: Global, blocks: u16) -> Result<Tried, NoMemory> {
    let mut line = Tried::new(alloc, 8, 4)?;
    for n in 0..blocks {
        let first = 4 * i32::from(n);
        let _ = line.write(&[first + 1, first + 2, first + 3, first + 4], 1)?;
    }
    Ok(line)
}

// What one channel of a block of 4 frames reads, if all of it can be read.
fn mono(line: &Tried, first: u64, delays: [u64; 4]) -> Option<[Fix; 4]> {
    let mut out = [-1; 4];
    if line.read(&mut out, 1, first, &delays, SPEAKERS) {
        Some(out)
    } else {
        None
    }
}

#[test]
fn an_echo_comes_after_its_delay(rt: HostRuntime) -> Result<(), Fail> {
    let line = counting(rt.alloc(), 3)?;
    assert!(rt; mono(&line, 8, [0; 4]) == Some([9, 10, 11, 12]));
    assert!(rt; mono(&line, 8, [2; 4]) == Some([7, 8, 9, 10]));
    assert!(rt; mono(&line, 8, [4; 4]) == Some([5, 6, 7, 8]));
    assert!(rt; mono(&line, 8, [8; 4]) == Some([1, 2, 3, 4]));
    Ok(())
}

#[test]
fn nothing_sounds_before_birth(rt: HostRuntime) -> Result<(), Fail> {
    let line = counting(rt.alloc(), 1)?;
    assert!(rt; mono(&line, 0, [3; 4]) == Some([0, 0, 0, 1]));
    assert!(rt; mono(&line, 0, [4; 4]) == Some([0; 4]));
    assert!(rt; mono(&line, 0, [0, 1, 3, u64::MAX]) == Some([1, 1, 0, 0]));
    let unborn = counting(rt.alloc(), 0)?;
    assert!(rt; mono(&unborn, 0, [1, 2, 3, 4]) == Some([0; 4]));
    assert!(rt; mono(&unborn, 0, [0; 4]).is_none());
    Ok(())
}

#[test]
fn a_reader_in_a_cycle_is_a_block_ahead(rt: HostRuntime) -> Result<(), Fail> {
    let line = counting(rt.alloc(), 3)?;
    assert!(rt; mono(&line, 12, [4; 4]) == Some([9, 10, 11, 12]));
    assert!(rt; mono(&line, 12, [8; 4]) == Some([5, 6, 7, 8]));
    assert!(rt; mono(&line, 12, [12; 4]) == Some([1, 2, 3, 4]));
    // What is not written yet, and what is not kept any more, can't be read.
    assert!(rt; mono(&line, 12, [3; 4]).is_none());
    let later = counting(rt.alloc(), 4)?;
    assert!(rt; mono(&later, 12, [8; 4]) == Some([5, 6, 7, 8]));
    assert!(rt; mono(&later, 12, [9; 4]).is_none());
    Ok(())
}

#[test]
fn each_frame_has_a_delay_of_its_own(rt: HostRuntime) -> Result<(), Fail> {
    let line = counting(rt.alloc(), 1_000)?;
    assert!(rt; mono(&line, 3_996, [0, 1, 2, 3]) == Some([3_997; 4]));
    assert!(rt; mono(&line, 3_996, [8, 6, 4, 2]) == Some([3_989, 3_992, 3_995, 3_998]));
    assert!(rt; mono(&line, 3_996, [0, 8, 0, 8]) == Some([3_997, 3_990, 3_999, 3_992]));
    Ok(())
}

// What two channels of a block read.
fn stereo(line: &Tried, first: u64, delay: u64, interp: Interp) -> Option<[Fix; 8]> {
    let mut out = [-1; 8];
    if line.read(&mut out, 2, first, &[delay; 4], interp) {
        Some(out)
    } else {
        None
    }
}

#[test]
fn a_mono_past_is_heard_on_both_sides(rt: HostRuntime) -> Result<(), Fail> {
    let mut line = counting(rt.alloc(), 1)?;
    assert!(rt; line.write(&[5, 6, 7, 8, -5, -6, -7, -8], 2)?);
    assert!(rt; stereo(&line, 4, 2, SPEAKERS) == Some([3, 4, 5, 6, 3, 4, -5, -6]));
    assert!(rt; stereo(&line, 4, 2, Interp::Discrete) == Some([3, 4, 5, 6, 0, 0, -5, -6]));
    // And a mono present after a stereo past.
    assert!(rt; line.write(&[9, 10, 11, 12], 1)?);
    assert!(rt; stereo(&line, 8, 2, SPEAKERS) == Some([7, 8, 9, 10, -7, -8, 9, 10]));
    assert!(rt; stereo(&line, 8, 6, SPEAKERS) == Some([3, 4, 5, 6, 3, 4, -5, -6]));
    Ok(())
}

#[test]
fn a_past_is_mixed_up_to_more_loudspeakers(rt: HostRuntime) -> Result<(), Fail> {
    let mut line = Tried::new(rt.alloc(), 3, 1)?;
    assert!(rt; line.write(&[1], 1)?);
    assert!(rt; line.write(&[2, 3], 2)?);
    assert!(rt; line.write(&[4, 5, 6, 7], 4)?);
    assert!(rt; line.write(&[8, 9, 10, 11, 12, 13], 6)?);
    for (delay, want) in [
        (0, [8, 9, 10, 11, 12, 13]),
        (1, [4, 5, 0, 0, 6, 7]),
        (2, [2, 3, 0, 0, 0, 0]),
        (3, [0, 0, 1, 0, 0, 0]),
        (4, [0; 6]),
    ] {
        let mut out = [-1; 6];
        assert!(rt; line.read(&mut out, 6, 3, &[delay], SPEAKERS));
        assert!(rt; out == want, "{delay}");
    }
    Ok(())
}

// A channel that comes late was silent before.
#[test]
fn channels_come_and_go(rt: HostRuntime) -> Result<(), Fail> {
    let mut line = Tried::new(rt.alloc(), 4, 2)?;
    assert!(rt; line.write(&[1, 2], 1)?);
    assert!(rt; line.write(&[3, 4, 5, 6, 7, 8], 3)?);
    let mut out = [-1; 6];
    assert!(rt; line.read(&mut out, 3, 2, &[1, 1], SPEAKERS));
    assert!(rt; out == [2, 3, 0, 5, 0, 7]);
    assert!(rt; line.write(&[9, 10], 1)?);
    assert!(rt; line.read(&mut out, 3, 4, &[1, 1], SPEAKERS));
    assert!(rt; out == [4, 9, 6, 0, 8, 0]);
    assert!(rt; line.read(&mut out, 3, 4, &[4, 3], SPEAKERS));
    assert!(rt; out == [1, 3, 0, 5, 0, 7]);
    Ok(())
}
