ghost use Rattle.std.specs.Prelude.{◌≡◌, length};

use node_table::{Causal, Code, Instr, Program};
use std::alloc::Global;
use std::test::Fail;
use wa_base::{Fix, NoMemory};
use worklet::{Processor, ProgErr, check, frame};

// The mean of the input and the last output.
const SMOOTHER: [Instr; 6] = [
    Instr::Load(0),
    Instr::Input,
    Instr::Add,
    Instr::Div(2),
    Instr::Dup,
    Instr::Store(0),
];

// The absolute value of the input, and 5 where that is 0.
const ABSOLUTE: [Instr; 9] = [
    Instr::Input,
    Instr::Dup,
    Instr::Neg,
    Instr::Max,
    Instr::Dup,
    Instr::Skipz(1),
    Instr::Skip(2),
    Instr::Discard,
    Instr::Push(5),
];

// Adds up the inputs, and 1 at each frame.
const ADDER: [Instr; 7] = [
    Instr::Load(15),
    Instr::Input,
    Instr::Add,
    Instr::Push(1),
    Instr::Add,
    Instr::Dup,
    Instr::Store(15),
];

fn checked(alloc: Global, code: &[Instr]) -> Result<Result<Program, ProgErr>, NoMemory> {
    let code = Code::from(Vec::from_slice(alloc, code)?);
    Ok(check(alloc, &code))
}

// The error of a code, or none where it is accepted.
fn judged(alloc: Global, code: &[Instr]) -> Result<Option<ProgErr>, NoMemory> {
    Ok(checked(alloc, code)?.err())
}

// The first output of a code, or none where it has an error.
fn output(alloc: Global, code: &[Instr], x: Fix) -> Result<Option<Fix>, NoMemory> {
    let Ok(program) = checked(alloc, code)? else {
        return Ok(None);
    };
    let mut cells = [0; 16];
    Ok(Some(frame(&program, &mut cells, x)))
}

// The first instruction, so many of the second, and the last one.
fn repeated(
    alloc: Global,
    first: Instr,
    count: usize,
    second: Instr,
    last: Instr,
) -> Result<Vec<Instr>, NoMemory> {
    let mut code = vec![in alloc; first]?;
    for _ in 0..count {
        code.push(second)?;
    }
    code.push(last)?;
    Ok(code)
}

#[test]
fn programs_that_are_accepted(rt: HostRuntime) -> Result<(), Fail> {
    let alloc = rt.alloc();
    assert_eq!(rt; judged(alloc, &[Instr::Input])?, None);
    assert_eq!(rt; judged(alloc, &SMOOTHER)?, None);
    assert_eq!(rt; judged(alloc, &ABSOLUTE)?, None);
    assert_eq!(rt; judged(alloc, &ADDER)?, None);
    assert_eq!(rt; judged(alloc, &[Instr::Load(15)])?, None);
    assert_eq!(rt; judged(alloc, &[Instr::Input, Instr::Div(u32::MAX)])?, None);
    Ok(())
}

#[test]
fn the_lengths_of_programs(rt: HostRuntime) -> Result<(), Fail> {
    let alloc = rt.alloc();
    let most = repeated(alloc, Instr::Input, 254, Instr::Neg, Instr::Neg)?;
    let more = repeated(alloc, Instr::Input, 255, Instr::Neg, Instr::Neg)?;
    let none: &[Instr] = &[];
    assert_eq!(rt; judged(alloc, none)?, Some(ProgErr::BadLength(0)));
    assert_eq!(rt; judged(alloc, &most)?, None);
    assert_eq!(rt; judged(alloc, &more)?, Some(ProgErr::BadLength(257)));
    Ok(())
}

#[test]
fn places_that_are_reached_by_none_or_unevenly(rt: HostRuntime) -> Result<(), Fail> {
    let alloc = rt.alloc();
    let first = [Instr::Skip(1), Instr::Input, Instr::Input];
    let middle = [Instr::Input, Instr::Skip(1), Instr::Neg, Instr::Neg];
    let last = [Instr::Input, Instr::Neg, Instr::Skip(1), Instr::Neg];
    assert_eq!(rt; judged(alloc, &first)?, Some(ProgErr::Unreached(1)));
    assert_eq!(rt; judged(alloc, &middle)?, Some(ProgErr::Unreached(2)));
    assert_eq!(rt; judged(alloc, &last)?, Some(ProgErr::Unreached(3)));
    let end = [Instr::Input, Instr::Skipz(1), Instr::Push(5)];
    let early = [
        Instr::Input,
        Instr::Skipz(1),
        Instr::Push(5),
        Instr::Neg,
        Instr::Neg,
    ];
    let late = [
        Instr::Input,
        Instr::Dup,
        Instr::Skipz(1),
        Instr::Dup,
        Instr::Neg,
    ];
    assert_eq!(rt; judged(alloc, &end)?, Some(ProgErr::Uneven(3)));
    assert_eq!(rt; judged(alloc, &early)?, Some(ProgErr::Uneven(3)));
    assert_eq!(rt; judged(alloc, &late)?, Some(ProgErr::Uneven(4)));
    Ok(())
}

#[test]
fn cells_and_divisors_that_are_missing(rt: HostRuntime) -> Result<(), Fail> {
    let alloc = rt.alloc();
    let middle = [Instr::Input, Instr::Load(16), Instr::Add];
    let last = [Instr::Input, Instr::Dup, Instr::Store(16)];
    assert_eq!(rt;
        judged(alloc, &[Instr::Store(16)])?,
        Some(ProgErr::BadCell(0))
    );
    assert_eq!(rt; judged(alloc, &middle)?, Some(ProgErr::BadCell(1)));
    assert_eq!(rt; judged(alloc, &last)?, Some(ProgErr::BadCell(2)));
    let middle = [Instr::Input, Instr::Div(0), Instr::Neg];
    let last = [Instr::Input, Instr::Neg, Instr::Div(0)];
    assert_eq!(rt;
        judged(alloc, &[Instr::Div(0)])?,
        Some(ProgErr::BadDivisor(0))
    );
    assert_eq!(rt; judged(alloc, &middle)?, Some(ProgErr::BadDivisor(1)));
    assert_eq!(rt; judged(alloc, &last)?, Some(ProgErr::BadDivisor(2)));
    Ok(())
}

#[test]
fn jumps_past_the_end(rt: HostRuntime) -> Result<(), Fail> {
    let alloc = rt.alloc();
    let middle = [Instr::Input, Instr::Skip(2), Instr::Neg];
    let last = [Instr::Input, Instr::Dup, Instr::Skipz(1)];
    let far = [Instr::Input, Instr::Dup, Instr::Skipz(u32::MAX)];
    assert_eq!(rt;
        judged(alloc, &[Instr::Skip(1)])?,
        Some(ProgErr::BadJump(0))
    );
    assert_eq!(rt; judged(alloc, &middle)?, Some(ProgErr::BadJump(1)));
    assert_eq!(rt; judged(alloc, &last)?, Some(ProgErr::BadJump(2)));
    assert_eq!(rt; judged(alloc, &far)?, Some(ProgErr::BadJump(2)));
    Ok(())
}

#[test]
fn heights_that_are_too_low_or_too_great(rt: HostRuntime) -> Result<(), Fail> {
    let alloc = rt.alloc();
    let middle = [Instr::Input, Instr::Add, Instr::Neg];
    let last = [Instr::Input, Instr::Neg, Instr::Swap];
    assert_eq!(rt; judged(alloc, &[Instr::Add])?, Some(ProgErr::Underflow(0)));
    assert_eq!(rt; judged(alloc, &middle)?, Some(ProgErr::Underflow(1)));
    assert_eq!(rt; judged(alloc, &last)?, Some(ProgErr::Underflow(2)));
    let deepest = repeated(alloc, Instr::Input, 30, Instr::Dup, Instr::Dup)?;
    let first = repeated(alloc, Instr::Input, 32, Instr::Dup, Instr::Add)?;
    let later = repeated(alloc, Instr::Skip(0), 32, Instr::Input, Instr::Load(0))?;
    assert_eq!(rt; judged(alloc, &deepest)?, Some(ProgErr::BadEnd(32)));
    assert_eq!(rt; judged(alloc, &first)?, Some(ProgErr::TooDeep(32)));
    assert_eq!(rt; judged(alloc, &later)?, Some(ProgErr::TooDeep(33)));
    assert_eq!(rt; judged(alloc, &[Instr::Skip(0)])?, Some(ProgErr::BadEnd(0)));
    assert_eq!(rt;
        judged(alloc, &[Instr::Input, Instr::Dup])?,
        Some(ProgErr::BadEnd(2))
    );
    Ok(())
}

#[test]
fn instructions_by_hand(rt: HostRuntime) -> Result<(), Fail> {
    let alloc = rt.alloc();
    let less = [Instr::Input, Instr::Push(10), Instr::Sub];
    let turned = [Instr::Input, Instr::Push(10), Instr::Swap, Instr::Sub];
    let half = [Instr::Input, Instr::Push(8_388_608), Instr::Mul];
    let halves = [Instr::Input, Instr::Div(2)];
    let least = [Instr::Input, Instr::Push(5), Instr::Min];
    let twice = [Instr::Input, Instr::Dup, Instr::Add];
    let kept = [Instr::Input, Instr::Push(9), Instr::Discard];
    assert_eq!(rt; output(alloc, &less, 3)?, Some(-7));
    assert_eq!(rt; output(alloc, &less, i32::MIN)?, Some(i32::MIN));
    assert_eq!(rt; output(alloc, &turned, 3)?, Some(7));
    assert_eq!(rt; output(alloc, &half, 3)?, Some(2));
    assert_eq!(rt; output(alloc, &half, -3)?, Some(-1));
    assert_eq!(rt; output(alloc, &halves, 3)?, Some(2));
    assert_eq!(rt; output(alloc, &halves, -3)?, Some(-1));
    assert_eq!(rt; output(alloc, &least, 7)?, Some(5));
    assert_eq!(rt; output(alloc, &twice, i32::MAX)?, Some(i32::MAX));
    assert_eq!(rt; output(alloc, &kept, 7)?, Some(7));
    assert_eq!(rt; output(alloc, &ABSOLUTE, -7)?, Some(7));
    assert_eq!(rt; output(alloc, &ABSOLUTE, i32::MIN)?, Some(i32::MAX));
    assert_eq!(rt; output(alloc, &ABSOLUTE, 0)?, Some(5));
    Ok(())
}

// The outputs of a block of two channels, four frames each.
fn block_of(alloc: Global, code: &[Instr], x: &[Fix; 8]) -> Result<[Fix; 8], NoMemory> {
    let mut y = [0; 8];
    let Ok(program) = checked(alloc, code)? else {
        return Ok(y);
    };
    let mut processor = Processor::new(alloc, program);
    processor.grow(2)?;
    processor.block(x, &mut y, 4);
    Ok(y)
}

// The same, a frame at a time and a channel after the other.
fn frames_of(alloc: Global, code: &[Instr], x: &[Fix; 8]) -> Result<[Fix; 8], NoMemory> {
    let mut y = [0; 8];
    let Ok(program) = checked(alloc, code)? else {
        return Ok(y);
    };
    let mut left = [0; 16];
    let mut right = [0; 16];
    for k in 0..4 {
        y[k] = frame(&program, &mut left, x[k]);
        y[k + 4] = frame(&program, &mut right, x[k + 4]);
    }
    Ok(y)
}

#[test]
fn a_block_is_its_frames(rt: HostRuntime) -> Result<(), Fail> {
    let alloc = rt.alloc();
    let half = 8_388_608;
    let x = [half, half, half, 0, 1, 2, 3, i32::MIN];
    let smoothed = [
        4_194_304,
        6_291_456,
        7_340_032,
        3_670_016,
        1,
        2,
        3,
        -1_073_741_822,
    ];
    assert_eq!(rt; block_of(alloc, &SMOOTHER, &x)?, smoothed);
    assert_eq!(rt; frames_of(alloc, &SMOOTHER, &x)?, smoothed);
    let added = [
        half + 1,
        2 * half + 2,
        3 * half + 3,
        3 * half + 4,
        2,
        5,
        9,
        i32::MIN + 10,
    ];
    assert_eq!(rt; block_of(alloc, &ADDER, &x)?, added);
    assert_eq!(rt; frames_of(alloc, &ADDER, &x)?, added);
    Ok(())
}

// The outputs of two channels at a frame, where the second one comes after three frames.
fn late_channel(alloc: Global) -> Result<[Fix; 4], NoMemory> {
    let Ok(program) = checked(alloc, &ADDER)? else {
        return Ok([0; 4]);
    };
    let mut early = [0; 2];
    let mut alone = [0; 1];
    let mut both = [0; 2];
    let mut last = [0; 2];
    let mut processor = Processor::new(alloc, program);
    processor.grow(1)?;
    processor.block(&[10, 20], &mut early, 2);
    processor.step(&[30], &mut alone);
    processor.grow(2)?;
    processor.step(&[40, 5], &mut both);
    processor.grow(1)?;
    processor.step(&[0, 0], &mut last);
    Ok([both[0], both[1], last[0], last[1]])
}

#[test]
fn a_late_channel_has_heard_silence(rt: HostRuntime) -> Result<(), Fail> {
    assert_eq!(rt; late_channel(rt.alloc())?, [104, 9, 105, 10]);
    Ok(())
}

// What the processor answers where it hears nothing for three frames, and then its first channel.
fn silent_start(alloc: Global) -> Result<[Fix; 1], NoMemory> {
    let mut y = [0; 1];
    let Ok(program) = checked(alloc, &ADDER)? else {
        return Ok(y);
    };
    let mut processor = Processor::new(alloc, program);
    processor.block(&[], &mut y[..0], 2);
    processor.step(&[], &mut y[..0]);
    processor.grow(1)?;
    processor.step(&[100], &mut y);
    Ok(y)
}

#[test]
fn a_processor_without_a_channel_moves_on(rt: HostRuntime) -> Result<(), Fail> {
    assert_eq!(rt; silent_start(rt.alloc())?, [104]);
    Ok(())
}
