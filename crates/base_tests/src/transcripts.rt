use std::alloc::Global;
use std::test::Fail;
use transcript::{Answer, EndWord, Line, Lines, Loudness, summary, text};
use wa_base::{Exc, Feature, Name, NoMemory, NodeId, State};

const ANSWERS: [(u32, Answer); 14] = [
    (1, Answer::Ok),
    (2, Answer::Throw(Exc::IndexSize)),
    (3, Answer::Throw(Exc::NotSupported(None))),
    (
        4,
        Answer::Throw(Exc::NotSupported(Some(Feature::LateBuffer))),
    ),
    (5, Answer::Pending),
    (6, Answer::Resolved),
    (7, Answer::Rejected(Exc::WrongType)),
    (
        8,
        Answer::Rejected(Exc::NotSupported(Some(Feature::AssetSize))),
    ),
    (9, Answer::Value(16_777_216)),
    (10, Answer::Value(-2_147_483_648)),
    (11, Answer::State(State::Suspended)),
    (12, Answer::State(State::Running)),
    (13, Answer::State(State::Closed)),
    (4_294_967_295, Answer::Time(0)),
];

const TEXT: &[u8] = b"1 ok\n2 throw IndexSizeError\n3 throw NotSupportedError\n\
    4 throw NotSupportedError profile:late-buffer\n5 pending\n6 resolved\n\
    7 rejected TypeError\n8 rejected NotSupportedError profile:asset-size\n\
    9 value 16777216\n10 value -2147483648\n\
    11 state suspended\n12 state running\n13 state closed\n4294967295 time 0\n\
    5 resolved\nended 31 tone_2\xff\ncomplete 48000\nend completed\n";

const ENDS: [(EndWord, &str); 9] = [
    (EndWord::Completed, "end completed\n"),
    (EndWord::Idle, "end idle\n"),
    (EndWord::Stalled(1280), "end stalled 1280\n"),
    (
        EndWord::Refused(Exc::InvalidState),
        "end refused InvalidStateError\n",
    ),
    (
        EndWord::Refused(Exc::InvalidAccess),
        "end refused InvalidAccessError\n",
    ),
    (EndWord::Refused(Exc::Range), "end refused RangeError\n"),
    (
        EndWord::Refused(Exc::NotFound),
        "end refused NotFoundError\n",
    ),
    (
        EndWord::Refused(Exc::Encoding),
        "end refused EncodingError\n",
    ),
    (
        EndWord::Refused(Exc::NotSupported(Some(Feature::NodeLimit))),
        "end refused NotSupportedError profile:node-limit\n",
    ),
];

// A line for each answer, and one of each other kind.
fn all_lines(alloc: Global) -> Result<Lines, NoMemory> {
    let mut lines = Lines::new(alloc);
    lines.reserve(2)?;
    for (ordinal, answer) in ANSWERS {
        lines.push(Line::Call(ordinal, answer))?;
    }
    let mut name = Name::new(alloc);
    for byte in *b"tone_2\xff" {
        name.push(byte)?;
    }
    lines.push(Line::Resolved(5))?;
    lines.push(Line::Ended(NodeId(31), name))?;
    lines.push(Line::Complete(48_000))?;
    Ok(lines)
}

fn writes_each_line(alloc: Global) -> Result<bool, NoMemory> {
    let lines = all_lines(alloc)?;
    let bytes = text(alloc, &lines, &EndWord::Completed)?;
    Ok(Lines::new(alloc).is_empty() && lines.len() == 17 && bytes.as_slice() == TEXT)
}

#[test]
fn every_line_has_its_text(rt: HostRuntime) -> Result<(), Fail> {
    assert!(rt; writes_each_line(rt.alloc())?);
    Ok(())
}

fn writes_each_end(alloc: Global) -> Result<bool, NoMemory> {
    let lines = Lines::new(alloc);
    for (end, want) in &ENDS {
        if text(alloc, &lines, end)?.as_slice() != want.as_bytes() {
            return Ok(false);
        }
    }
    Ok(true)
}

#[test]
fn every_end_has_its_line(rt: HostRuntime) -> Result<(), Fail> {
    assert!(rt; writes_each_end(rt.alloc())?);
    Ok(())
}

// The counts of these lines: each answer is that of a call, five of which were refused.
const SUMMARY: &[u8] = b"summary calls 14 quanta 375 ended 1 refused 5\nend completed\n";

const LOUD_SUMMARY: &[u8] =
    b"summary calls 14 quanta 375 ended 1 refused 5 peak 2147483648 sum -2147483643\nend stalled 48000\n";

fn sums_up(alloc: Global) -> Result<bool, NoMemory> {
    let lines = all_lines(alloc)?;
    let quiet = summary(alloc, &lines, 375, None, &EndWord::Completed)?;
    let loudness = Loudness::of(&[7, -2_147_483_648, -2]);
    let loud = summary(
        alloc,
        &lines,
        375,
        Some(loudness),
        &EndWord::Stalled(48_000),
    )?;
    Ok(quiet.as_slice() == SUMMARY && loud.as_slice() == LOUD_SUMMARY)
}

#[test]
fn a_summary_has_counts_and_loudness(rt: HostRuntime) -> Result<(), Fail> {
    assert!(rt; sums_up(rt.alloc())?);
    Ok(())
}

#[test]
fn no_samples_are_silent(rt: HostRuntime) -> Result<(), Fail> {
    assert_eq!(rt; Loudness::of(&[]), Loudness { peak: 0, sum: 0 });
    Ok(())
}
