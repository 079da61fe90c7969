use crate::runs::{Failing, Left, NONE, replay};
use replay_top::Status;
use std::alloc::{AllocError, Global};
use std::test::Fail;
use wa_base::NoMemory;

const CONSTANT: &str = r#"{"version":1,"context":{"channels":1,"length":128,"rate":48000},"calls":[
{"op":"createConstantSource","as":"c"},
{"op":"connect","from":"c","to":"destination"},
{"op":"start","node":"c"},
{"op":"startRendering"}]}"#;

const LINES: &str = "1 ok\n2 ok\n3 ok\n4 pending\n4 resolved\ncomplete 128\nend completed\n";

// The 44 bytes before the samples: 24 bits, one channel, 48,000 frames a second, and 128 frames.
const HEADER: [u8; 44] = [
    0x52, 0x49, 0x46, 0x46, 0xa4, 0x01, 0x00, 0x00, 0x57, 0x41, 0x56, 0x45, 0x66, 0x6d, 0x74, 0x20,
    0x10, 0x00, 0x00, 0x00, 0x01, 0x00, 0x01, 0x00, 0x80, 0xbb, 0x00, 0x00, 0x80, 0x32, 0x02, 0x00,
    0x03, 0x00, 0x18, 0x00, 0x64, 0x61, 0x74, 0x61, 0x80, 0x01, 0x00, 0x00,
];

// The sample of 1.0.
const FULL: [u8; 3] = [0xff, 0xff, 0x7f];

// The asset is decoded, and then a path at which there is none.
const DECODED: &str = r#"{"version":1,"context":{"channels":1,"length":3,"rate":44100},"calls":[
{"op":"decodeAudioData","as":"b","path":"two.wav"},
{"op":"decodeAudioData","as":"b","path":"none.wav"}]}"#;

// The asset is decoded at a suspension, and played from there on.
const DECODED_IN_A_LIST: &str =
    r#"{"version":1,"context":{"channels":1,"length":256,"rate":48000},"calls":[
{"op":"suspend","time":1,"then":[
{"op":"decodeAudioData","as":"b","path":"two.wav"},
{"op":"createBufferSource","as":"s","buffer":"b"},
{"op":"connect","from":"s","to":"destination"},
{"op":"start","node":"s"},
{"op":"resume"}]},
{"op":"startRendering"}]}"#;

fn wav(alloc: Global) -> Result<Vec<u8>, AllocError> {
    let mut bytes = HEADER.as_slice().to_vec(alloc)?;
    for _ in 0..128 {
        bytes.extend_from_slice(&FULL)?;
    }
    Ok(bytes)
}

fn is_left(left: &Left, status: Status, text: &str, file: Option<&[u8]>) -> bool {
    let is_file = match (&left.file, file) {
        (Some(bytes), Some(want)) => bytes.as_slice() == want,
        (None, None) => true,
        _ => false,
    };
    is_file && left.status == status && left.text.as_slice() == text.as_bytes()
}

fn is_rendered(alloc: Global) -> Result<bool, NoMemory> {
    let want = wav(alloc)?;
    let left = replay(alloc, CONSTANT, NONE)?;
    Ok(is_left(&left, Status::Rendered, LINES, Some(want.as_slice())))
}

#[test]
fn a_session_is_read_and_written_in_pieces(rt: HostRuntime) -> Result<(), Fail> {
    assert!(rt; is_rendered(rt.alloc())?);
    Ok(())
}

// A script, the call that fails, and what is left: the status, the text, and of the file that is rendered
// so much as was written.
struct Row {
    script: &'static str,
    failing: Failing,
    status: Status,
    text: &'static str,
    file: Option<&'static [u8]>,
}

static ROWS: [Row; 5] = [
    Row {
        script: CONSTANT,
        failing: Failing { read: 1, ..NONE },
        status: Status::ScriptFault,
        text: "",
        file: None,
    },
    Row {
        script: CONSTANT,
        failing: Failing { write: 3, ..NONE },
        status: Status::TranscriptFault,
        text: "1 ok\n2 o",
        file: None,
    },
    Row {
        script: CONSTANT,
        failing: Failing { append: 2, ..NONE },
        status: Status::WavFault,
        text: LINES,
        file: Some(&HEADER),
    },
    Row {
        script: DECODED,
        failing: Failing { fetch: 2, ..NONE },
        status: Status::AssetFault,
        text: "",
        file: None,
    },
    Row {
        script: DECODED_IN_A_LIST,
        failing: Failing { fetch: 1, ..NONE },
        status: Status::AssetFault,
        text: "",
        file: None,
    },
];

fn is_met(alloc: Global, row: &Row) -> Result<bool, NoMemory> {
    let left = replay(alloc, row.script, row.failing)?;
    Ok(is_left(&left, row.status, row.text, row.file))
}

#[test]
fn faults_leave_what_came_before_them(rt: HostRuntime) -> Result<(), Fail> {
    for row in &ROWS {
        assert!(rt; is_met(rt.alloc(), row)?, "{:?}", row.failing);
    }
    Ok(())
}
