use byteorder::{ByteOrder, LittleEndian};
use std::alloc::{AllocError, Global};
use std::test::Fail;
use wav_io::{decode, frames_into, header};

const MONO: [u8; 44] = [
    0x52, 0x49, 0x46, 0x46, 0xa4, 0x01, 0x00, 0x00, 0x57, 0x41, 0x56, 0x45, 0x66, 0x6d, 0x74, 0x20,
    0x10, 0x00, 0x00, 0x00, 0x01, 0x00, 0x01, 0x00, 0x80, 0xbb, 0x00, 0x00, 0x80, 0x32, 0x02, 0x00,
    0x03, 0x00, 0x18, 0x00, 0x64, 0x61, 0x74, 0x61, 0x80, 0x01, 0x00, 0x00,
];

// The RIFF size counts the zero byte behind an odd number of bytes, and the data size does not.
fn counts_the_zero_byte(odd: &[u8; 44]) -> bool {
    LittleEndian::read_u32(&odd[4..8]) == 40 && LittleEndian::read_u32(&odd[40..44]) == 3
}

#[test]
fn header_of_a_mono_file(rt: HostRuntime) {
    assert!(rt; header(48_000, 1, 24, 128) == MONO);
    assert!(rt; counts_the_zero_byte(&header(48_000, 1, 24, 1)));
}

#[test]
fn samples_of_24_bits(rt: HostRuntime) {
    let mut out = [0xaa; 15];
    frames_into(&mut out, &[16_777_216, 5_592_405, -16_777_216, 1, -1], 24);
    let want = [
        0xff, 0xff, 0x7f, 0xab, 0xaa, 0x2a, 0x00, 0x00, 0x80, 0x01, 0x00, 0x00, 0x00, 0x00, 0x00,
    ];
    assert!(rt; out == want);
}

#[test]
fn samples_of_16_bits(rt: HostRuntime) {
    let mut out = [0xaa; 10];
    frames_into(&mut out, &[256, 255, -256, -257, i32::MAX], 16);
    let want = [0x01, 0x00, 0x00, 0x00, 0x00, 0x00, 0xff, 0xff, 0xff, 0x7f];
    assert!(rt; out == want);
}

// A file of two channels and three frames, with 24 bits.
fn written(alloc: Global) -> Result<Vec<u8>, AllocError> {
    let mut samples = [0; 18];
    frames_into(
        &mut samples,
        &[16_777_216, 5_592_405, -16_777_216, 1, -1, 3],
        24,
    );
    let mut file = Vec::from_slice(alloc, &header(48_000, 2, 24, 3))?;
    file.extend_from_slice(&samples)?;
    Ok(file)
}

// Whether a file has these samples, one channel after the other.
fn has_samples(alloc: Global, file: &[u8], samples: &[i32]) -> bool {
    match decode(alloc, file) {
        Ok(wav) => {
            (wav.rate, wav.channels, wav.frames) == (48_000, 2, 3)
                && wav.samples.as_slice() == samples
        }
        Err(_) => false,
    }
}

#[test]
fn a_written_file_is_read_back(rt: HostRuntime) -> Result<(), Fail> {
    let file = written(rt.alloc())?;
    let want = [16_777_214, -16_777_216, 0, 5_592_406, 2, 4];
    assert!(rt; has_samples(rt.alloc(), file.as_slice(), &want));
    Ok(())
}
