ghost use Rattle.std.specs.Prelude.{◌≤◌, ◌^◌, length};

use buffer_store::{Shape, Store};
use std::alloc::Global;
use wa_base::{BufId, Channel, Exc, Feature, Refusal};
use wav_io::decode;

// Two frames of two channels, 16 bits.
const FILE: &[u8] =
    b"RIFF\0\0\0\0WAVEfmt \x10\0\0\0\x01\0\x02\0\x44\xac\0\0\0\0\0\0\x04\0\x10\0data\x08\0\0\0\x01\0\x02\0\xff\xff\x00\x80";

// The number of a new buffer with one channel and three frames, which is one of the store.
fn three_frames(store: &mut Store) -> Option<BufId> {
    store.create(1, 3, 48_000).ok()
}

// Whether a channel has these samples, one by one and read at once.
fn is(channel: &Channel<'_>, want: &[i32]) -> bool
    requires { length channel.now ≤ 2 ^ 27 }
{
    let mut read = [0; 8];
    let count = want.len();
    if channel.len() != count || count > 8 {
        return false;
    }
    channel.read(0, &mut read[..count]);
    &read[..count] == want && (0..count).all(|at| channel.get(at) == want[at])
}

// Whether the first channel of the store's first buffer has these samples.
fn has(store: &Store, want: &[i32]) -> bool {
    store.len() > 0 && is(&store.channel(BufId(0), 0), want)
}

// What writing the first buffer gives.
fn written(store: &mut Store, channel: u32, samples: &[i32], at: u64) -> Result<(), Refusal> {
    if store.len() == 0 {
        return Err(Refusal::Exc(Exc::InvalidState));
    }
    store.write_channel(BufId(0), channel, samples, at)
}

fn refused(exc: Exc) -> Result<(), Refusal> {
    Err(Refusal::Exc(exc))
}

#[test]
fn a_channel_is_written(rt: HostRuntime) {
    let mut store = Store::new(rt.alloc());
    assert!(rt; three_frames(&mut store) == Some(BufId(0)));
    assert!(rt; has(&store, &[0, 0, 0]));
    assert!(rt; written(&mut store, 0, &[2, 4, 6], 0) == Ok(()));
    assert!(rt; has(&store, &[2, 4, 6]));
    assert!(rt; written(&mut store, 0, &[7, 8, 9], 1) == Ok(()));
    assert!(rt; has(&store, &[2, 7, 8]));
    assert!(rt; written(&mut store, 0, &[5], 3) == Ok(()));
    assert!(rt; written(&mut store, 0, &[5], u64::MAX) == Ok(()));
    assert!(rt; written(&mut store, 0, &[], 0) == Ok(()));
    assert!(rt; has(&store, &[2, 7, 8]));
    assert!(rt; written(&mut store, 1, &[5], 0) == refused(Exc::IndexSize));
}

#[test]
fn a_frozen_buffer_stays(rt: HostRuntime) {
    let mut store = Store::new(rt.alloc());
    assert!(rt; three_frames(&mut store) == Some(BufId(0)));
    assert!(rt; written(&mut store, 0, &[2, 4, 6], 0) == Ok(()));
    assert!(rt; store.len() == 1);
    store.freeze(BufId(0));
    let acquired = refused(Exc::NotSupported(Some(Feature::BufferAcquired)));
    assert!(rt; written(&mut store, 1, &[5], 0) == refused(Exc::IndexSize));
    assert!(rt; written(&mut store, 0, &[5], 0) == acquired);
    assert!(rt; written(&mut store, 0, &[], 3) == acquired);
    assert!(rt; has(&store, &[2, 4, 6]));
}

// Whether a recording becomes the store's second buffer, and a copy of the store is as it was.
fn adopts(alloc: Global, store: &mut Store) -> bool {
    let Ok(wav) = decode(alloc, FILE) else {
        return false;
    };
    store.adopt(&wav) == Ok(BufId(1))
}

#[test]
fn a_recording_is_adopted(rt: HostRuntime) {
    let mut store = Store::new(rt.alloc());
    assert!(rt; three_frames(&mut store) == Some(BufId(0)));
    assert!(rt; adopts(rt.alloc(), &mut store));
    assert!(rt; store.len() == 2);
    let shape = Shape {
        channels: 2,
        frames: 2,
        rate: 44_100,
        frozen: false,
    };
    assert!(rt; store.shape(BufId(1)) == shape);
    assert!(rt; is(&store.channel(BufId(1), 0), &[512, -512]));
    assert!(rt; is(&store.channel(BufId(1), 1), &[1_024, -16_777_216]));
}

#[test]
fn a_copy_is_apart(rt: HostRuntime) {
    let mut store = Store::new(rt.alloc());
    assert!(rt; three_frames(&mut store) == Some(BufId(0)));
    let copied = store.copy();
    assert!(rt; copied.is_ok());
    if let Ok(mut copy) = copied {
        assert!(rt; written(&mut store, 0, &[2, 4, 6], 0) == Ok(()));
        assert!(rt; has(&copy, &[0, 0, 0]));
        assert!(rt; written(&mut copy, 0, &[1], 2) == Ok(()));
        assert!(rt; has(&copy, &[0, 0, 1]));
        assert!(rt; has(&store, &[2, 4, 6]));
    }
}
