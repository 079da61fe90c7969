use channel_mix::{count, mix_add};
use wa_base::{Interp, Mode, sat};

const ROOM: usize = 8;

// Whether one frame is mixed to these channels.
fn is_mixed_to(src: &[i32], interp: Interp, want: &[i64]) -> bool {
    let to = want.len();
    if to == 0 || to > ROOM {
        return false;
    }
    let mut acc = [0; ROOM];
    mix_add(&mut acc[..to], to, src, src.len(), interp);
    acc[..to] == want[..]
}

fn has_counts() -> bool {
    for (mode, channel_count, counts, want) in [
        (Mode::Max, 2, [1, 6, 4].as_slice(), 6),
        (Mode::ClampedMax, 2, [1, 6, 4].as_slice(), 2),
        (Mode::ClampedMax, 6, [1, 4].as_slice(), 4),
        (Mode::Explicit, 2, [1, 6, 4].as_slice(), 2),
        (Mode::Max, 2, [].as_slice(), 1),
        (Mode::ClampedMax, 2, [].as_slice(), 1),
        (Mode::Explicit, 2, [].as_slice(), 2),
    ] {
        if count(mode, channel_count, counts) != want {
            return false;
        }
    }
    true
}

#[test]
fn an_input_has_the_channels_of_its_mode(rt: HostRuntime) {
    assert!(rt; has_counts());
}

#[test]
fn speakers_are_mixed_up(rt: HostRuntime) {
    for (src, want) in [
        ([7].as_slice(), [7, 7].as_slice()),
        ([7].as_slice(), [7, 7, 0, 0].as_slice()),
        ([7].as_slice(), [0, 0, 7, 0, 0, 0].as_slice()),
        ([5, 6].as_slice(), [5, 6, 0, 0].as_slice()),
        ([5, 6].as_slice(), [5, 6, 0, 0, 0, 0].as_slice()),
        ([1, 2, 3, 4].as_slice(), [1, 2, 0, 0, 3, 4].as_slice()),
    ] {
        assert!(rt;
            is_mixed_to(src, Interp::Speakers, want),
            "{src:?} to {want:?}"
        );
    }
}

#[test]
fn speakers_are_mixed_down(rt: HostRuntime) {
    let powers = [
        16_777_216,
        33_554_432,
        67_108_864,
        134_217_728,
        268_435_456,
        536_870_912,
    ];
    let ends = [2_147_483_647, 2_147_483_646, 2_147_483_645, -2_147_483_645];
    for (src, want) in [
        ([3, 4].as_slice(), [4].as_slice()),
        ([-3, -4].as_slice(), [-3].as_slice()),
        ([10, 200, 3000, 40_000].as_slice(), [10_803].as_slice()),
        (
            [10, 200, 3000, 40_000].as_slice(),
            [1505, 20_100].as_slice(),
        ),
        (ends.as_slice(), [1_073_741_823].as_slice()),
        (ends.as_slice(), [2_147_483_646, 1].as_slice()),
        (powers.as_slice(), [505_351_897].as_slice()),
        (powers.as_slice(), [254_042_876, 460_632_620].as_slice()),
        (
            powers.as_slice(),
            [64_230_348, 81_007_564, 268_435_456, 536_870_912].as_slice(),
        ),
        ([1, 2, 3, 99, 5, 7].as_slice(), [7, 9].as_slice()),
        (
            [i32::MAX; 6].as_slice(),
            [5_184_484_094, 5_184_484_094].as_slice(),
        ),
        ([i32::MIN; 6].as_slice(), [-7_331_967_744].as_slice()),
    ] {
        assert!(rt;
            is_mixed_to(src, Interp::Speakers, want),
            "{src:?} to {want:?}"
        );
    }
}

#[test]
fn other_channels_stay_in_order(rt: HostRuntime) {
    for (interp, src, want) in [
        (
            Interp::Speakers,
            [1, 2, 3, 4, 5, 6].as_slice(),
            [1, 2, 3, 4, 5, 6].as_slice(),
        ),
        (Interp::Speakers, [3, 4, 5].as_slice(), [3, 4].as_slice()),
        (Interp::Speakers, [7].as_slice(), [7, 0, 0].as_slice()),
        (
            Interp::Discrete,
            [1, 2, 3, 4, 5, 6].as_slice(),
            [1].as_slice(),
        ),
        (Interp::Discrete, [7].as_slice(), [7, 0].as_slice()),
        (
            Interp::Discrete,
            [1, 2, 3, 4].as_slice(),
            [1, 2, 3, 4, 0, 0].as_slice(),
        ),
    ] {
        assert!(rt;
            is_mixed_to(src, interp, want),
            "{interp:?} {src:?} to {want:?}"
        );
    }
}

#[test]
fn connections_add_up_and_are_saturated_once(rt: HostRuntime) {
    let mut acc = [0; 4];
    mix_add(&mut acc, 2, &[i32::MAX, 5], 1, Interp::Speakers);
    mix_add(&mut acc, 2, &[1, -3, 2, 4], 2, Interp::Speakers);
    mix_add(
        &mut acc,
        2,
        &[-2, -7, 0, 0, 0, 0, 0, 0, 0, 0, -6, -6],
        6,
        Interp::Discrete,
    );
    let inputs = [sat(acc[0]), sat(acc[1]), sat(acc[2]), sat(acc[3])];
    assert!(rt; inputs == [i32::MAX - 1, -5, i32::MAX, 9]);
}
