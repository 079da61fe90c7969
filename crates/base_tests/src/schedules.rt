use sched_source::{Loop, Sched};
use wa_base::Channel;

const BUFFER: [i32; 5] = [2, 4, 6, 8, 10];

// The loop between two frames, or none.
fn around(points: Option<(i64, i64)>) -> Loop {
    let (first, end) = points.unwrap_or((0, 0));
    Loop {
        on: points.is_some(),
        first,
        end,
    }
}

// Blocks of one frame have what a block of 24 frames has.
fn plays_in_pieces(rate: u32, points: Loop) -> bool {
    if rate == 0 {
        return false;
    }
    let mut sched = Sched::buffer(rate, points);
    if sched.start(0, 4, 1, Some(15), 5).is_err() {
        return false;
    }
    let mut whole = [-1; 24];
    sched.play(&mut whole, &Channel::from(BUFFER.as_slice()), 0);
    for (first, sample) in whole.iter().enumerate() {
        let mut one = [-1; 1];
        sched.play(&mut one, &Channel::from(BUFFER.as_slice()), first as u64);
        if one[0] != *sample {
            return false;
        }
    }
    sched.plays_in(4, 1) && !sched.plays_in(0, 4)
}

#[test]
fn blocks_of_any_length_are_played(rt: HostRuntime) {
    assert!(rt; plays_in_pieces(1, around(None)));
    assert!(rt; plays_in_pieces(1, around(Some((1, 4)))));
    assert!(rt; plays_in_pieces(3, around(Some((0, 5)))));
}
