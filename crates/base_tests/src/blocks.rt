ghost use Rattle.std.specs.Prelude.{◌<◌};

use channel_mix::mix_add;
use wa_base::Interp;

// So many frames that a loop may take several at once and has some left.
const FRAMES: usize = 37;

// The most output channels.
const MOST: usize = 4;

// The values of a block of 5.1, from the whole range.
fn values() -> [i32; 6 * FRAMES] {
    let mut block = [0; 6 * FRAMES];
    let mut value = i32::MAX;
    for sample in block.iter_mut() {
        *sample = value;
        value = value.wrapping_mul(1_664_525).wrapping_add(1_013_904_223);
    }
    block
}

// The samples of frame k.
fn frame(block: &[i32; 6 * FRAMES], k: usize) -> [i32; 6]
    requires { k < FRAMES }
{
    [
        block[k],
        block[FRAMES + k],
        block[2 * FRAMES + k],
        block[3 * FRAMES + k],
        block[4 * FRAMES + k],
        block[5 * FRAMES + k],
    ]
}

// Whether each frame of a block is mixed as it is by itself.
fn is_mixed_by_frames(to: usize) -> bool {
    if to == 0 || to > MOST {
        return false;
    }
    let block = values();
    let mut sums = [0; MOST * FRAMES];
    mix_add(&mut sums[..to * FRAMES], to, &block, 6, Interp::Speakers);
    for k in 0..FRAMES {
        let mut outputs = [0; MOST];
        mix_add(
            &mut outputs[..to],
            to,
            &frame(&block, k),
            6,
            Interp::Speakers,
        );
        if !has_outputs(&sums, k, &outputs) {
            return false;
        }
    }
    true
}

// Whether the sums at frame k are these.
fn has_outputs(sums: &[i64; MOST * FRAMES], k: usize, outputs: &[i64; MOST]) -> bool
    requires { k < FRAMES }
{
    for (channel, output) in outputs.iter().enumerate() {
        if sums[channel * FRAMES + k] != *output {
            return false;
        }
    }
    true
}

#[test]
fn a_block_is_mixed_down_as_its_frames_are(rt: HostRuntime) {
    for to in [1, 2, 4] {
        assert!(rt; is_mixed_by_frames(to), "5.1 to {to}");
    }
}
