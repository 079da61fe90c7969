ghost use Rattle.std.specs.Prelude.{◌≡◌, ◌≤◌, ◌<◌, ◌+◌, ◌*◌, ℕ, pos, length, slice_index_or, true, false, if◌then◌else◌};
ghost use Rattle.wa_base.specs.Contexts.{IsQuantumSize};
ghost use Rattle.mix_rules.specs.Blocks.{sample};
ghost use Rattle.mix_rules.specs.Mixing.{mix};

use crate::mixing::takes_mono;
use wa_base::Interp;

// Makes of the first channel so many, where sums move.
pub(crate) fn widen_if(sums: &mut [i64], count: usize, frames: usize, interp: Interp, moves: bool)
    requires few { count ≤ 32 }
    requires frames { IsQuantumSize frames }
    requires length { length sums.old ≡ count * frames }
    ensures length { length sums.new ≡ length sums.old }
    ensures stay { moves ≡ false → sums.new ≡ sums.old }
    ensures sums { moves ≡ true → (c m : ℕ) → c < count → m < frames → sample frames sums.new c m ≡ mix interp 1 count (λ i. sample frames sums.old 0 m) c }
{
    if moves {
        widen(sums, count, frames, interp);
    }
}

// Makes of the first channel so many: what a mono input is mixed to. The last channel comes first.
pub(crate) fn widen(sums: &mut [i64], count: usize, frames: usize, interp: Interp)
    requires few { count ≤ 32 }
    requires low { 1 ≤ frames }
    requires high { frames ≤ 1024 }
    requires length { length sums.old ≡ count * frames }
    ensures length { length sums.new ≡ length sums.old }
    ensures sums { (c m : ℕ) → c < count → m < frames → sample frames sums.new c m ≡ mix interp 1 count (λ i. sample frames sums.old 0 m) c }
{
    let mut channel = count;
    while channel > 0 {
        channel -= 1;
        let takes = takes_mono(interp, count, channel);
        widen_one(sums, channel, frames, takes);
    }
}

// Makes a channel what the first is, or silent.
fn widen_one(sums: &mut [i64], channel: usize, frames: usize, takes: bool)
    requires channel { channel < 32 }
    requires frames { frames ≤ 1024 }
    requires room { channel * frames + frames ≤ length sums.old }
    ensures length { length sums.new ≡ length sums.old }
    ensures own { (m : ℕ) → m < frames → sample frames sums.new channel m ≡ (if takes then sample frames sums.old 0 m else pos 0) }
    ensures before { (k : ℕ) → k < channel * frames → slice_index_or sums.new k (pos 0) ≡ slice_index_or sums.old k (pos 0) }
    ensures after { (k : ℕ) → channel * frames + frames ≤ k → slice_index_or sums.new k (pos 0) ≡ slice_index_or sums.old k (pos 0) }
{
    let first = channel * frames;
    if takes {
        sums.copy_within(0..frames, first);
    } else {
        sums[first..first + frames].fill(0);
    }
}
