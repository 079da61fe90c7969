ghost use Rattle.std.specs.Prelude.{◌≡◌, ◌<◌, ◌≤◌, ◌+◌, ◌*◌, ◌/◌, ℕ, ℤ, List, ◌∷◌, length, max, OnOk, OnErr};
ghost use Rattle.node_table.specs.Frames.{item, heard};

use wa_base::{Fix, NoMemory};

/// The state of a node whose output at a frame rests on the input up to that frame. It stands, for
/// each channel, for the list of all frames that the channel has heard since the node's birth, the
/// newest first.
///
/// A channel past those that there is room for has heard as many frames as the others, and each of
/// them was 0. Such a channel costs nothing.
pub trait Causal {
    // Whether the state stands for these frames of this channel, the newest first.
    ghost stands: { Self → ℕ → List ℤ → Type 0 };

    // The output after these frames, the newest first.
    ghost value: { Self → List ℤ → ℤ };

    // The number of channels that there is room for.
    ghost room: { Self → ℕ };

    /// Makes room for at least so many channels. What was heard stays. It alone takes memory; after
    /// `NoMemory` the room is as before.
    fn grow(&mut self, channels: u32) -> Result<(), NoMemory>
        ensures stands { (c : ℕ) (xs : List ℤ) → stands self.old c xs → stands self.new c xs }
        ensures value { value self.new ≡ value self.old }
        ensures ok { OnOk result (room self.new ≡ max (room self.old) channels) }
        ensures err { OnErr result (room self.new ≡ room self.old) };

    /// Hears one frame: `x` has its sample of each channel that there is room for, and `y` gets the
    /// output of each. Samples are in units of 2^-24.
    fn step(&mut self, x: &[Fix], y: &mut [Fix])
        requires x { length x.now ≡ room self.old }
        requires y { length y.old ≡ room self.old }
        ensures stands { (c : ℕ) (xs : List ℤ) → stands self.old c xs → stands self.new c (item x.now c ∷ xs) }
        ensures output { (c : ℕ) (xs : List ℤ) → c < room self.old → stands self.old c xs → item y.new c ≡ value self.old (item x.now c ∷ xs) }
        ensures value { value self.new ≡ value self.old }
        ensures room { room self.new ≡ room self.old };

    /// Hears so many frames of each channel that there is room for: `x` has those of the first channel,
    /// then those of the second and so on, and `y` gets the outputs in the same order. It leaves what
    /// one `step` for each frame leaves, and writes what they write.
    fn block(&mut self, x: &[Fix], y: &mut [Fix], frames: usize)
        requires x { length x.now ≡ room self.old * frames }
        requires y { length y.old ≡ room self.old * frames }
        ensures stands { (c : ℕ) (xs : List ℤ) → stands self.old c xs → stands self.new c (heard x.now (c * frames) frames xs) }
        ensures output { (c k : ℕ) (xs : List ℤ) → c < room self.old → k < frames → stands self.old c xs → item y.new (c * frames + k) ≡ value self.old (heard x.now (c * frames) (k + 1) xs) }
        ensures value { value self.new ≡ value self.old }
        ensures room { room self.new ≡ room self.old };
}
