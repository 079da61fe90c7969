ghost use Rattle.std.specs.Prelude.{◌≡◌, ◌<◌, ◌≤◌, ◌+◌, ◌*◌, ◌∷◌, [], ℕ, length, option_copied, IfOk, OnOk, OnErr};
ghost use Rattle.node_table.specs.Curves.{IsCurve, shaped, shaper_value};
ghost use Rattle.node_table.specs.Frames.{item};

use crate::curves::shape;
use node_table::Causal;
use std::alloc::Global;
use std::marker::Model;
use wa_base::{Fix, NoMemory, Samples};

/// The state of a wave shaper (WaveShaperNode): the curve in force. It keeps no frame, since its output
/// rests on the newest frame alone.
#[derive(Drop)]
pub struct Shaper {
    alloc: Global,
    curve: Option<Samples>,
    // The number of channels that `grow` has made room for.
    channels: u32,
}

impl Model for Shaper {
    ghost use Rattle.shaper_iir.specs.Waves.{Wave};
    ghost use Rattle.node_table.specs.Curves.{IsCurve};

    ghost Value = { Wave };

    ghost view = { λ s. record { curve = s.curve; channels = s.channels } };

    ghost invariant = { λ s. IsCurve s.curve };
}

impl Shaper {
    /// A shaper at its birth with a curve (createWaveShaper), in units of 2^-24, or without one.
    /// `curve_refusal` says which curves it can have.
    pub fn new(alloc: Global, curve: Option<&[Fix]>) -> Result<Shaper, NoMemory>
        requires { IsCurve (option_copied curve) }
        ensures { IfOk result (λ shaper. shaper ≡ record { curve = option_copied curve.entry; channels = 0 }) }
    {
        let curve = copied(alloc, curve)?;
        Ok(Shaper {
            alloc,
            curve,
            channels: 0,
        })
    }

    /// Puts another curve into force, or none (the attribute `curve`). What was heard stays. After
    /// `NoMemory` the curve is as before.
    pub fn set_curve(&mut self, curve: Option<&[Fix]>) -> Result<(), NoMemory>
        requires { IsCurve (option_copied curve) }
        ensures ok { OnOk result (self.new ≡ record self.old { curve = option_copied curve.entry }) }
        ensures err { OnErr result (self.new ≡ self.old) }
    {
        self.curve = copied(self.alloc, curve)?;
        Ok(())
    }
}

impl Causal for Shaper {
    ghost use Rattle.node_table.specs.Curves.{shaper_value};

    ghost stands = { λ shaper channel frames. Unit {0} };

    ghost value = { λ shaper frames. shaper_value shaper.curve frames };

    ghost room = { λ shaper. shaper.channels };

    fn grow(&mut self, channels: u32) -> Result<(), NoMemory> {
        self.channels = self.channels.max(channels);
        Ok(())
    }

    fn step(&mut self, x: &[Fix], y: &mut [Fix]) {
        shape_all(&self.curve, x, y);
    }

    fn block(&mut self, x: &[Fix], y: &mut [Fix], _frames: usize) {
        shape_all(&self.curve, x, y);
    }
}

// A curve with memory of its own.
fn copied(alloc: Global, curve: Option<&[Fix]>) -> Result<Option<Samples>, NoMemory>
    ensures { IfOk result (λ copy. copy ≡ option_copied curve.entry) }
{
    match curve {
        Some(points) => Ok(Some(Samples::from(Vec::from_slice(alloc, points)?))),
        None => Ok(None),
    }
}

/// Shapes each sample of `x` by a curve, and writes what comes of it at its place of `y`. Without a
/// curve each passes through. Samples and points are in units of 2^-24.
pub fn shape_all(curve: &Option<Samples>, x: &[Fix], y: &mut [Fix])
    requires curve { IsCurve curve.now }
    requires y { length y.old ≡ length x.now }
    ensures length { length y.new ≡ length y.old }
    ensures values { (k : ℕ) → k < length x.now → item y.new k ≡ shaper_value curve.now (item x.now k ∷ []) }
{
    match curve {
        Some(points) => shape_each(points.as_slice(), x, y),
        None => y.copy_from_slice(x),
    }
}

fn shape_each(points: &[Fix], x: &[Fix], y: &mut [Fix])
    requires points { 2 ≤ length points.now }
    requires y { length y.old ≡ length x.now }
    ensures { (k : ℕ) → k < length x.now → item y.new k ≡ shaped points.now (item x.now k) }
{
    for (k, out) in y.iter_mut().enumerate() {
        *out = shape(points, x[k]);
    }
}
