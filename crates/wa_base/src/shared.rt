ghost use Rattle.std.specs.Prelude.{◌≡◌, length, IfOk};

use crate::items::Samples;
use crate::memory::NoMemory;
use crate::numbers::Fix;
use std::alloc::Global;
use std::marker::Model;
use std::rc::Rc;

/// Samples that may have several owners, as those of a recording that became a buffer of two worlds.
#[derive(Drop)]
pub struct SharedSamples {
    samples: Rc<Samples>,
}

impl Model for SharedSamples {
    ghost use Rattle.std.specs.Prelude.{ℤ, List};

    ghost Value = { List ℤ };

    ghost view = { λ s. s.samples.value };
}

impl SharedSamples {
    /// Samples with one owner.
    pub fn new(alloc: Global, samples: Samples) -> Result<SharedSamples, NoMemory>
        ensures { IfOk result (λ shared. shared ≡ samples) }
    {
        let samples = Rc::new(alloc, samples)?;
        Ok(SharedSamples { samples })
    }

    /// The same samples with one more owner. They are not copied. `NoMemory` comes where there are more
    /// owners than can be counted.
    pub fn share(&self) -> Result<SharedSamples, NoMemory>
        ensures { IfOk result (λ shared. shared ≡ self.now) }
    {
        let samples = self.samples.clone()?;
        Ok(SharedSamples { samples })
    }

    /// The samples in order.
    pub fn as_slice(&self) -> &[Fix]
        ensures { result.now ≡ self.now }
    {
        self.samples.as_ref().as_slice()
    }

    /// The number of samples.
    pub fn len(&self) -> usize
        ensures { result ≡ length self.now }
    {
        self.samples.as_ref().len()
    }
}
