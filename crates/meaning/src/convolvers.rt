ghost use Rattle.std.specs.Prelude.{◌≡◌, None, IfOk, OnOk, OnErr};
ghost use Rattle.conn_graph.specs.Walks.{CountsEdits};
ghost use Rattle.node_table.specs.Convolutions.{response_refusal as refusal_of};
ghost use Rattle.meaning.specs.Changes.{convolver_created};
ghost use Rattle.meaning.specs.Convolvers as spec;
ghost use Rattle.meaning.specs.Sources.{IsBufferOf};
ghost use Rattle.meaning.specs.Validity.{IsValid};
ghost use Rattle.meaning.specs.World.{plain, samples_in};

use crate::world::World;
use node_table::{Equation, Kind, response_refusal};
use wa_base::{BufId, Exc, Feature, NoMemory, Samples};

// A convolver hears by a buffer, of which it keeps a copy (ConvolverNode).
impl World {
    // Why a convolver with a response, or with none, is refused.
    pub(crate) fn convolver_refusal(&self, buffer: Option<BufId>) -> Option<Exc>
        requires valid { IsValid self.now }
        requires buffer { IsBufferOf self.now.store buffer }
        ensures { result ≡ spec.convolver_refusal (plain self.now) buffer }
    {
        if let Some(exc) = self.response_channels_refusal(buffer) {
            return Some(exc);
        }
        if let Some(exc) = self.resampling_refusal(buffer) {
            return Some(exc);
        }
        if let Some(exc) = self.response_refusal(buffer) {
            return Some(exc);
        }
        self.nodes.limit_refusal(0)
    }

    fn response_channels_refusal(&self, buffer: Option<BufId>) -> Option<Exc>
        requires { IsBufferOf self.now.store buffer }
        ensures { result ≡ spec.response_channels_refusal self.now.store buffer }
    {
        if self.store.shape(buffer?).channels > 1 {
            Some(Exc::NotSupported(Some(Feature::ResponseChannels)))
        } else {
            None
        }
    }

    fn response_refusal(&self, buffer: Option<BufId>) -> Option<Exc>
        requires valid { IsValid self.now }
        requires buffer { IsBufferOf self.now.store buffer }
        ensures { result ≡ refusal_of (samples_in self.now.store buffer 0) }
    {
        response_refusal(&self.store.channel(buffer?, 0))
    }

    // The samples of a response, with memory of their own.
    fn response(&self, buffer: Option<BufId>) -> Result<Samples, NoMemory>
        requires valid { IsValid self.now }
        requires buffer { IsBufferOf self.now.store buffer }
        ensures { IfOk result (λ samples. samples ≡ samples_in self.now.store buffer 0) }
    {
        let alloc = self.params.alloc();
        match buffer {
            Some(buffer) => self.store.channel(buffer, 0).copy(alloc),
            None => Ok(Samples::from(Vec::new(alloc))),
        }
    }

    // Adds a convolver that is accepted, and freezes the buffer of its response.
    pub(crate) fn create_convolver(
        &mut self,
        buffer: Option<BufId>,
        now: u64,
    ) -> Result<(), NoMemory>
        requires valid { IsValid self.old }
        requires buffer { IsBufferOf self.old.store buffer }
        requires accepted { spec.convolver_refusal (plain self.old) buffer ≡ None }
        ensures ok { OnOk result (plain self.new ≡ convolver_created (plain self.old) buffer now) }
        ensures err { OnErr result (plain self.new ≡ plain self.old) }
        ensures graph { CountsEdits self.old.graph self.new.graph }
    {
        let equation = Equation::Convolution {
            response: self.response(buffer)?,
        };
        self.add(Kind::Causal { equation }, None, now)?;
        if let Some(buffer) = buffer {
            self.store.freeze(buffer);
        }
        Ok(())
    }
}
