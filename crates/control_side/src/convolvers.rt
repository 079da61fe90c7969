ghost use Rattle.std.specs.Prelude.{◌≡◌};
ghost use Rattle.control_side.specs.Convolvers as spec;

use crate::control::Control;
use crate::decide::{Decided, refused};
use meaning::Edit;
use wa_base::{Exc, Feature, Name};

// What the creation of a convolver comes to (the ConvolverNode interface).
impl Control {
    pub(crate) fn create_convolver(
        &self,
        buffer: &Option<Name>,
        disable_normalization: bool,
    ) -> Decided
        ensures { result ≡ spec.creates_convolver self.now buffer.now disable_normalization }
    {
        let buffer = match self.given_buffer(buffer) {
            Ok(buffer) => buffer,
            Err(exc) => return refused(exc),
        };
        match normalization_refusal(disable_normalization) {
            Some(exc) => refused(exc),
            None => self.edits(Edit::CreateConvolver { buffer }),
        }
    }
}

// The profile normalizes no response.
fn normalization_refusal(disabled: bool) -> Option<Exc>
    ensures { result ≡ spec.normalization_refusal disabled }
{
    if disabled {
        None
    } else {
        Some(Exc::NotSupported(Some(Feature::Normalization)))
    }
}
