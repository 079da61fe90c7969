ghost use Rattle.std.specs.Prelude.{◌≡◌, IfOk, string_bytes};
ghost use Rattle.load_gen.specs.Voices as voices;

use script_ast::Op;
use std::alloc::Global;
use wa_base::{Name, NoMemory};

/// The name of the parameter of a gain.
pub const GAIN: &str = "gain";

/// The name of the destination.
pub const DESTINATION: &str = "destination";

/// The name of a voice's source.
pub fn source(alloc: Global, place: u32) -> Result<Name, NoMemory>
    ensures { IfOk result (λ name. name ≡ voices.source place) }
{
    text(alloc, &format!(in alloc; "c{place}")?)
}

/// The name of a voice's gain.
pub fn gain(alloc: Global, place: u32) -> Result<Name, NoMemory>
    ensures { IfOk result (λ name. name ≡ voices.gain place) }
{
    text(alloc, &format!(in alloc; "g{place}")?)
}

/// The name of a voice's delay.
pub fn delay(alloc: Global, place: u32) -> Result<Name, NoMemory>
    ensures { IfOk result (λ name. name ≡ voices.delay place) }
{
    text(alloc, &format!(in alloc; "d{place}")?)
}

/// The name of the gain that feeds a voice's delay back.
pub fn feedback(alloc: Global, place: u32) -> Result<Name, NoMemory>
    ensures { IfOk result (λ name. name ≡ voices.feedback place) }
{
    text(alloc, &format!(in alloc; "f{place}")?)
}

/// The name with this text.
pub fn text(alloc: Global, text: &str) -> Result<Name, NoMemory>
    ensures { IfOk result (λ name. name ≡ text.now) }
{
    Ok(Name::from(Vec::from_slice(alloc, text.as_bytes())?))
}

/// The first output of one node to the first input of another.
pub fn connected(from: Name, to: Name) -> Op
    ensures { result ≡ voices.connected from to }
{
    Op::Connect {
        from,
        output: 0,
        to,
        input: 0,
    }
}
