ghost use Rattle.std.specs.Prelude.{◌≡◌, map, string_bytes, option_map};
ghost use Rattle.explain_top.specs.Words as spec;

/// What a command line without a reading is answered with.
pub const USAGE: &[u8] = b"words: waexplain derive FRAME CHANNEL OUT | check IN\n";

/// What the words of a command line ask for.
#[derive(Clone, Copy)]
pub enum Request<'a> {
    /// A derivation of the sample of a channel at a frame, into the file OUT.
    Derive {
        frame: u64,
        channel: u64,
        out: &'a str,
    },
    /// Whether the text of the file IN is a derivation.
    Check {
        text: &'a str,
    },
}

/// What the words after the program's name ask for; `None` where they have no reading.
pub fn request_of(words: &[String]) -> Option<Request<'_>>
    ensures { option_map spec.shown result ≡ spec.request_of (map string_bytes words.now) }
{
    match words {
        [command, text] if command.as_str() == "check" => Some(Request::Check {
            text: text.as_str(),
        }),
        [command, frame, channel, out] if command.as_str() == "derive" => {
            derive_of(frame.as_str(), channel.as_str(), out.as_str())
        }
        _ => None,
    }
}

// The derivation that texts ask for, where FRAME and CHANNEL are numbers.
fn derive_of<'a>(frame: &str, channel: &str, out: &'a str) -> Option<Request<'a>>
    ensures { option_map spec.shown result ≡ spec.derive_of frame.now channel.now out.now }
{
    let frame = number_in(frame)?;
    let channel = number_in(channel)?;
    Some(Request::Derive {
        frame,
        channel,
        out,
    })
}

// The number that 1 to 10 decimal digits write.
fn number_in(text: &str) -> Option<u64>
    ensures { result ≡ spec.number_in text.now }
{
    if text.len() > 10 || text.starts_with('+') {
        None
    } else {
        text.parse().ok()
    }
}
