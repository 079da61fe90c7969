ghost use Rattle.std.specs.Prelude.{◌≡◌, ◌≤◌, ◌+◌, ◌<◌, ◌^◌, length, IfSome, IfNone};
ghost use Rattle.wav_io.specs.WavGrammar as grammar;

use crate::numbers::u32_at;

/// The bytes of a chunk's name and size, which stand before its body.
pub(crate) const HEAD_LEN: usize = 8;

const NAME_LEN: usize = 4;

/// What a chunk is.
#[derive(Clone, Copy)]
pub(crate) enum Kind {
    FormatChunk,
    DataChunk,
    /// A chunk that is skipped.
    Other,
}

/// A chunk: where it begins, what it is, and the bytes of its body, which need not all be in the file.
#[derive(Clone, Copy)]
pub(crate) struct Chunk {
    pub place: usize,
    pub kind: Kind,
    pub size: u32,
}

impl Chunk {
    pub(crate) fn is_format(&self) -> bool
        ensures { result ≡ grammar.is_format_kind self.now.kind }
    {
        matches!(self.kind, Kind::FormatChunk)
    }

    pub(crate) fn is_data(&self) -> bool
        ensures { result ≡ grammar.is_data_kind self.now.kind }
    {
        matches!(self.kind, Kind::DataChunk)
    }

    /// Where the body ends.
    pub(crate) fn body_end(&self) -> usize
        requires { self.now.place ≤ 2 ^ 63 }
        ensures { result ≡ grammar.body_end self.now }
    {
        self.place + HEAD_LEN + self.size as usize
    }

    /// Where the next chunk is, which may be past the end of the file.
    pub(crate) fn next_place(&self) -> usize
        requires { self.now.place ≤ 2 ^ 63 }
        ensures { result ≡ grammar.next_place self.now }
    {
        self.place + HEAD_LEN + self.size as usize + (self.size % 2) as usize
    }

    /// Whether the body reaches past the end of the file.
    pub(crate) fn is_cut(&self, bytes: &[u8]) -> bool
        requires { self.now.place ≤ 2 ^ 63 }
        ensures { result ≡ grammar.is_cut bytes.now self.now }
    {
        bytes.len() < self.body_end()
    }
}

/// The chunk at a place, or none where fewer than eight bytes are left.
#[tactic(auto, unfolding(crate::specs::WavGrammar::chunk_at))]
pub(crate) fn chunk_at(bytes: &[u8], place: usize) -> Option<Chunk>
    requires { place ≤ 2 ^ 63 }
    ensures there { IfSome result (λ chunk. chunk ≡ grammar.chunk_at bytes.now place) }
    ensures at { IfSome result (λ chunk. chunk.place ≡ place) }
    ensures room { IfSome result (λ _. place + 8 ≤ length bytes.now) }
    ensures none { IfNone result (length bytes.now < place + 8) }
{
    if bytes.len() < place + HEAD_LEN {
        return None;
    }
    Some(Chunk {
        place,
        kind: kind_named(&bytes[place..place + NAME_LEN]),
        size: u32_at(bytes, place + NAME_LEN),
    })
}

#[tactic(auto, unfolding(crate::specs::WavGrammar::kind_named))]
fn kind_named(name: &[u8]) -> Kind
    ensures { result ≡ grammar.kind_named name.now }
{
    if name == b"fmt ".as_slice() {
        Kind::FormatChunk
    } else if name == b"data".as_slice() {
        Kind::DataChunk
    } else {
        Kind::Other
    }
}
