ghost use Rattle.std.specs.Prelude.{◌≡◌, map, string_bytes, option_map};
ghost use Rattle.prune_top.specs.Words as spec;

/// What a command line without a reading is answered with.
pub const USAGE: &[u8] = b"words: waprune OUT\n";

/// The file that the words after the program's name ask for; `None` where they have no reading.
pub fn out_of(words: &[String]) -> Option<&str>
    ensures { option_map (λ out. out.now) result ≡ spec.out_of (map string_bytes words.now) }
{
    match words {
        [out] if is_file_name(out.as_str()) => Some(out.as_str()),
        _ => None,
    }
}

// Whether a word names a file, and is no option.
fn is_file_name(word: &str) -> bool
    ensures { result ≡ spec.is_file_name word.now }
{
    match word.as_bytes().first() {
        Some(first) => *first != b'-',
        None => false,
    }
}
